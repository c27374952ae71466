// `normal X1 Y1 X2 Y2`, answered `normal NUMBER PLACE X Y`.
use crate::reads::read_point;
use lines::words::{BadLine, Words};
use plane::normal::{NormalAnswer, compute_normal};
use printing::Printer;

pub fn answer(words: &mut Words, out: &mut Printer) -> Result<(), BadLine> {
    let v1 = read_point(words)?;
    let v2 = read_point(words)?;
    words.end()?;
    let a = NormalAnswer::from(compute_normal(v1, v2));
    out.float_answer(b"normal", a.number, a.place, &[a.x, a.y]);
    Ok(())
}
