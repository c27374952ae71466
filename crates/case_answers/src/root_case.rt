// `root X`, answered `root NUMBER PLACE ROOT`.
use lines::words::{BadLine, Words};
use printing::Printer;
use root::{Answer, root};

pub fn answer(words: &mut Words, out: &mut Printer) -> Result<(), BadLine> {
    let x = words.float()?;
    words.end()?;
    let a = Answer::from(root(x));
    out.float_answer(b"root", a.number, a.place, &[a.value]);
    Ok(())
}
