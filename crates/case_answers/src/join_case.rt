// `join H LIMIT JOIN X0 Y0 A0 X1 Y1 A1 X2 Y2 A2`, answered `join POSITIVE NEGATIVE FOLDPOS FOLDNEG INNER`.
use crate::join_words::joined;
use crate::reads::read_end;
use endpoint::{EndpointData, LineJoin, blank};
use join::edge::edge_of;
use join::record::compute_join_side_positions;
use lines::words::{BadLine, Words};
use printing::Printer;

// The join at an endpoint that no side is set of, between the one before it and the one after it.
pub fn answer(words: &mut Words, out: &mut Printer) -> Result<(), BadLine> {
    let half_width = words.float()?;
    let limit = words.float()?;
    let line_join = read_join(words)?;
    let prev = read_end(words)?;
    let here = read_end(words)?;
    let next = read_end(words)?;
    words.end()?;
    let e = EndpointData {
        position: here.point,
        half_width,
        advancement: here.advancement,
        line_join,
        ..blank()
    };
    let before = edge_of(prev.point, here.point, half_width);
    let after = edge_of(here.point, next.point, half_width);
    let (a0, a2) = (prev.advancement, next.advancement);
    joined(
        out,
        compute_join_side_positions(before, e, after, a0, a2, limit),
    );
    Ok(())
}

// A line join by its number.
fn read_join(words: &mut Words) -> Result<LineJoin, BadLine> {
    match words.number()? {
        0 => Ok(LineJoin::Miter),
        1 => Ok(LineJoin::MiterClip),
        2 => Ok(LineJoin::Bevel),
        _ => Err(BadLine),
    }
}
