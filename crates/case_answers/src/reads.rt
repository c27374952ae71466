// Points and endpoints, read from a line.
use lines::words::{BadLine, Words};
use plane::vector::Point;

// An endpoint's place and advancement.
#[derive(Clone, Copy)]
pub struct End {
    pub point: Point,
    pub advancement: f32,
}

// X Y
pub fn read_point(words: &mut Words) -> Result<Point, BadLine> {
    let x = words.float()?;
    let y = words.float()?;
    Ok(Point { x, y })
}

// X Y A
pub fn read_end(words: &mut Words) -> Result<End, BadLine> {
    let point = read_point(words)?;
    let advancement = words.float()?;
    Ok(End { point, advancement })
}
