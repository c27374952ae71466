// A triangle by its three corners, as the file has it.
use plane::vector::Point;

#[derive(Clone, Copy)]
pub struct Facet {
    pub a: Point,
    pub b: Point,
    pub c: Point,
}
