// Endpoints as the joins see them: lyon's `EndpointData`, with what is optional there in cases.
#![tactic(auto)]

ghost use Rattle.std.specs.Prelude.{◌≡◌, ◌+◌, ◌<◌};
ghost use Rattle.endpoint.specs.Endpoint.{id_limit, endpoint_after, vertex_after, blank_of, sign_of, source_of, single_of, pair_of, side_count_of};

use plane::vector::Point;

// Endpoints and vertices are counted apart. Any u32 is one: `window` and `join` take endpoints of any number, so the type bounds none and who writes vertices asks
// for the bound.
#[derive(Clone, Copy)]
pub struct EndpointId(pub u32);

#[derive(Clone, Copy)]
pub struct VertexId(pub u32);

// The endpoint that comes n behind another, and the vertex that does. Two functions, as there are two types:
// one for both would let the one number be taken for the other.
pub fn endpoint_after(first: EndpointId, n: usize) -> EndpointId
    requires { first.0 + n < id_limit }
    ensures { result ≡ endpoint_after first n }
{
    EndpointId(first.0 + n as u32)
}

pub fn vertex_after(base: VertexId, n: usize) -> VertexId
    requires { base.0 + n < id_limit }
    ensures { result ≡ vertex_after base n }
{
    VertexId(base.0 + n as u32)
}

// A begin's or a line's point with its number.
#[derive(Clone, Copy)]
pub struct Endpoint {
    pub position: Point,
    pub id: EndpointId,
}

#[derive(Clone, Copy)]
pub enum LineJoin {
    Miter,
    MiterClip,
    Bevel,
    Round,
}

// The numbers are the bit that a vertex's record has of its side.
#[derive(Clone, Copy)]
pub enum Side {
    Positive = 0,
    Negative = 1,
}

// One side of a join: its one point, or its first and its second.
#[derive(Clone, Copy)]
pub enum SidePoints {
    Single(f32, f32),
    Pair(f32, f32, f32, f32),
}

// Which sides of a join are inner joins. The source's one field keeps the last side worked, so it
// names the negative side where both are.
#[derive(Clone, Copy)]
pub enum InnerJoin {
    Neither,
    Positive,
    Negative,
    Both,
}

#[derive(Clone, Copy)]
pub struct EndpointData {
    pub position: Point,
    pub half_width: f32,
    pub advancement: f32,
    pub line_join: LineJoin,
    pub id: EndpointId,
    pub positive: SidePoints,
    pub negative: SidePoints,
    pub fold_positive: bool,
    pub fold_negative: bool,
    pub inner_join: InnerJoin,
}

// An endpoint of zeros: Miter, both sides Single, no fold.
pub fn blank() -> EndpointData
    ensures { result ≡ blank_of }
{
    EndpointData {
        position: Point { x: 0.0, y: 0.0 },
        half_width: 0.0,
        advancement: 0.0,
        line_join: LineJoin::Miter,
        id: EndpointId(0),
        positive: SidePoints::Single(0.0, 0.0),
        negative: SidePoints::Single(0.0, 0.0),
        fold_positive: false,
        fold_negative: false,
        inner_join: InnerJoin::Neither,
    }
}

pub fn side_sign(side: Side) -> f32
    ensures { result ≡ sign_of side }
{
    match side {
        Side::Positive => 1.0,
        Side::Negative => -1.0,
    }
}

#[tactic(auto, unfolding(crate::specs::Endpoint::single_of))]
pub fn single(p: Point) -> SidePoints
    ensures { result ≡ single_of p }
{
    SidePoints::Single(p.x, p.y)
}

#[tactic(auto, unfolding(crate::specs::Endpoint::pair_of))]
pub fn pair(p: Point, q: Point) -> SidePoints
    ensures { result ≡ pair_of p q }
{
    SidePoints::Pair(p.x, p.y, q.x, q.y)
}

// What the record of a vertex says: the endpoint and the side that it came from.
pub fn source_of(id: EndpointId, side: Side) -> u32
    requires { id.0 < id_limit }
    ensures { result ≡ source_of id side }
{
    2 * id.0 + side as u32
}

// How many vertices a side has.
pub fn side_count(s: SidePoints) -> usize
    ensures { result ≡ side_count_of s }
{
    match s {
        SidePoints::Single(_, _) => 1,
        SidePoints::Pair(_, _, _, _) => 2,
    }
}
