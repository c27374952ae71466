// An arc about a centre (W-209): its middle, then the same of both halves.
#![tactic(auto)]

ghost use Rattle.std.specs.Prelude.{true, ◌≡◌, ◌≤◌, length};
ghost use Rattle.lists.specs.Over.{over};
ghost use Rattle.pieces.specs.Piece.{floats_of, sources_of, next_vertex, lent, Fits, Passes};
ghost use Rattle.triangles.specs.Tri.{numbers_of};
ghost use Rattle.vertices.specs.Vertex.{triangle_of};
ghost use Rattle.arc.specs.Arc.{middle_of, arc_vertex_of, middle_piece, arc_piece, cap_piece};

use endpoint::VertexId;
use pieces::{Index, Place, next_vertex};
use plane::vector::{Point, normalize, square_length};
use vertices::list::{put_triangle, put_vertex};

// What the vertices of an arc share: their centre, the half width, the centre's advancement, their record, and the direction that stands in where two are
// as good as opposite.
#[derive(Clone, Copy)]
pub struct Hub {
    pub position: Point,
    pub half_width: f32,
    pub advancement: f32,
    pub source: u32,
    pub ahead: Point,
}

// Where an arc begins or ends: a vertex and its normal.
#[derive(Clone, Copy)]
pub struct End {
    pub vertex: VertexId,
    pub normal: Point,
}

// The middle of two directions.
#[tactic(auto, unfolding(crate::specs::Arc::middle_of))]
pub fn middle(ahead: Point, a: Point, b: Point) -> Point
    ensures { result ≡ middle_of ahead a b }
{
    let sum = a + b;
    if square_length(sum) < 0.0001 {
        return ahead;
    }
    normalize(sum)
}

// The vertex in the direction m, with the triangle that it makes of both ends.
#[tactic(auto, unfolding(crate::specs::Arc::arc_vertex_of))]
fn put_middle(
    v: &mut [f32],
    src: &mut [u32],
    t: &mut [Index],
    hub: Hub,
    a: VertexId,
    mid: End,
    b: VertexId,
)
    requires { (5 ≤ length v.old) × (1 ≤ length src.old) × (3 ≤ length t.old) }
    ensures v_after { v.new ≡ over (floats_of (arc_vertex_of hub mid.normal)) v.old }
    ensures src_after { src.new ≡ over (sources_of (arc_vertex_of hub mid.normal)) src.old }
    ensures t_after { t.new ≡ over (numbers_of (triangle_of a mid.vertex b)) t.old }
{
    let place = hub.position + mid.normal * hub.half_width;
    put_vertex(v, src, place, mid.normal, hub.advancement, hub.source);
    put_triangle(t, a, mid.vertex, b);
}

// The same at a place, which is the number of mid.
pub fn lay_middle(
    v: &mut [f32],
    src: &mut [u32],
    t: &mut [Index],
    k: Place,
    hub: Hub,
    a: End,
    b: End,
    mid: End,
) -> Place
    requires vertex_value { mid.vertex.0 ≡ next_vertex k }
    requires fits { Fits true k (middle_piece hub (next_vertex k) a b mid.normal) (lent v.old src.old t.old) }
    ensures { Passes true k (middle_piece hub (next_vertex k) a b mid.normal) (lent v.old src.old t.old) (lent v.new src.new t.new) result }
{
    let n = k.vertices;
    let at = 5 * n;
    let to = 3 * k.triangles;
    put_middle(
        &mut v[at..],
        &mut src[n..],
        &mut t[to..],
        hub,
        a.vertex,
        mid,
        b.vertex,
    );
    Place {
        vertices: n + 1,
        triangles: k.triangles + 1,
        ..k
    }
}

// An arc of so many levels from a to b, at a place: its middle, then the first half and the second.
pub fn lay_arc(
    v: &mut [f32],
    src: &mut [u32],
    t: &mut [Index],
    k: Place,
    hub: Hub,
    a: End,
    b: End,
    level: u32,
) -> Place
    requires { Fits true k (arc_piece level hub (next_vertex k) a b) (lent v.old src.old t.old) }
    ensures { Passes true k (arc_piece level hub (next_vertex k) a b) (lent v.old src.old t.old) (lent v.new src.new t.new) result }
{
    if level == 0 {
        return k;
    }
    let mid = End {
        vertex: next_vertex(k),
        normal: middle(hub.ahead, a.normal, b.normal),
    };
    let first = lay_middle(v, src, t, k, hub, a, b, mid);
    let second = lay_arc(v, src, t, first, hub, a, mid, level - 1);
    lay_arc(v, src, t, second, hub, mid, b, level - 1)
}

// A round cap: cut by the direction ahead, then an arc to it, whose record is source, and one from it.
pub fn lay_cap(
    v: &mut [f32],
    src: &mut [u32],
    t: &mut [Index],
    k: Place,
    hub: Hub,
    source: u32,
    a: End,
    b: End,
    level: u32,
) -> Place
    requires { Fits true k (cap_piece level hub source (next_vertex k) a b) (lent v.old src.old t.old) }
    ensures { Passes true k (cap_piece level hub source (next_vertex k) a b) (lent v.old src.old t.old) (lent v.new src.new t.new) result }
{
    let mid = End {
        vertex: next_vertex(k),
        normal: hub.ahead,
    };
    let near = Hub { source, ..hub };
    let first = lay_middle(v, src, t, k, hub, a, b, mid);
    let second = lay_arc(v, src, t, first, near, a, mid, level);
    lay_arc(v, src, t, second, hub, mid, b, level)
}
