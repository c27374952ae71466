// The round empty cap (W-209): the square's four directions, normalized, and an arc from each to the next.
#![tactic(auto)]

ghost use Rattle.std.specs.Prelude.{true, ◌≡◌, ◌+◌, ◌≤◌, ◌<◌, length};
ghost use Rattle.endpoint.specs.Endpoint.{id_limit};
ghost use Rattle.lists.specs.Over.{over};
ghost use Rattle.pieces.specs.Piece.{flat_v, flat_s, lent, from, Fits, Lays, Passes};
ghost use Rattle.fans.specs.Weft.{WeftFits, WeftPasses};
ghost use Rattle.round_cap.specs.Cap.{corner_of, corners_from, pair_of, corner_vertices, square_piece, rim_of, half_weft, rim_weft, round_cap_piece};

use arc::{End, Hub, lay_arc};
use endpoint::{Endpoint, Side, VertexId, source_of, vertex_after};
use pieces::{Index, Place};
use plane::vector::{Point, normalize};
use vertices::cap::{put_cap_triangles, put_corner};

// The corners of the square, in its order.
#[derive(Clone, Copy)]
pub struct Corners {
    pub a: End,
    pub b: End,
    pub c: End,
    pub d: End,
}

// The normal of a corner is its direction, normalized.
#[tactic(auto, unfolding(crate::specs::Cap::corner_of))]
fn corner(vertex: VertexId, x: f32, y: f32) -> End
    ensures { result ≡ corner_of vertex x y }
{
    End {
        vertex,
        normal: normalize(Point { x, y }),
    }
}

// All four, whose vertices are numbered from base.
#[tactic(auto, unfolding(crate::specs::Cap::corners_from))]
fn corners_from(base: VertexId) -> Corners
    requires { base.0 + 4 ≤ id_limit }
    ensures { result ≡ corners_from base }
{
    Corners {
        a: corner(base, 1.0, 1.0),
        b: corner(vertex_after(base, 1), 1.0, -1.0),
        c: corner(vertex_after(base, 2), -1.0, -1.0),
        d: corner(vertex_after(base, 3), -1.0, 1.0),
    }
}

// Two corners, with their sides; an empty cap's advancement is 0.
fn put_pair(
    v: &mut [f32],
    src: &mut [u32],
    e: Endpoint,
    h: f32,
    first: Side,
    a: Point,
    second: Side,
    b: Point,
)
    requires { (10 ≤ length v.old) × (2 ≤ length src.old) × (e.id.0 < id_limit) }
    ensures v_after { v.new ≡ over (flat_v (pair_of e h first a second b)) v.old }
    ensures src_after { src.new ≡ over (flat_s (pair_of e h first a second b)) src.old }
{
    put_corner(v, src, e, h, 0.0, first, a.x, a.y);
    put_corner(&mut v[5..], &mut src[1..], e, h, 0.0, second, b.x, b.y);
}

// The four, with the square's sides. Two calls and no loop: of the four neither the sides nor the signs go by a rule of the number, so a loop would need a table.
fn put_corners(v: &mut [f32], src: &mut [u32], e: Endpoint, h: f32, q: Corners)
    requires { (20 ≤ length v.old) × (4 ≤ length src.old) × (e.id.0 < id_limit) }
    ensures v_after { v.new ≡ over (flat_v (corner_vertices e h q)) v.old }
    ensures src_after { src.new ≡ over (flat_s (corner_vertices e h q)) src.old }
{
    put_pair(
        v,
        src,
        e,
        h,
        Side::Negative,
        q.a.normal,
        Side::Positive,
        q.b.normal,
    );
    put_pair(
        &mut v[10..],
        &mut src[2..],
        e,
        h,
        Side::Positive,
        q.c.normal,
        Side::Negative,
        q.d.normal,
    );
}

// The square's vertices and triangles, at the start of the lists.
fn lay_square(
    v: &mut [f32],
    src: &mut [u32],
    t: &mut [Index],
    base: VertexId,
    e: Endpoint,
    h: f32,
    q: Corners,
) -> Place
    requires id_lt_id_limit { e.id.0 < id_limit }
    requires fits { Fits true (from base) (square_piece base e h q) (lent v.old src.old t.old) }
    ensures { Passes true (from base) (square_piece base e h q) (lent v.old src.old t.old) (lent v.new src.new t.new) result }
{
    put_corners(v, src, e, h, q);
    put_cap_triangles(t, base);
    Place {
        base,
        vertices: 4,
        triangles: 2,
    }
}

// What the vertices of an arc share whose first corner has this side.
#[tactic(auto, unfolding(crate::specs::Cap::rim_of))]
fn rim_of(e: Endpoint, h: f32, side: Side) -> Hub
    requires { e.id.0 < id_limit }
    ensures { result ≡ rim_of e h side }
{
    Hub {
        position: e.position,
        half_width: h,
        advancement: 0.0,
        source: source_of(e.id, side),
        ahead: Point { x: 1.0, y: 0.0 },
    }
}

// An arc from a to b, and one from b to c.
fn lay_half(
    v: &mut [f32],
    src: &mut [u32],
    t: &mut [Index],
    k: Place,
    first: Hub,
    second: Hub,
    a: End,
    b: End,
    c: End,
    detail: u32,
) -> Place
    requires { WeftFits true k (half_weft detail first second a b c) (lent v.old src.old t.old) }
    ensures { WeftPasses true k (half_weft detail first second a b c) (lent v.old src.old t.old) (lent v.new src.new t.new) result }
{
    let between = lay_arc(v, src, t, k, first, a, b, detail);
    lay_arc(v, src, t, between, second, b, c, detail)
}

// The arcs from corner to corner, at a place. Two calls and no loop: each place is the last call's, and the two hubs change places.
fn lay_rim(
    v: &mut [f32],
    src: &mut [u32],
    t: &mut [Index],
    k: Place,
    e: Endpoint,
    h: f32,
    q: Corners,
    detail: u32,
) -> Place
    requires id_lt_id_limit { e.id.0 < id_limit }
    requires weft_fits { WeftFits true k (rim_weft detail e h q) (lent v.old src.old t.old) }
    ensures { WeftPasses true k (rim_weft detail e h q) (lent v.old src.old t.old) (lent v.new src.new t.new) result }
{
    let negative = rim_of(e, h, Side::Negative);
    let positive = rim_of(e, h, Side::Positive);
    let half = lay_half(v, src, t, k, negative, positive, q.a, q.b, q.c, detail);
    lay_half(v, src, t, half, positive, negative, q.c, q.d, q.a, detail)
}

// The cap at the start of the lists, its first vertex numbered base.
pub fn tessellate_empty_round_cap(
    v: &mut [f32],
    src: &mut [u32],
    t: &mut [Index],
    base: VertexId,
    e: Endpoint,
    h: f32,
    detail: u32,
)
    requires id_lt_id_limit { e.id.0 < id_limit }
    requires fits { Fits true (from base) (round_cap_piece detail base e h) (lent v.old src.old t.old) }
    ensures { Lays true (from base) (round_cap_piece detail base e h) (lent v.old src.old t.old) (lent v.new src.new t.new) }
{
    let q = corners_from(base);
    let k = lay_square(v, src, t, base, e, h, q);
    lay_rim(v, src, t, k, e, h, q, detail);
}
