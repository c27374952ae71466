// The empty square cap: lyon's `tessellate_empty_square_cap`.
ghost use Rattle.std.specs.Prelude.{◌≡◌, ◌+◌, ◌≤◌, ◌<◌, length};
ghost use Rattle.endpoint.specs.Endpoint.{id_limit};
ghost use Rattle.lists.specs.Over.{over};
ghost use Rattle.pieces.specs.Piece.{floats_of, sources_of, flat_v, flat_s, flat_t};
ghost use Rattle.vertices.specs.Cap.{cap_vertex_of, cap_pair_of, cap_vertices_of, cap_triangles_of};

use crate::list::{put_triangle, put_vertex};
use endpoint::{Endpoint, Side, VertexId, source_of, vertex_after};
use pieces::Index;
use plane::vector::Point;

// A corner: its normal is the direction itself, and its side the source's.
#[tactic(auto, unfolding(crate::specs::Cap::cap_vertex_of))]
pub fn put_corner(
    v: &mut [f32],
    src: &mut [u32],
    e: Endpoint,
    h: f32,
    a: f32,
    side: Side,
    x: f32,
    y: f32,
)
    requires { (5 ≤ length v.old) × (1 ≤ length src.old) × (e.id.0 < id_limit) }
    ensures v_after { v.new ≡ over (floats_of (cap_vertex_of e h a side x y)) v.old }
    ensures src_after { src.new ≡ over (sources_of (cap_vertex_of e h a side x y)) src.old }
{
    let normal = Point { x, y };
    let place = e.position + normal * h;
    put_vertex(v, src, place, normal, a, source_of(e.id, side));
}

// The corners (x, x) and (x, -x), with their sides.
fn put_corner_pair(
    v: &mut [f32],
    src: &mut [u32],
    e: Endpoint,
    h: f32,
    a: f32,
    x: f32,
    first: Side,
    second: Side,
)
    requires { (10 ≤ length v.old) × (2 ≤ length src.old) × (e.id.0 < id_limit) }
    ensures v_after { v.new ≡ over (flat_v (cap_pair_of e h a x first second)) v.old }
    ensures src_after { src.new ≡ over (flat_s (cap_pair_of e h a x first second)) src.old }
{
    put_corner(v, src, e, h, a, first, x, x);
    put_corner(&mut v[5..], &mut src[1..], e, h, a, second, x, -x);
}

fn put_corners(v: &mut [f32], src: &mut [u32], e: Endpoint, h: f32, a: f32)
    requires { (20 ≤ length v.old) × (4 ≤ length src.old) × (e.id.0 < id_limit) }
    ensures v_after { v.new ≡ over (flat_v (cap_vertices_of e h a)) v.old }
    ensures src_after { src.new ≡ over (flat_s (cap_vertices_of e h a)) src.old }
{
    put_corner_pair(v, src, e, h, a, 1.0, Side::Negative, Side::Positive);
    put_corner_pair(
        &mut v[10..],
        &mut src[2..],
        e,
        h,
        a,
        -1.0,
        Side::Positive,
        Side::Negative,
    );
}

// (a, b, c) and (a, c, d), where a has the number base.
pub fn put_cap_triangles(t: &mut [Index], base: VertexId)
    requires { (6 ≤ length t.old) × (base.0 + 4 ≤ id_limit) }
    ensures { t.new ≡ over (flat_t (cap_triangles_of base)) t.old }
{
    let c = vertex_after(base, 2);
    put_triangle(t, base, vertex_after(base, 1), c);
    put_triangle(&mut t[3..], base, c, vertex_after(base, 3));
}

// Four vertices, numbered from base, and two triangles.
pub fn tessellate_empty_square_cap(
    v: &mut [f32],
    src: &mut [u32],
    t: &mut [Index],
    base: VertexId,
    e: Endpoint,
    h: f32,
    a: f32,
)
    requires in_bounds { (20 ≤ length v.old) × (4 ≤ length src.old) × (6 ≤ length t.old) }
    requires base_bound { (base.0 + 4 ≤ id_limit) × (e.id.0 < id_limit) }
    ensures v_after { v.new ≡ over (flat_v (cap_vertices_of e h a)) v.old }
    ensures src_after { src.new ≡ over (flat_s (cap_vertices_of e h a)) src.old }
    ensures t_after { t.new ≡ over (flat_t (cap_triangles_of base)) t.old }
{
    put_corners(v, src, e, h, a);
    put_cap_triangles(t, base);
}
