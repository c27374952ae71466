// Rule 8: lyon's `add_join_base_vertices`.
ghost use Rattle.std.specs.Prelude.{◌≡◌, ◌*◌, ◌≤◌, ◌<◌, length};
ghost use Rattle.endpoint.specs.Endpoint.{id_limit, side_count_of};
ghost use Rattle.lists.specs.Over.{over};
ghost use Rattle.pieces.specs.Piece.{floats_of, sources_of, flat_v, flat_s};
ghost use Rattle.vertices.specs.Base.{base_vertex_of, side_points_of, side_vertices_of, base_vertices_of};

use crate::list::put_vertex;
use endpoint::{EndpointData, Side, SidePoints, source_of};
use plane::vector::Point;

// The vertex of a point beside e: its normal is (point - position)/h, its place position + normal*h.
#[tactic(auto, unfolding(crate::specs::Base::base_vertex_of))]
fn put_base_vertex(v: &mut [f32], src: &mut [u32], e: EndpointData, side: Side, x: f32, y: f32)
    requires { (5 ≤ length v.old) × (1 ≤ length src.old) × (e.id.0 < id_limit) }
    ensures v_after { v.new ≡ over (floats_of (base_vertex_of e side x y)) v.old }
    ensures src_after { src.new ≡ over (sources_of (base_vertex_of e side x y)) src.old }
{
    let point = Point { x, y };
    let normal = (point - e.position) / e.half_width;
    let place = e.position + normal * e.half_width;
    let source = source_of(e.id, side);
    put_vertex(v, src, place, normal, e.advancement, source);
}

// A side's vertices: the one point's, or the first's and then the second's.
fn put_side(v: &mut [f32], src: &mut [u32], e: EndpointData, side: Side, points: SidePoints)
    requires { (5 * side_count_of points ≤ length v.old) × (side_count_of points ≤ length src.old) × (e.id.0 < id_limit) }
    ensures v_after { v.new ≡ over (flat_v (side_vertices_of e side points)) v.old }
    ensures src_after { src.new ≡ over (flat_s (side_vertices_of e side points)) src.old }
{
    match points {
        SidePoints::Single(x, y) => put_base_vertex(v, src, e, side, x, y),
        SidePoints::Pair(x0, y0, x1, y1) => {
            put_base_vertex(v, src, e, side, x0, y0);
            put_base_vertex(&mut v[5..], &mut src[1..], e, side, x1, y1);
        }
    }
}

// The points of a side.
pub fn side_points(e: EndpointData, side: Side) -> SidePoints
    ensures { result ≡ side_points_of e side }
{
    match side {
        Side::Positive => e.positive,
        Side::Negative => e.negative,
    }
}

// One side of a join.
pub fn add_join_base_vertices(v: &mut [f32], src: &mut [u32], join: EndpointData, side: Side)
    requires { (5 * side_count_of (side_points_of join side) ≤ length v.old) × (side_count_of (side_points_of join side) ≤ length src.old) × (join.id.0 < id_limit) }
    ensures v_after { v.new ≡ over (flat_v (base_vertices_of join side)) v.old }
    ensures src_after { src.new ≡ over (flat_s (base_vertices_of join side)) src.old }
{
    put_side(v, src, join, side, side_points(join, side));
}
