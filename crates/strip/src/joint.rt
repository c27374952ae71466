// Rule 8: a joint's vertices, the positive side's and then the negative side's.
ghost use Rattle.std.specs.Prelude.{◌≡◌, ◌*◌, ◌≤◌, ◌<◌, length};
ghost use Rattle.endpoint.specs.Endpoint.{id_limit, side_count_of};
ghost use Rattle.lists.specs.Over.{over};
ghost use Rattle.pieces.specs.Piece.{flat_v, flat_s};
ghost use Rattle.strip.specs.Joint.{joint_count, joint_vertices_of};

use endpoint::{EndpointData, Side, side_count};
use vertices::base::add_join_base_vertices;

// How many vertices a joint has on each side.
pub fn positive_count(j: EndpointData) -> usize
    ensures { result ≡ side_count_of j.positive }
{
    side_count(j.positive)
}

pub fn negative_count(j: EndpointData) -> usize
    ensures { result ≡ side_count_of j.negative }
{
    side_count(j.negative)
}

// Both sides' vertices.
pub fn put_vertices(v: &mut [f32], src: &mut [u32], j: EndpointData)
    requires { (5 * joint_count j ≤ length v.old) × (joint_count j ≤ length src.old) × (j.id.0 < id_limit) }
    ensures v_after { v.new ≡ over (flat_v (joint_vertices_of j)) v.old }
    ensures src_after { src.new ≡ over (flat_s (joint_vertices_of j)) src.old }
{
    add_join_base_vertices(v, src, j, Side::Positive);
    let n = positive_count(j);
    let at = 5 * n;
    add_join_base_vertices(&mut v[at..], &mut src[n..], j, Side::Negative);
}
