// What is drawn about one joint of a round run (W-209): the arcs of its sides, and the fan of a cap.
#![tactic(auto)]

ghost use Rattle.std.specs.Prelude.{true, ◌≡◌, ◌+◌, ◌<◌, ◌≤◌};
ghost use Rattle.endpoint.specs.Endpoint.{id_limit};
ghost use Rattle.pieces.specs.Piece.{lent};
ghost use Rattle.fans.specs.Weft.{WeftFits, WeftPasses};
ghost use Rattle.fans.specs.Fans.{normal_at, first_normal, last_normal, hub_of, is_pair, is_inner, folds_at, gets_arc, side_weft, cap_end, start_fan, end_fan, arc_size, fan_size};

use arc::{End, Hub, lay_arc, lay_cap};
use endpoint::{EndpointData, InnerJoin, Side, SidePoints, VertexId, source_of, vertex_after};
use pieces::{Index, Place};
use plane::vector::Point;
use vertices::base::side_points;

// What of a stroke is round, and how deep its arcs go: 6 levels at most. The type says no bound, since `round_of` of specs/ builds it and would hold a proof.
#[derive(Clone, Copy)]
pub struct Round {
    pub joins: bool,
    pub caps: bool,
    pub detail: u32,
}

// Rule 8's normal of a point beside e.
#[tactic(auto, unfolding(crate::specs::Fans::normal_at))]
fn normal_at(e: EndpointData, x: f32, y: f32) -> Point
    ensures { result ≡ normal_at e x y }
{
    (Point { x, y } - e.position) / e.half_width
}

// That of a side's first vertex, and of its last: a function to each definition, and what they share is `normal_at`.
#[tactic(auto, unfolding(crate::specs::Fans::first_normal))]
fn first_normal(e: EndpointData, p: SidePoints) -> Point
    ensures { result ≡ first_normal e p }
{
    match p {
        SidePoints::Single(x, y) | SidePoints::Pair(x, y, _, _) => normal_at(e, x, y),
    }
}

#[tactic(auto, unfolding(crate::specs::Fans::last_normal))]
fn last_normal(e: EndpointData, p: SidePoints) -> Point
    ensures { result ≡ last_normal e p }
{
    match p {
        SidePoints::Single(x, y) | SidePoints::Pair(_, _, x, y) => normal_at(e, x, y),
    }
}

// What the vertices about e share whose arc begins on a side.
#[tactic(auto, unfolding(crate::specs::Fans::hub_of))]
fn hub_of(e: EndpointData, side: Side, ahead: Point) -> Hub
    requires { e.id.0 < id_limit }
    ensures { result ≡ hub_of e side ahead }
{
    Hub {
        position: e.position,
        half_width: e.half_width,
        advancement: e.advancement,
        source: source_of(e.id, side),
        ahead,
    }
}

fn is_pair(p: SidePoints) -> bool
    ensures { result ≡ is_pair p }
{
    matches!(p, SidePoints::Pair(..))
}

// Whether a side is an inner join, and whether it is a fold.
fn is_inner(side: Side, i: InnerJoin) -> bool
    ensures { result ≡ is_inner side i }
{
    match side {
        Side::Positive => matches!(i, InnerJoin::Positive | InnerJoin::Both),
        Side::Negative => matches!(i, InnerJoin::Negative | InnerJoin::Both),
    }
}

fn folds_at(e: EndpointData, side: Side) -> bool
    ensures { result ≡ folds_at e side }
{
    match side {
        Side::Positive => e.fold_positive,
        Side::Negative => e.fold_negative,
    }
}

// Whether a side gets an arc, where joins are round.
#[tactic(auto, unfolding(crate::specs::Fans::gets_arc))]
pub fn gets_arc(round: bool, e: EndpointData, side: Side) -> bool
    ensures { result ≡ gets_arc round e side }
{
    round && is_pair(side_points(e, side)) && !is_inner(side, e.inner_join) && !folds_at(e, side)
}

// The arc of a side where it gets one, from its first vertex, which has the number first.
pub fn lay_side(
    v: &mut [f32],
    src: &mut [u32],
    t: &mut [Index],
    k: Place,
    e: EndpointData,
    side: Side,
    first: VertexId,
    ahead: Point,
    r: Round,
) -> Place
    requires first_bound { (first.0 + 1 < id_limit) × (e.id.0 < id_limit) }
    requires weft_fits { WeftFits true k (side_weft r e side first ahead) (lent v.old src.old t.old) }
    ensures { WeftPasses true k (side_weft r e side first ahead) (lent v.old src.old t.old) (lent v.new src.new t.new) result }
{
    if gets_arc(r.joins, e, side) {
        let points = side_points(e, side);
        let a = End {
            vertex: first,
            normal: first_normal(e, points),
        };
        let b = End {
            vertex: vertex_after(first, 1),
            normal: last_normal(e, points),
        };
        let hub = hub_of(e, side, ahead);
        return lay_arc(v, src, t, k, hub, a, b, r.detail);
    }
    k
}

// A cap's vertex of a side, and its normal.
fn cap_end(e: EndpointData, side: Side, vertex: VertexId) -> End
    ensures { result ≡ cap_end e side vertex }
{
    let points = side_points(e, side);
    End {
        vertex,
        normal: first_normal(e, points),
    }
}

// The fan of a start cap, whose vertices have the numbers n and p: from its negative vertex. That of an end
// cap is a function of its own: one for both would be given each side and its vertex twice.
pub fn lay_start_fan(
    v: &mut [f32],
    src: &mut [u32],
    t: &mut [Index],
    k: Place,
    e: EndpointData,
    n: VertexId,
    p: VertexId,
    outward: Point,
    level: u32,
) -> Place
    requires id_lt_id_limit { e.id.0 < id_limit }
    requires weft_fits { WeftFits true k (start_fan level e n p outward) (lent v.old src.old t.old) }
    ensures { WeftPasses true k (start_fan level e n p outward) (lent v.old src.old t.old) (lent v.new src.new t.new) result }
{
    let hub = hub_of(e, Side::Positive, outward);
    let source = source_of(e.id, Side::Negative);
    let a = cap_end(e, Side::Negative, n);
    let b = cap_end(e, Side::Positive, p);
    lay_cap(v, src, t, k, hub, source, a, b, level)
}

// The fan of an end cap: from its positive vertex.
pub fn lay_end_fan(
    v: &mut [f32],
    src: &mut [u32],
    t: &mut [Index],
    k: Place,
    e: EndpointData,
    n: VertexId,
    p: VertexId,
    outward: Point,
    level: u32,
) -> Place
    requires id_lt_id_limit { e.id.0 < id_limit }
    requires weft_fits { WeftFits true k (end_fan level e n p outward) (lent v.old src.old t.old) }
    ensures { WeftPasses true k (end_fan level e n p outward) (lent v.old src.old t.old) (lent v.new src.new t.new) result }
{
    let hub = hub_of(e, Side::Positive, outward);
    let source = source_of(e.id, Side::Positive);
    let a = cap_end(e, Side::Positive, p);
    let b = cap_end(e, Side::Negative, n);
    lay_cap(v, src, t, k, hub, source, a, b, level)
}

// How many vertices an arc has, where it is there, and how many a fan.
pub fn arc_size(there: bool, level: u32) -> usize
    requires { level ≤ 6 }
    ensures { result ≡ arc_size there level }
{
    if there { (1 << level) - 1 } else { 0 }
}

pub fn fan_size(there: bool, level: u32) -> usize
    requires { level ≤ 6 }
    ensures { result ≡ fan_size there level }
{
    if there {
        2 * arc_size(true, level) + 1
    } else {
        0
    }
}
