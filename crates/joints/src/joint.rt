// Rules 5 and 7: the joints of a run. A cap is a joint with two Single sides.
ghost use Rattle.std.specs.Prelude.{◌≡◌};
ghost use Rattle.join.specs.Record.{counts_of};
ghost use Rattle.joints.specs.Joint.{data_of, unworked_of, cap_of, start_cap_of, end_cap_of, joint_of};

use crate::leg::Leg;
use endpoint::{Endpoint, EndpointData, InnerJoin, SidePoints, single};
use join::record::{Counts, compute_join_side_positions, count_join, rejoin};
use options::Stroke;
use plane::vector::{Point, negated, plus, times};

// An endpoint with its advancement and its sides.
#[tactic(auto, unfolding(crate::specs::Joint::data_of))]
fn data_of(
    o: Stroke,
    p: Endpoint,
    a: f32,
    positive: SidePoints,
    negative: SidePoints,
) -> EndpointData
    ensures { result ≡ data_of o p a positive negative }
{
    EndpointData {
        position: p.position,
        half_width: o.half_width,
        advancement: a,
        line_join: o.line_join,
        id: p.id,
        positive,
        negative,
        fold_positive: false,
        fold_negative: false,
        inner_join: InnerJoin::Neither,
    }
}

// The endpoint where a leg ends, before its sides are worked.
#[tactic(auto, unfolding(crate::specs::Joint::unworked_of))]
fn unworked(o: Stroke, leg: Leg) -> EndpointData
    ensures { result ≡ unworked_of o leg }
{
    let none = single(leg.to.position);
    data_of(o, leg.to, leg.end, none, none)
}

// The join where one leg ends and the next begins.
#[tactic(auto, unfolding(crate::specs::Joint::joint_of))]
pub fn joint_of(o: Stroke, leg: Leg, next: Leg) -> EndpointData
    ensures { result ≡ joint_of o leg next }
{
    compute_join_side_positions(
        leg.edge,
        unworked(o, leg),
        next.edge,
        leg.start,
        next.end,
        o.miter_limit,
    )
}

// The same for the pass that weaves arcs in. Not one function: what two places call the compiler copies into neither, 118 instructions a point (docs/SPEED.md).
#[tactic(auto, unfolding(crate::specs::Joint::joint_of))]
pub fn joint_again(o: Stroke, leg: Leg, next: Leg) -> EndpointData
    ensures { result ≡ joint_of o leg next }
{
    rejoin(
        leg.edge,
        unworked(o, leg),
        next.edge,
        leg.start,
        next.end,
        o.miter_limit,
    )
}

// How many points its sides have; none is worked.
#[tactic(auto, unfolding(crate::specs::Joint::joint_of))]
pub fn joint_counts(o: Stroke, leg: Leg, next: Leg) -> Counts
    ensures { result ≡ counts_of (joint_of o leg next) }
{
    count_join(
        leg.edge,
        unworked(o, leg),
        next.edge,
        leg.start,
        next.end,
        o.miter_limit,
    )
}

// The two side points at p, each moved outward by the clip.
#[tactic(auto, unfolding(crate::specs::Joint::cap_of))]
fn cap(
    o: Stroke,
    p: Endpoint,
    a: f32,
    positive: Point,
    negative: Point,
    outward: Point,
) -> EndpointData
    ensures { result ≡ cap_of o p a positive negative outward }
{
    let out = times(outward, o.clip);
    data_of(
        o,
        p,
        a,
        single(plus(positive, out)),
        single(plus(negative, out)),
    )
}

#[tactic(auto, unfolding(crate::specs::Joint::start_cap_of))]
pub fn start_cap(o: Stroke, leg: Leg) -> EndpointData
    ensures { result ≡ start_cap_of o leg }
{
    let edge = leg.edge;
    cap(
        o,
        leg.from,
        leg.start,
        edge.positive.from,
        edge.negative.from,
        negated(edge.t),
    )
}

#[tactic(auto, unfolding(crate::specs::Joint::end_cap_of))]
pub fn end_cap(o: Stroke, leg: Leg) -> EndpointData
    ensures { result ≡ end_cap_of o leg }
{
    let edge = leg.edge;
    cap(
        o,
        leg.to,
        leg.end,
        edge.positive.to,
        edge.negative.to,
        edge.t,
    )
}
