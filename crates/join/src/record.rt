// Both sides of a join, and the record of its endpoint: it goes in by value and comes back with its sides set.
ghost use Rattle.std.specs.Prelude.{◌≡◌};
ghost use Rattle.join.specs.Record.{turn_of, inner_join_of, worked_of, side_positions_of, counts_of};

use crate::edge::Edge;
use crate::side::{JoinSide, Turn, corner_of, decide, join_side, kind_count};
use endpoint::{EndpointData, InnerJoin, Side, side_count};

// prev and next are the advancements of the endpoints before and after a join: as in the source, an edge is as long as its ends'
// advancements differ.
#[tactic(auto, unfolding(crate::specs::Record::turn_of))]
fn turn_of(before: Edge, join: EndpointData, after: Edge, prev: f32, next: f32, limit: f32) -> Turn
    ensures { result ≡ turn_of before join after prev next limit }
{
    Turn {
        position: join.position,
        half_width: join.half_width,
        limit,
        before: join.advancement - prev,
        after: next - join.advancement,
        along: before.t + after.t,
        line_join: join.line_join,
    }
}

// Which sides are inner joins.
#[tactic(auto, unfolding(crate::specs::Record::inner_join_of))]
fn inner_join_of(positive: bool, negative: bool) -> InnerJoin
    ensures { result ≡ inner_join_of positive negative }
{
    match (positive, negative) {
        (true, true) => InnerJoin::Both,
        (true, false) => InnerJoin::Positive,
        (false, true) => InnerJoin::Negative,
        (false, false) => InnerJoin::Neither,
    }
}

// The record with its sides set.
fn worked(join: EndpointData, p: JoinSide, n: JoinSide) -> EndpointData
    ensures { result ≡ worked_of join p n }
{
    EndpointData {
        positive: p.points,
        negative: n.points,
        fold_positive: p.fold,
        fold_negative: n.fold,
        inner_join: inner_join_of(p.inner, n.inner),
        ..join
    }
}

// lyon's `compute_join_side_positions`, for both sides: each is decided and worked. A function of one side
// would be called and not copied in: a join took 59 instructions more.
#[tactic(auto, unfolding(crate::specs::Record::side_positions_of))]
pub fn compute_join_side_positions(
    before: Edge,
    join: EndpointData,
    after: Edge,
    prev: f32,
    next: f32,
    limit: f32,
) -> EndpointData
    ensures { result ≡ side_positions_of before join after prev next limit }
{
    let e = turn_of(before, join, after, prev, next, limit);
    let (bp, ap) = (before.positive, after.positive);
    let (bn, an) = (before.negative, after.negative);
    let p = join_side(corner_of(bp, ap, Side::Positive), bp.to, ap.from, e);
    let n = join_side(corner_of(bn, an, Side::Negative), bn.to, an.from, e);
    worked(join, p, n)
}

// The same for the pass that weaves arcs in. What one place alone calls the compiler copies in there: so
// the pass along a strip keeps the whole of a point's work in one function, and a point of a stroke that
// is not round costs what it did (docs/SPEED.md).
#[tactic(auto, unfolding(crate::specs::Record::side_positions_of))]
pub fn rejoin(
    before: Edge,
    join: EndpointData,
    after: Edge,
    prev: f32,
    next: f32,
    limit: f32,
) -> EndpointData
    ensures { result ≡ side_positions_of before join after prev next limit }
{
    let e = turn_of(before, join, after, prev, next, limit);
    let (bp, ap) = (before.positive, after.positive);
    let (bn, an) = (before.negative, after.negative);
    let p = join_side(corner_of(bp, ap, Side::Positive), bp.to, ap.from, e);
    let n = join_side(corner_of(bn, an, Side::Negative), bn.to, an.from, e);
    worked(join, p, n)
}

// How many points the sides of a join have.
#[derive(Clone, Copy)]
pub struct Counts {
    pub positive: usize,
    pub negative: usize,
}

#[tactic(auto, unfolding(crate::specs::Record::counts_of))]
pub fn counts_of(e: EndpointData) -> Counts
    ensures { result ≡ counts_of e }
{
    Counts {
        positive: side_count(e.positive),
        negative: side_count(e.negative),
    }
}

// The same of a join that is decided and not worked.
pub fn count_join(
    before: Edge,
    join: EndpointData,
    after: Edge,
    prev: f32,
    next: f32,
    limit: f32,
) -> Counts
    ensures { result ≡ counts_of (side_positions_of before join after prev next limit) }
{
    let e = turn_of(before, join, after, prev, next, limit);
    let p = decide(
        corner_of(before.positive, after.positive, Side::Positive),
        e,
    );
    let n = decide(
        corner_of(before.negative, after.negative, Side::Negative),
        e,
    );
    Counts {
        positive: kind_count(p.kind),
        negative: kind_count(n.kind),
    }
}
