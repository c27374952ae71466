// Rule 5: one side of a join, by the branches of lyon's `compute_join_side_positions`. What is decided comes first, since it is all that
// a count needs; the points follow from it.
ghost use Rattle.std.specs.Prelude.{◌≡◌};
ghost use Rattle.join.specs.Side.{is_miter, is_clip, corner_of, inward_of, past_of, overshoots_of, folded_of, folds_of, exceeded_of, tip_of, kind_of, decided_of, kind_count_of, tip_point_of, clipped_pair_of, points_of, is_inner, join_side_of};

use crate::clip::{cut_direction, get_clip_intersections, is_zero};
use crate::edge::EdgeSide;
use endpoint::{LineJoin, Side, SidePoints, pair, side_sign, single};
use plane::normal::join_normal;
use plane::vector::{Point, cross, dot, square_length};

// What both sides of a join see: its position, the half width, the limit, the lengths of the edges before and after it, the sum of their
// directions, and its kind.
#[derive(Clone, Copy)]
pub struct Turn {
    pub position: Point,
    pub half_width: f32,
    pub limit: f32,
    pub before: f32,
    pub after: f32,
    pub along: Point,
    pub line_join: LineJoin,
}

// What one side sees: the directions of its edges, and the normal between them.
#[derive(Clone, Copy)]
pub struct Corner {
    pub v0: Point,
    pub v1: Point,
    pub normal: Point,
    pub side: Side,
}

// Which of the source's branches a side takes: a single point, an inner join, points cut off at the limit, or the points beside the join. In this order a concave side's
// kind is whether it overshoots, and `decide` is just small enough to be inlined.
#[derive(Clone, Copy)]
pub enum Kind {
    Single,
    Inner,
    Clipped,
    Beside,
}

// A side once it is decided.
#[derive(Clone, Copy)]
pub struct Decided {
    pub kind: Kind,
    pub fold: bool,
}

// A side once it is worked: its points, whether it folds, and whether it is an inner join.
#[derive(Clone, Copy)]
pub struct JoinSide {
    pub points: SidePoints,
    pub fold: bool,
    pub inner: bool,
}

fn is_miter(j: LineJoin) -> bool
    ensures { result ≡ is_miter j }
{
    matches!(j, LineJoin::Miter | LineJoin::MiterClip)
}

fn is_clip(j: LineJoin) -> bool
    ensures { result ≡ is_clip j }
{
    matches!(j, LineJoin::MiterClip)
}

// The corner that a side's edges before and after the join make.
#[tactic(auto, unfolding(crate::specs::Side::corner_of))]
pub fn corner_of(before: EdgeSide, after: EdgeSide, side: Side) -> Corner
    ensures { result ≡ corner_of before after side }
{
    // Read once each: with `before.v` read again for the normal a join took 50 instructions more.
    let v0 = before.v;
    let v1 = after.v;
    Corner {
        v0,
        v1,
        normal: join_normal(v0, v1) * side_sign(side),
        side,
    }
}

// Whether the side lies inward of the turn, its normal on the side of the path's directions.
#[tactic(auto, unfolding(crate::specs::Side::inward_of))]
fn is_inward(c: Corner, e: Turn) -> bool
    ensures { result ≡ inward_of c e }
{
    cross(c.v0, c.v1) * side_sign(c.side) > 0.0 && dot(c.v0 + c.v1, e.along) >= 0.0
}

// Whether the back vertex ends up further along both edges than their other ends.
fn is_past(c: Corner, e: Turn) -> bool
    ensures { result ≡ past_of c e }
{
    let extruded = c.normal * e.half_width;
    let d_next = dot(extruded, c.v1) - e.after;
    let d_prev = dot(extruded, -c.v0) - e.before;
    d_next.min(d_prev) > 0.0
}

#[tactic(auto, unfolding(crate::specs::Side::overshoots_of))]
fn overshoots(inward: bool, c: Corner, e: Turn) -> bool
    ensures { result ≡ overshoots_of inward c e }
{
    inward && is_past(c, e)
}

// Whether an inward side folds, so that no back vertex makes a spike outside of the stripe.
#[tactic(auto, unfolding(crate::specs::Side::folded_of))]
fn is_folded(overshoots: bool, c: Corner) -> bool
    ensures { result ≡ folded_of overshoots c }
{
    !(dot(c.v0, c.v1) > 0.0) && (overshoots || square_length(c.normal) < 0.00001)
}

#[tactic(auto, unfolding(crate::specs::Side::folds_of))]
fn folds(inward: bool, overshoots: bool, c: Corner) -> bool
    ensures { result ≡ folds_of inward overshoots c }
{
    inward && is_folded(overshoots, c)
}

// A zero normal is beyond every limit.
#[tactic(auto, unfolding(crate::specs::Side::exceeded_of, crate::specs::Side::too_long))]
fn miter_limit_is_exceeded(normal: Point, limit: f32) -> bool
    ensures { result ≡ exceeded_of normal limit }
{
    is_zero(normal) || square_length(normal) > limit * limit
}

// Whether the side's tip is within the limit.
#[tactic(auto, unfolding(crate::specs::Side::tip_of))]
fn has_tip(normal: Point, e: Turn) -> bool
    ensures { result ≡ tip_of normal e }
{
    is_miter(e.line_join) && !miter_limit_is_exceeded(normal, e.limit)
}

// A concave side has a single point unless it overshoots, any other where its tip is within the limit.
#[tactic(auto, unfolding(crate::specs::Side::kind_of))]
fn kind_of(concave: bool, overshoots: bool, normal: Point, e: Turn) -> Kind
    ensures { result ≡ kind_of concave overshoots normal e }
{
    if concave {
        if overshoots {
            Kind::Inner
        } else {
            Kind::Single
        }
    } else if has_tip(normal, e) {
        Kind::Single
    } else if is_clip(e.line_join) {
        Kind::Clipped
    } else {
        Kind::Beside
    }
}

#[tactic(auto, unfolding(crate::specs::Side::decided_of))]
pub fn decide(c: Corner, e: Turn) -> Decided
    ensures { result ≡ decided_of c e }
{
    let inward = is_inward(c, e);
    let back = overshoots(inward, c, e);
    let fold = folds(inward, back, c);
    Decided {
        kind: kind_of(inward && !fold, back, c.normal, e),
        fold,
    }
}

// How many points a side has.
pub fn kind_count(k: Kind) -> usize
    ensures { result ≡ kind_count_of k }
{
    match k {
        Kind::Single => 1,
        Kind::Inner | Kind::Clipped | Kind::Beside => 2,
    }
}

// The single point: the end of the normal.
#[tactic(auto, unfolding(crate::specs::Side::tip_point_of))]
fn tip_point(normal: Point, e: Turn) -> SidePoints
    ensures { result ≡ tip_point_of normal e }
{
    single(e.position + normal * e.half_width)
}

// The points beside the join, cut off at the limit.
#[tactic(auto, unfolding(crate::specs::Side::clipped_pair_of))]
fn clipped_pair(prev: Point, next: Point, c: Corner, e: Turn) -> SidePoints
    ensures { result ≡ clipped_pair_of prev next c e }
{
    let u = cut_direction(c.v0, c.normal);
    let n0 = prev - e.position;
    let n1 = next - e.position;
    let cut = get_clip_intersections(n0, n1, u, e.limit * e.half_width);
    pair(e.position + cut.prev, e.position + cut.next)
}

fn points_of(k: Kind, prev: Point, next: Point, c: Corner, e: Turn) -> SidePoints
    ensures { result ≡ points_of k prev next c e }
{
    match k {
        Kind::Single => tip_point(c.normal, e),
        Kind::Clipped => clipped_pair(prev, next, c, e),
        Kind::Inner | Kind::Beside => pair(prev, next),
    }
}

fn is_inner(k: Kind) -> bool
    ensures { result ≡ is_inner k }
{
    matches!(k, Kind::Inner)
}

// One side of a join, from its corner and the points beside the join on its edges.
#[tactic(auto, unfolding(crate::specs::Side::join_side_of))]
pub fn join_side(c: Corner, prev: Point, next: Point, e: Turn) -> JoinSide
    ensures { result ≡ join_side_of c prev next e }
{
    let d = decide(c, e);
    JoinSide {
        points: points_of(d.kind, prev, next, c, e),
        fold: d.fold,
        inner: is_inner(d.kind),
    }
}
