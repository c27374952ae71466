// The options of a stroke, as a caller hands them over and as the rules use them: refusal 1 of document 01.
#![tactic(auto)]

ghost use Rattle.std.specs.Prelude.{◌≡◌, ◌&&◌, Ok, Err};
ghost use Rattle.refusals.specs.declared.Refusal.TheVariants.{OutOfRange};
ghost use Rattle.plane.specs.Normal.{pick};
ghost use Rattle.options.specs.Options.{within, width_in, limit_in, merge_in, detail_in, join_in, cap_in, line_join_of, line_cap_of, clip_of, no_stroke, stroke_of, stroke_answer_of, rounds_joins, rounds_caps, is_round, level_of};

use dashes::pattern::is_pattern;
use endpoint::LineJoin;
use refusals::{Meaning, Refusal, Verdict};

// What a caller may choose. An option outside its range is refused with 1. Join and cap are numbers and no enums, since C hands over any: `stroke_of` refuses
// what is none.
#[derive(Clone, Copy)]
pub struct Options {
    // The stripe's width, in the units of the coordinates: 1/256 to 16,384.
    pub width: f32,
    // How far the tip of a join may lie from its point, in half widths: 1 to 1,024.
    pub miter_limit: f32,
    // The shape of a corner: 0 Miter, a tip, or beyond the limit a Bevel; 1 MiterClip, a tip, or
    // beyond the limit one that is cut off there; 2 Bevel, the corner cut straight across; 3 Round,
    // an arc about the point. A path that runs back along itself is beyond every limit.
    pub line_join: u32,
    // The shape of both ends of an open run: 0 Butt, ending at the point; 1 Square, half a width
    // beyond it; 2 Round, a half circle about it.
    pub cap: u32,
    // A point nearer than this to the last one kept is merged with it: 1/128 to 1.
    pub merge_range: f32,
    // How fine arcs are, k: 0 to 6. The arc of a corner has 2^k - 1 vertices of its own.
    pub detail: u32,
    // How far into its dashes a lane begins: 0 to 32,768. Their lengths are lent beside the options.
    pub offset: f32,
}

#[derive(Clone, Copy)]
pub enum LineCap {
    Butt,
    Square,
    Round,
}

// All that the rules use of the options.
#[derive(Clone, Copy)]
pub struct Stroke {
    // The rules' h.
    pub half_width: f32,
    pub miter_limit: f32,
    pub line_join: LineJoin,
    pub cap: LineCap,
    // How far a cap stands out beyond its point.
    pub clip: f32,
    // Points whose squared distance is below this are near (rule 1): the merge range squared.
    pub near: f32,
    // The k of arcs.
    pub detail: u32,
    // How far into its dashes a run begins.
    pub offset: f32,
}

// What `stroke_of` says, in the terms of document 01's table, by number, as `stroke_answer_of` has it. A refusal has zeros, Miter and Butt.
#[derive(Clone, Copy)]
pub struct StrokeAnswer {
    pub number: u32,
    pub place: usize,
    pub stroke: Stroke,
}

// No NaN is within anything.
#[tactic(auto, unfolding(crate::specs::Options::within))]
fn is_within(low: f32, x: f32, high: f32) -> bool
    ensures { result ≡ within low x high }
{
    low <= x && x <= high
}

// All but the numbers of the join and the cap. The least width, 1/256, is 0.00390625; the least merge range, 1/128, is 0.0078125.
fn is_in_range(o: Options) -> bool
    ensures { result ≡ (width_in o.width && limit_in o.miter_limit && merge_in o.merge_range && detail_in o.detail) }
{
    is_within(0.00390625, o.width, 16384.0)
        && is_within(1.0, o.miter_limit, 1024.0)
        && is_within(0.0078125, o.merge_range, 1.0)
        && o.detail <= 6
}

// A function of its own: neither `TryFrom` nor `LineJoin` is this crate's.
#[tactic(auto, unfolding(crate::specs::Options::line_join_of))]
fn line_join_of(number: u32) -> Result<LineJoin, Refusal>
    ensures { result ≡ pick (join_in number) (Ok (line_join_of number)) (Err OutOfRange) }
{
    match number {
        0 => Ok(LineJoin::Miter),
        1 => Ok(LineJoin::MiterClip),
        2 => Ok(LineJoin::Bevel),
        3 => Ok(LineJoin::Round),
        _ => Err(Refusal::OutOfRange),
    }
}

impl TryFrom<u32> for LineCap {
    type Error = Refusal;

    ghost try_from_gives = { λ number r. r ≡ pick (cap_in number) (Ok (line_cap_of number)) (Err OutOfRange) };

    #[tactic(auto, unfolding(crate::specs::Options::line_cap_of))]
    fn try_from(number: u32) -> Result<LineCap, Refusal> {
        match number {
            0 => Ok(LineCap::Butt),
            1 => Ok(LineCap::Square),
            2 => Ok(LineCap::Round),
            _ => Err(Refusal::OutOfRange),
        }
    }
}

// Rule 7.
fn clip_of(cap: LineCap, h: f32) -> f32
    ensures { result ≡ clip_of cap h }
{
    match cap {
        LineCap::Butt => 0.0,
        LineCap::Square => h,
        LineCap::Round => 0.0,
    }
}

// lengths has those of the dashes; an empty list means no dashes.
#[tactic(auto, unfolding(crate::specs::Options::stroke_of, crate::specs::Options::in_range, crate::specs::Options::prepared_of))]
pub fn stroke_of(o: Options, lengths: &[f32]) -> Result<Stroke, Refusal>
    ensures { stroke_answer_of result ≡ stroke_of o lengths.now }
{
    let line_join = line_join_of(o.line_join)?;
    let cap = LineCap::try_from(o.cap)?;
    if !is_in_range(o) || !is_pattern(lengths, o.offset) {
        return Err(Refusal::OutOfRange);
    }
    let half_width = o.width * 0.5;
    Ok(Stroke {
        half_width,
        miter_limit: o.miter_limit,
        line_join,
        cap,
        clip: clip_of(cap, half_width),
        near: o.merge_range * o.merge_range,
        detail: o.detail,
        offset: o.offset,
    })
}

fn no_stroke() -> Stroke
    ensures { result ≡ no_stroke }
{
    Stroke {
        half_width: 0.0,
        miter_limit: 0.0,
        line_join: LineJoin::Miter,
        cap: LineCap::Butt,
        clip: 0.0,
        near: 0.0,
        detail: 0,
        offset: 0.0,
    }
}

// The number, the place and the values that an answer stands for.
impl From<Result<Stroke, Refusal>> for StrokeAnswer {
    ghost from_gives = { λ r a. a ≡ stroke_answer_of r };

    fn from(r: Result<Stroke, Refusal>) -> StrokeAnswer {
        match r {
            Ok(stroke) => StrokeAnswer {
                number: Meaning::Accepted as u32,
                place: 0,
                stroke,
            },
            Err(refusal) => {
                let verdict = Verdict::from(refusal);
                StrokeAnswer {
                    number: verdict.number,
                    place: verdict.place,
                    stroke: no_stroke(),
                }
            }
        }
    }
}

// Whether corners have arcs, and whether ends have.
pub fn rounds_joins(j: LineJoin) -> bool
    ensures { result ≡ rounds_joins j }
{
    matches!(j, LineJoin::Round)
}

pub fn rounds_caps(c: LineCap) -> bool
    ensures { result ≡ rounds_caps c }
{
    matches!(c, LineCap::Round)
}

// Whether a stroke has arcs at all.
#[tactic(auto, unfolding(crate::specs::Options::is_round))]
pub fn is_round(o: Stroke) -> bool
    ensures { result ≡ is_round o }
{
    rounds_joins(o.line_join) || rounds_caps(o.cap)
}

// How many levels deep its arcs go: 6 at the most, whatever a stroke says, so that no caller has to be asked.
#[tactic(auto, unfolding(crate::specs::Options::level_of))]
pub fn level_of(o: Stroke) -> u32
    ensures { result ≡ level_of o }
{
    if is_round(o) { o.detail.min(6) } else { 0 }
}
