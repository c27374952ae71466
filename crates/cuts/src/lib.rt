// W-213: how many cuts fall on the edges of a path's runs, drawn or not, for refusal 26. Counting stops at one more than is accepted.
//
// ds holds the lengths of the pattern; points whose squared distance is below the limit are near; b is the first cut of every run.
#![tactic(auto)]

mod edge;
mod run_cuts;

ghost use Rattle.std.specs.Prelude.{◌≡◌, ◌*◌, ◌≤◌, ◌<◌, length};
ghost use Rattle.endpoint.specs.Endpoint.{id_limit};
ghost use Rattle.path.specs.Path.{check_answer_of};
ghost use Rattle.path.specs.Verbs.{point_count};
ghost use Rattle.dashes.specs.Pattern.{wear_limit};
ghost use Rattle.cuts.specs.Checked.{cut_checked_of};
ghost use Rattle.cuts.specs.Cuts.{capped_of, path_cuts, has_too_many_cuts};
ghost use Rattle.cuts.specs.Passes.{Inside, VerbCounted};

use crate::edge::CUT_LIMIT;
use crate::run_cuts::count_run;
use dashes::pattern::{Beat, first_cut, worn};
use endpoint::{EndpointId, endpoint_after};
use kept::points::Points;
use path::check_path;
use path::verbs::{END_CLOSED, names_point};
use refusals::Refusal;

// How far a pass over the verbs has come: the number of the current run's first endpoint, how many of its points are named, and the
// cuts of the runs before it.
#[derive(Clone, Copy)]
struct Progress {
    first: EndpointId,
    size: usize,
    cuts: usize,
}

// One verb: a point more, or the end of a run, whose cuts are added.
fn count_verb(ds: &[f32], limit: f32, b: Beat, coords: &[f32], g: Progress, verb: u8) -> Progress
    requires { (0 < length ds.now) × (b.index ≤ wear_limit) × Inside g coords.now }
    ensures { VerbCounted limit ds.now b coords.now g verb result }
{
    if names_point(verb) {
        return Progress {
            size: g.size + 1,
            ..g
        };
    }
    let i = g.first.0 as usize;
    let cuts = count_run(
        ds,
        limit,
        b,
        Points {
            coords: &coords[2 * i..2 * (i + g.size)],
            first: g.first,
        },
        verb == END_CLOSED,
        g.cuts,
    );
    Progress {
        first: endpoint_after(g.first, g.size),
        size: 0,
        cuts,
    }
}

// The cuts of all runs, 65,537 where they are more.
pub fn count_cuts(ds: &[f32], offset: f32, limit: f32, verbs: &[u8], coords: &[f32]) -> usize
    requires ds_nonzero { 0 < length ds.now }
    requires coords_len { (length coords.now ≡ 2 * point_count verbs.now) × (length coords.now < id_limit) }
    ensures { result ≡ capped_of (path_cuts limit ds.now offset verbs.now coords.now) }
{
    let b = first_cut(ds, worn(ds, offset));
    let mut g = Progress {
        first: EndpointId(0),
        size: 0,
        cuts: 0,
    };
    for verb in verbs {
        g = count_verb(ds, limit, b, coords, g, *verb);
    }
    g.cuts
}

// Refusal 26 where it is true. An empty list has no cuts.
pub fn has_too_many_cuts(ds: &[f32], offset: f32, limit: f32, verbs: &[u8], coords: &[f32]) -> bool
    requires { (length coords.now ≡ 2 * point_count verbs.now) × (length coords.now < id_limit) }
    ensures { result ≡ has_too_many_cuts limit ds.now offset verbs.now coords.now }
{
    !ds.is_empty() && count_cuts(ds, offset, limit, verbs, coords) > CUT_LIMIT
}

// Refusals 2 to 4, then 26.
pub fn check_cut_path(
    verbs: &[u8],
    coords: &[f32],
    ds: &[f32],
    offset: f32,
    limit: f32,
) -> Result<(), Refusal>
    ensures { check_answer_of result ≡ cut_checked_of limit ds.now offset verbs.now coords.now }
{
    check_path(verbs, coords)?;
    if has_too_many_cuts(ds, offset, limit, verbs, coords) {
        return Err(Refusal::TooManyCuts);
    }
    Ok(())
}
