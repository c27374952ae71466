// A run as it is drawn: cut into its dashes (W-213), or as it stands where there are none.
ghost use Rattle.std.specs.Prelude.{◌≤◌, [], ◌∷◌, length};
ghost use Rattle.kept.specs.Held.{points_of};
ghost use Rattle.pieces.specs.Piece.{lent, from, Fits, Passes};
ghost use Rattle.runs.specs.Runs.{cut_of, CutsFew, mesh_piece};
ghost use Rattle.runs.specs.Cut.{KeptTo, Seconds};

use along::Pass;
use dashed::draw_dashes;
use endpoint::VertexId;
use kept::points::{Kept, Points};
use kept::{first_far, kept_end};
use pieces::{Index, Place};
use run::{draw_run, round_of};

// Where the coordinates end that no closing drops.
fn kept_to(near: f32, p: Points, closed: bool) -> usize
    requires { 2 ≤ length p.coords.now }
    ensures { KeptTo near p.entry.coords.now p.entry.first.0 closed result }
{
    if closed {
        return 2 * kept_end(near, p);
    }
    p.coords.len()
}

// The kept points of a run that is cut, and none where it is not; ds holds the lengths of the dashes.
fn cut_kept<'a>(near: f32, p: Points<'a>, closed: bool, ds: &[f32]) -> Option<Kept<'a>>
    ensures { Seconds near p.entry.coords.now p.entry.first.0 closed ds.now result }
{
    if ds.is_empty() || p.coords.len() < 2 {
        return None;
    }
    let points = p.up_to(kept_to(near, p, closed));
    let second = first_far(near, points);
    if second < points.count() {
        Some(Kept { points, second })
    } else {
        None
    }
}

// A run at the start of the lists that are lent. The result is the place behind it.
pub fn draw_cut(
    v: &mut [f32],
    src: &mut [u32],
    t: &mut [Index],
    pass: Pass,
    p: Points,
    base: VertexId,
    closed: bool,
    ds: &[f32],
) -> Place
    requires cuts_few { CutsFew pass.stroke ds.now (record { closed = closed; points = points_of p } ∷ []) }
    requires fits { Fits pass.write (from base) (mesh_piece pass.stroke (from base) (cut_of pass.stroke ds.now (record { closed = closed; points = points_of p } ∷ []))) (lent v.old src.old t.old) }
    ensures { Passes pass.write (from base) (mesh_piece pass.stroke (from base) (cut_of pass.stroke ds.now (record { closed = closed; points = points_of p.entry } ∷ []))) (lent v.old src.old t.old) (lent v.new src.new t.new) result }
{
    let o = pass.stroke;
    match cut_kept(o.near, p, closed, ds) {
        Some(k) => {
            let r = round_of(o);
            draw_dashes(v, src, t, pass, r, k, base, closed, ds, o.offset)
        }
        None => draw_run(v, src, t, pass, p, base, closed),
    }
}
