// W-213: the dashes of a run, drawn one behind the other as open runs. No point, mark or dash is stored.
//
// p has the points of the run, of which none is dropped on closing; ds holds the lengths of the pattern.
#![tactic(auto)]

mod arcs;
mod strips;

ghost use Rattle.std.specs.Prelude.{false, ◌≤◌, ◌<◌, length};
ghost use Rattle.kept.specs.Held.{run_of};
ghost use Rattle.pieces.specs.Piece.{lent, from, Fits, Passes};
ghost use Rattle.woven.specs.Woven.{round_piece};
ghost use Rattle.dashes.specs.Marks.{cut_limit};
ghost use Rattle.feed.specs.Trail.{TrailFits};
ghost use Rattle.dashed.specs.Dashed.{run_cuts, dash_piece, run_piece};
ghost use Rattle.dashed.specs.Passes.{trail_kept, dash_kept, DashFits, Draws, next_piece, Starts};

use crate::arcs::weave_behind;
use crate::strips::strip_dash;
use along::Pass;
use dashes::pattern::{first_cut, is_dash, worn};
use endpoint::{Endpoint, VertexId};
use fans::Round;
use feed::trail::{Trail, next_dash, next_point};
use feed::{Feed, first_feed};
use kept::points::{Kept, Points};
use pieces::{Index, Place, next_vertex};
use woven::place_of;

// A dash of two kept points or more: the first, and the trail at the second.
#[derive(Clone, Copy)]
pub struct Dash {
    pub from: Endpoint,
    pub trail: Trail,
}

// The place behind a dash that is drawn, and the feed behind it.
#[derive(Clone, Copy)]
pub struct Drawn {
    pub place: Place,
    pub feed: Option<Feed>,
}

// A dash of two kept points or more.
fn draw_line(
    v: &mut [f32],
    src: &mut [u32],
    t: &mut [Index],
    pass: Pass,
    r: Round,
    p: Points,
    base: VertexId,
    ds: &[f32],
    d: Dash,
) -> Drawn
    requires dash_fits { DashFits pass.stroke.near p.coords.now p.first.0 ds.now d }
    requires detail_bound { r.detail ≤ 6 }
    requires fits { Fits pass.write (from base) (round_piece false pass.stroke r base (dash_kept pass.stroke.near p.coords.now p.first.0 ds.now d)) (lent v.old src.old t.old) }
    ensures { Draws pass p.entry.coords.now p.entry.first.0 ds.now d.trail (from base) (round_piece false pass.stroke r base (dash_kept pass.stroke.near p.entry.coords.now p.entry.first.0 ds.now d)) (lent v.old src.old t.old) (lent v.new src.new t.new) result }
{
    let s = strip_dash(v, src, t, pass, p, base, ds, d);
    let k = s.strip.place;
    let place = if r.joins || r.caps {
        weave_behind(v, src, t, pass, r, p, base, ds, d, k.vertices)
    } else {
        k
    };
    Drawn {
        place,
        feed: s.feed,
    }
}

// A dash from its first point, where the trail is. A dash left with one point is drawn as nothing.
fn draw_dash(
    v: &mut [f32],
    src: &mut [u32],
    t: &mut [Index],
    pass: Pass,
    r: Round,
    p: Points,
    base: VertexId,
    ds: &[f32],
    mut trail: Trail,
) -> Drawn
    requires trail_fits { TrailFits pass.stroke.near p.coords.now p.first.0 ds.now trail }
    requires detail_bound { r.detail ≤ 6 }
    requires fits { Fits pass.write (from base) (dash_piece pass.stroke r base (trail_kept pass.stroke.near p.coords.now p.first.0 ds.now trail)) (lent v.old src.old t.old) }
    ensures { Draws pass p.entry.coords.now p.entry.first.0 ds.now trail (from base) (dash_piece pass.stroke r base (trail_kept pass.stroke.near p.entry.coords.now p.entry.first.0 ds.now trail)) (lent v.old src.old t.old) (lent v.new src.new t.new) result }
{
    let from = trail.last;
    if next_point(pass.stroke.near, p, ds, &mut trail).is_some() {
        return draw_line(v, src, t, pass, r, p, base, ds, Dash { from, trail });
    }
    let place = Place {
        base,
        vertices: 0,
        triangles: 0,
    };
    Drawn {
        place,
        feed: trail.feed,
    }
}

// The same in the parts of the lists that begin where the last dash ended.
fn draw_next(
    v: &mut [f32],
    src: &mut [u32],
    t: &mut [Index],
    pass: Pass,
    r: Round,
    p: Points,
    ds: &[f32],
    trail: Trail,
    k: Place,
) -> Drawn
    requires trail_fits { TrailFits pass.stroke.near p.coords.now p.first.0 ds.now trail }
    requires detail_bound { r.detail ≤ 6 }
    requires fits { Fits pass.write k (next_piece pass r p.coords.now p.first.0 ds.now trail k) (lent v.old src.old t.old) }
    ensures { Draws pass p.entry.coords.now p.entry.first.0 ds.now trail k (next_piece pass r p.entry.coords.now p.entry.first.0 ds.now trail k) (lent v.old src.old t.old) (lent v.new src.new t.new) result }
{
    let a = place_of(pass.write, 5 * k.vertices);
    let b = place_of(pass.write, k.vertices);
    let c = place_of(pass.write, 3 * k.triangles);
    let d = draw_dash(
        &mut v[a..],
        &mut src[b..],
        &mut t[c..],
        pass,
        r,
        p,
        next_vertex(k),
        ds,
        trail,
    );
    let place = Place {
        vertices: k.vertices + d.place.vertices,
        triangles: k.triangles + d.place.triangles,
        ..k
    };
    Drawn {
        place,
        feed: d.feed,
    }
}

// At the first point of a run's first dash, where it has one.
fn start_dashes(near: f32, k: Kept, closed: bool, ds: &[f32], offset: f32) -> Option<Trail>
    requires { (0 < length ds.now) × (run_cuts closed ds.now offset (run_of near k) ≤ cut_limit) }
    ensures { Starts near k.entry.points.coords.now k.entry.points.first.0 k.entry.second closed ds.now offset result }
{
    let b = first_cut(ds, worn(ds, offset));
    let feed = Some(first_feed(k, closed, b));
    if is_dash(b.index) {
        return Some(Trail {
            last: k.p0(),
            on: true,
            feed,
        });
    }
    next_dash(near, k.points, ds, feed)
}

// The dashes of a run of two kept points or more.
pub fn draw_dashes(
    v: &mut [f32],
    src: &mut [u32],
    t: &mut [Index],
    pass: Pass,
    r: Round,
    k: Kept,
    base: VertexId,
    closed: bool,
    ds: &[f32],
    offset: f32,
) -> Place
    requires ds_nonzero { (0 < length ds.now) × (run_cuts closed ds.now offset (run_of pass.stroke.near k) ≤ cut_limit) × (r.detail ≤ 6) }
    requires fits { Fits pass.write (from base) (run_piece pass.stroke r base closed ds.now offset (run_of pass.stroke.near k)) (lent v.old src.old t.old) }
    ensures { Passes pass.write (from base) (run_piece pass.stroke r base closed ds.now offset (run_of pass.stroke.near k.entry)) (lent v.old src.old t.old) (lent v.new src.new t.new) result }
{
    let near = pass.stroke.near;
    let mut place = Place {
        base,
        vertices: 0,
        triangles: 0,
    };
    let mut next = start_dashes(near, k, closed, ds, offset);
    while let Some(trail) = next {
        let d = draw_next(v, src, t, pass, r, k.points, ds, trail, place);
        place = d.place;
        next = next_dash(near, k.points, ds, d.feed);
    }
    place
}
