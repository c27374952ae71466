// What is woven into the strip of a round dash (W-209): the dash is passed a second time, from the same trail.
ghost use Rattle.std.specs.Prelude.{false};
ghost use Rattle.pieces.specs.Piece.{lent, from};
ghost use Rattle.fans.specs.Weft.{WeftPasses};
ghost use Rattle.bends.specs.Weave.{WeaveFits, WeavePasses};
ghost use Rattle.joints.specs.Leg.{next_leg_of};
ghost use Rattle.lists.specs.All.{All};
ghost use Rattle.weave.specs.Points.{bends_from, advanced};
ghost use Rattle.weave.specs.Walk.{Walks};
ghost use Rattle.woven.specs.Woven.{woven_of, over_strip, WovenFits};
ghost use Rattle.feed.specs.Feed.{WellNumbered, FeedFits};
ghost use Rattle.feed.specs.Trail.{trail_points};
ghost use Rattle.dashed.specs.Passes.{dash_kept, DashFits};

use crate::Dash;
use along::Pass;
use along::stretch::Stretch;
use bends::Weave;
use endpoint::{Endpoint, VertexId, vertex_after};
use fans::Round;
use feed::trail::{Trail, next_point};
use joints::leg::leg_of;
use kept::points::Points;
use pieces::{Index, Place};
use weave::strips::{begin, finish};
use weave::{Walk, pass_points};
use woven::place_of;

// The next point, by the pass that runs take along their points, as in strips.
fn weave_one(
    v: &mut [f32],
    src: &mut [u32],
    t: &mut [Index],
    pass: Pass,
    r: Round,
    w: Walk,
    q: Endpoint,
) -> Walk
    requires well_numbered { WellNumbered q }
    requires weave_fits { WeaveFits pass.write pass.stroke r w.weave (advanced pass.stroke w.leg q) (lent v.old src.old t.old) }
    ensures { Walks pass r (advanced pass.stroke w.leg q) (next_leg_of pass.stroke.half_width w.leg q) w (lent v.old src.old t.old) (lent v.new src.new t.new) result }
{
    let xy = [q.position.x, q.position.y];
    let one = Stretch {
        points: Points {
            coords: &xy,
            first: q.id,
        },
        from: 0,
        sure: true,
    };
    pass_points(v, src, t, pass, r, w, one)
}

// The points of a dash that are to come, and its end cap.
fn weave_on(
    v: &mut [f32],
    src: &mut [u32],
    t: &mut [Index],
    pass: Pass,
    r: Round,
    mut w: Walk,
    p: Points,
    ds: &[f32],
    mut trail: Trail,
) -> Weave
    requires feed_fits { FeedFits pass.stroke.near p.coords.now p.first.0 ds.now trail.feed × All WellNumbered (trail_points pass.stroke.near p.coords.now p.first.0 ds.now trail) }
    requires weave_fits { WeaveFits pass.write pass.stroke r w.weave (bends_from false pass.stroke w.leg (trail_points pass.stroke.near p.coords.now p.first.0 ds.now trail)) (lent v.old src.old t.old) }
    ensures { WeavePasses pass.write pass.stroke r (bends_from false pass.stroke w.leg (trail_points pass.stroke.near p.entry.coords.now p.entry.first.0 ds.now trail)) w.weave (lent v.old src.old t.old) (lent v.new src.new t.new) result }
{
    while let Some(q) = next_point(pass.stroke.near, p, ds, &mut trail) {
        w = weave_one(v, src, t, pass, r, w, q);
    }
    finish(v, src, t, pass, r, w)
}

// All of a dash; arcs is the number of its first arc's vertex.
fn weave_dash(
    v: &mut [f32],
    src: &mut [u32],
    t: &mut [Index],
    pass: Pass,
    r: Round,
    p: Points,
    base: VertexId,
    ds: &[f32],
    d: Dash,
    arcs: VertexId,
) -> Place
    requires dash_fits { DashFits pass.stroke.near p.coords.now p.first.0 ds.now d }
    requires woven_fits { WovenFits pass.write false pass.stroke r base (dash_kept pass.stroke.near p.coords.now p.first.0 ds.now d) (from arcs) (lent v.old src.old t.old) }
    ensures { WeftPasses pass.write (from arcs) (woven_of false pass.stroke r base (dash_kept pass.stroke.near p.entry.coords.now p.entry.first.0 ds.now d)) (lent v.old src.old t.old) (lent v.new src.new t.new) result }
{
    let o = pass.stroke;
    let leg = leg_of(o.half_width, 0.0, d.from, d.trail.last);
    let start = Walk {
        leg,
        weave: begin(o, r, leg, base, arcs),
    };
    let w = weave_on(v, src, t, pass, r, start, p, ds, d.trail);
    w.place
}

// The same behind the n vertices of its strip, over the strip's triangles.
pub fn weave_behind(
    v: &mut [f32],
    src: &mut [u32],
    t: &mut [Index],
    pass: Pass,
    r: Round,
    p: Points,
    base: VertexId,
    ds: &[f32],
    d: Dash,
    n: usize,
) -> Place
    requires dash_fits { DashFits pass.stroke.near p.coords.now p.first.0 ds.now d }
    requires woven_fits { WovenFits pass.write false pass.stroke r base (dash_kept pass.stroke.near p.coords.now p.first.0 ds.now d) (over_strip base n) (lent v.old src.old t.old) }
    ensures { WeftPasses pass.write (over_strip base n) (woven_of false pass.stroke r base (dash_kept pass.stroke.near p.entry.coords.now p.entry.first.0 ds.now d)) (lent v.old src.old t.old) (lent v.new src.new t.new) result }
{
    let b = place_of(pass.write, n);
    let a = 5 * b;
    let arcs = vertex_after(base, n);
    let k = weave_dash(&mut v[a..], &mut src[b..], t, pass, r, p, base, ds, d, arcs);
    Place {
        base,
        vertices: n + k.vertices,
        triangles: k.triangles,
    }
}
