// The strip along a dash of two kept points or more, at the start of the lists that are lent.
ghost use Rattle.std.specs.Prelude.{false};
ghost use Rattle.joints.specs.Joint.{joints_from, joints_of};
ghost use Rattle.joints.specs.Leg.{next_leg_of};
ghost use Rattle.lists.specs.All.{All};
ghost use Rattle.along.specs.Points.{advanced};
ghost use Rattle.along.specs.Walk.{Walks};
ghost use Rattle.pieces.specs.Piece.{lent};
ghost use Rattle.strip.specs.Strip.{StripFits, start_of};
ghost use Rattle.feed.specs.Feed.{WellNumbered, FeedFits};
ghost use Rattle.feed.specs.Trail.{trail_points};
ghost use Rattle.dashed.specs.Passes.{dash_kept, DashFits, Strips};

use crate::Dash;
use along::stretch::Stretch;
use along::strips::{begin, finish};
use along::{Pass, Walk, pass_points};
use endpoint::{Endpoint, VertexId};
use feed::Feed;
use feed::trail::{Trail, next_point};
use joints::leg::leg_of;
use kept::points::Points;
use pieces::Index;
use strip::Strip;

// A dash's strip, and the feed behind the dash.
#[derive(Clone, Copy)]
pub struct Stripped {
    pub strip: Strip,
    pub feed: Option<Feed>,
}

// The next point, by the pass that runs take along their points: were a step of that pass called from here too, the compiler would copy it into
// neither, and every point of every run would cost more (docs/SPEED.md).
fn strip_one(
    v: &mut [f32],
    src: &mut [u32],
    t: &mut [Index],
    pass: Pass,
    w: Walk,
    q: Endpoint,
) -> Walk
    requires well_numbered { WellNumbered q }
    requires strip_fits { StripFits pass.write w.strip (advanced pass.stroke w.leg q) (lent v.old src.old t.old) }
    ensures { Walks pass.write (advanced pass.stroke w.leg q) (next_leg_of pass.stroke.half_width w.leg q) w (lent v.old src.old t.old) (lent v.new src.new t.new) result }
{
    let xy = [q.position.x, q.position.y];
    let one = Stretch {
        points: Points {
            coords: &xy,
            first: q.id,
        },
        from: 0,
        sure: true,
    };
    pass_points(v, src, t, pass, w, one)
}

// The points of a dash that are to come, and its end cap.
fn strip_on(
    v: &mut [f32],
    src: &mut [u32],
    t: &mut [Index],
    pass: Pass,
    mut w: Walk,
    p: Points,
    ds: &[f32],
    mut trail: Trail,
) -> Stripped
    requires feed_fits { FeedFits pass.stroke.near p.coords.now p.first.0 ds.now trail.feed × All WellNumbered (trail_points pass.stroke.near p.coords.now p.first.0 ds.now trail) }
    requires strip_fits { StripFits pass.write w.strip (joints_from false pass.stroke w.leg (trail_points pass.stroke.near p.coords.now p.first.0 ds.now trail)) (lent v.old src.old t.old) }
    ensures { Strips pass p.entry.coords.now p.entry.first.0 ds.now trail (joints_from false pass.stroke w.leg (trail_points pass.stroke.near p.entry.coords.now p.entry.first.0 ds.now trail)) w.strip (lent v.old src.old t.old) (lent v.new src.new t.new) result }
{
    while let Some(q) = next_point(pass.stroke.near, p, ds, &mut trail) {
        w = strip_one(v, src, t, pass, w, q);
    }
    Stripped {
        strip: finish(v, src, t, pass, w),
        feed: trail.feed,
    }
}

// All of a dash; its advancement begins at 0.
pub fn strip_dash(
    v: &mut [f32],
    src: &mut [u32],
    t: &mut [Index],
    pass: Pass,
    p: Points,
    base: VertexId,
    ds: &[f32],
    d: Dash,
) -> Stripped
    requires dash_fits { DashFits pass.stroke.near p.coords.now p.first.0 ds.now d }
    requires strip_fits { StripFits pass.write (start_of base) (joints_of false pass.stroke (dash_kept pass.stroke.near p.coords.now p.first.0 ds.now d)) (lent v.old src.old t.old) }
    ensures { Strips pass p.entry.coords.now p.entry.first.0 ds.now d.trail (joints_of false pass.stroke (dash_kept pass.stroke.near p.entry.coords.now p.entry.first.0 ds.now d)) (start_of base) (lent v.old src.old t.old) (lent v.new src.new t.new) result }
{
    let leg = leg_of(pass.stroke.half_width, 0.0, d.from, d.trail.last);
    let w = begin(v, src, t, pass, leg, base);
    strip_on(v, src, t, pass, w, p, ds, d.trail)
}
