// A pass along a run's points: each joint is written, or only counted, as soon as the leg behind it is known, so no point is stored.
#![tactic(auto)]

pub mod pen;
pub mod stretch;
pub mod strips;

ghost use Rattle.std.specs.Prelude.{not, ◌&&◌, [], ◌∷◌, ◌≡◌};
ghost use Rattle.joints.specs.Joint.{joint_of};
ghost use Rattle.join.specs.Record.{counts_of};
ghost use Rattle.kept.specs.Kept.{near};
ghost use Rattle.pieces.specs.Piece.{lent, Lays};
ghost use Rattle.strip.specs.Strip.{StripFits, piece_of};
ghost use Rattle.along.specs.Points.{walked, passed, to_pass};
ghost use Rattle.along.specs.Walk.{Walks, needs_of, does_of};
ghost use Rattle.along.specs.Laws.{walk_laws};

use crate::pen::{Pen, pass_stretch};
use crate::stretch::Stretch;
use endpoint::Endpoint;
use join::record::{Counts, counts_of};
use joints::joint::{joint_counts, joint_of};
use joints::leg::{Leg, next_leg};
use kept::near::is_near;
use options::Stroke;
use pieces::Index;
use strip::{Strip, lay_joint, step};

// What a pass carries: what the rules use of the options, and whether it writes or only counts.
#[derive(Clone, Copy)]
pub struct Pass {
    pub stroke: Stroke,
    pub write: bool,
}

// How far a run has come: the leg reached, and what is written or counted.
#[derive(Clone, Copy)]
pub struct Walk {
    pub leg: Leg,
    pub strip: Strip,
}

// The joint where the leg meets the next, written where the pass writes and only counted where it counts. The result is how many points
// its sides have.
fn pass_joint(
    v: &mut [f32],
    src: &mut [u32],
    t: &mut [Index],
    pass: Pass,
    leg: Leg,
    strip: Strip,
    next: Leg,
) -> Counts
    requires { StripFits pass.write strip (joint_of pass.stroke leg next ∷ []) (lent v.old src.old t.old) }
    ensures value { result ≡ counts_of (joint_of pass.stroke leg next) }
    ensures lays { Lays pass.write strip.place (piece_of strip (joint_of pass.stroke leg next ∷ [])) (lent v.old src.old t.old) (lent v.new src.new t.new) }
{
    if pass.write {
        let j = joint_of(pass.stroke, leg, next);
        lay_joint(v, src, t, strip, j);
        return counts_of(j);
    }
    joint_counts(pass.stroke, leg, next)
}

impl Pen for Walk {
    type Ink = ();

    ghost reached = { λ w. w.leg };

    ghost needs = { needs_of };

    ghost does = { does_of };

    ghost laws = { walk_laws };

    fn last(&self) -> Endpoint {
        self.leg.to
    }

    fn pass_kept(
        self,
        v: &mut [f32],
        src: &mut [u32],
        t: &mut [Index],
        pass: Pass,
        ink: (),
        p: Endpoint,
    ) -> Walk {
        // Copies, so that the pass keeps its own in registers: without them a point costs 6 to 12 instructions more.
        let leg = self.leg;
        let strip = self.strip;
        let next = next_leg(pass.stroke.half_width, leg, p);
        let c = pass_joint(v, src, t, pass, leg, strip, next);
        Walk {
            leg: next,
            strip: step(strip, c.positive, c.negative),
        }
    }
}

// Whether a point is dropped: it is near the last that is kept, and not sure to be kept.
fn is_dropped(limit: f32, sure: bool, last: Endpoint, p: Endpoint) -> bool
    ensures { result ≡ (not sure && near limit last p) }
{
    !sure && is_near(limit, last.position, p.position)
}

// The points of a stretch.
pub fn pass_points(
    v: &mut [f32],
    src: &mut [u32],
    t: &mut [Index],
    pass: Pass,
    w: Walk,
    s: Stretch,
) -> Walk
    requires { StripFits pass.write w.strip (passed s.sure pass.stroke w.leg (to_pass s)) (lent v.old src.old t.old) }
    ensures { Walks pass.write (passed s.entry.sure pass.stroke w.leg (to_pass s.entry)) (walked s.entry.sure pass.stroke w.leg (to_pass s.entry)) w (lent v.old src.old t.old) (lent v.new src.new t.new) result }
{
    pass_stretch(v, src, t, pass, (), w, s)
}
