// The weaving pass along a run's points (W-209): once its strip is there, each joint is woven into it as soon as the leg behind it is known.
#![tactic(auto)]

pub mod strips;

ghost use Rattle.pieces.specs.Piece.{lent};
ghost use Rattle.along.specs.Points.{walked, to_pass};
ghost use Rattle.bends.specs.Weave.{WeaveFits};
ghost use Rattle.weave.specs.Points.{passed};
ghost use Rattle.weave.specs.Walk.{Walks, needs_of, does_of};
ghost use Rattle.weave.specs.Laws.{walk_laws};

use along::Pass;
use along::pen::{Pen, pass_stretch};
use along::stretch::Stretch;
use bends::{Bend, Weave, pass_bend};
use endpoint::Endpoint;
use fans::Round;
use joints::joint::joint_again;
use joints::leg::{Leg, next_leg};
use pieces::Index;

// How far a run has come: the leg reached, and what is woven or counted.
#[derive(Clone, Copy)]
pub struct Walk {
    pub leg: Leg,
    pub weave: Weave,
}

impl Pen for Walk {
    type Ink = Round;

    ghost reached = { λ w. w.leg };

    ghost needs = { needs_of };

    ghost does = { does_of };

    ghost laws = { walk_laws };

    fn last(&self) -> Endpoint {
        self.leg.to
    }

    fn pass_kept(
        self,
        v: &mut [f32],
        src: &mut [u32],
        t: &mut [Index],
        pass: Pass,
        r: Round,
        p: Endpoint,
    ) -> Walk {
        // Copies, so that the pass keeps its own in registers, as along's does.
        let o = pass.stroke;
        let leg = self.leg;
        let weave = self.weave;
        let next = next_leg(o.half_width, leg, p);
        let b = Bend {
            joint: joint_again(o, leg, next),
            leg,
            end: false,
        };
        Walk {
            leg: next,
            weave: pass_bend(v, src, t, pass.write, o, r, weave, b),
        }
    }
}

// The points of a stretch.
pub fn pass_points(
    v: &mut [f32],
    src: &mut [u32],
    t: &mut [Index],
    pass: Pass,
    r: Round,
    w: Walk,
    s: Stretch,
) -> Walk
    requires { WeaveFits pass.write pass.stroke r w.weave (passed s.sure pass.stroke w.leg (to_pass s)) (lent v.old src.old t.old) }
    ensures { Walks pass r (passed s.entry.sure pass.stroke w.leg (to_pass s.entry)) (walked s.entry.sure pass.stroke w.leg (to_pass s.entry)) w (lent v.old src.old t.old) (lent v.new src.new t.new) result }
{
    pass_stretch(v, src, t, pass, r, w, s)
}
