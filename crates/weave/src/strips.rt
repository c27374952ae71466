// The weaving along a run of two kept points or more. The strip's vertices are numbered from base on, the arcs' from arcs on, at the start of what is lent of their
// lists.
ghost use Rattle.std.specs.Prelude.{true, false, ◌≡◌, [], ◌∷◌};
ghost use Rattle.joints.specs.Joint.{start_cap_of};
ghost use Rattle.joints.specs.Leg.{first_leg_of};
ghost use Rattle.kept.specs.Held.{p0_of, p1_of, run_of};
ghost use Rattle.strip.specs.Strip.{StripFits, start_of};
ghost use Rattle.pieces.specs.Piece.{lent, from};
ghost use Rattle.bends.specs.Weave.{WeaveFits, WeavePasses};
ghost use Rattle.weave.specs.Points.{bends_of, end_bend};
ghost use Rattle.weave.specs.Walk.{opened_of, closed_of};

use crate::Walk;
use along::Pass;
use along::pen::{go_round, pass_behind};
use along::strips::first_leg;
use bends::{Bend, Weave, pass_bend};
use endpoint::VertexId;
use fans::Round;
use joints::joint::{end_cap, start_cap};
use joints::leg::Leg;
use kept::points::Kept;
use options::Stroke;
use pieces::{Index, Place};
use strip::joint::{negative_count, positive_count};
use strip::{start, step};

// Where nothing is woven yet.
fn unwoven(base: VertexId) -> Place
    ensures { result ≡ from base }
{
    Place {
        base,
        vertices: 0,
        triangles: 0,
    }
}

// Behind the start cap, whose fan is due where caps are round.
pub fn begin(o: Stroke, r: Round, leg: Leg, base: VertexId, arcs: VertexId) -> Weave
    requires { StripFits false (start_of base) (start_cap_of o leg ∷ []) (lent [] [] []) }
    ensures { result ≡ opened_of o r leg base arcs }
{
    let j = start_cap(o, leg);
    let p = positive_count(j);
    let n = negative_count(j);
    Weave {
        strip: step(start(base), p, n),
        place: unwoven(arcs),
        due: r.caps,
    }
}

// The end cap.
pub fn finish(
    v: &mut [f32],
    src: &mut [u32],
    t: &mut [Index],
    pass: Pass,
    r: Round,
    w: Walk,
) -> Weave
    requires { WeaveFits pass.write pass.stroke r w.weave (end_bend pass.stroke w.leg ∷ []) (lent v.old src.old t.old) }
    ensures { WeavePasses pass.write pass.stroke r (end_bend pass.stroke w.leg ∷ []) w.weave (lent v.old src.old t.old) (lent v.new src.new t.new) result }
{
    let b = Bend {
        joint: end_cap(pass.stroke, w.leg),
        leg: w.leg,
        end: true,
    };
    pass_bend(v, src, t, pass.write, pass.stroke, r, w.weave, b)
}

// An open run.
pub fn weave_open(
    v: &mut [f32],
    src: &mut [u32],
    t: &mut [Index],
    pass: Pass,
    r: Round,
    k: Kept,
    base: VertexId,
    arcs: VertexId,
) -> Weave
    requires strip_fits { StripFits false (start_of base) (start_cap_of pass.stroke (first_leg_of pass.stroke.half_width (p0_of k) (p1_of k)) ∷ []) (lent [] [] []) }
    requires weave_fits { WeaveFits pass.write pass.stroke r (opened_of pass.stroke r (first_leg_of pass.stroke.half_width (p0_of k) (p1_of k)) base arcs) (bends_of false pass.stroke (run_of pass.stroke.near k)) (lent v.old src.old t.old) }
    ensures { WeavePasses pass.write pass.stroke r (bends_of false pass.stroke (run_of pass.stroke.near k.entry)) (opened_of pass.stroke r (first_leg_of pass.stroke.half_width (p0_of k.entry) (p1_of k.entry)) base arcs) (lent v.old src.old t.old) (lent v.new src.new t.new) result }
{
    let leg = first_leg(pass.stroke.half_width, k);
    let start = Walk {
        leg,
        weave: begin(pass.stroke, r, leg, base, arcs),
    };
    let w = pass_behind(v, src, t, pass, r, start, k);
    finish(v, src, t, pass, r, w)
}

// A closed run.
pub fn weave_closed(
    v: &mut [f32],
    src: &mut [u32],
    t: &mut [Index],
    pass: Pass,
    r: Round,
    k: Kept,
    base: VertexId,
    arcs: VertexId,
) -> Weave
    requires { WeaveFits pass.write pass.stroke r (closed_of base arcs) (bends_of true pass.stroke (run_of pass.stroke.near k)) (lent v.old src.old t.old) }
    ensures { WeavePasses pass.write pass.stroke r (bends_of true pass.stroke (run_of pass.stroke.near k.entry)) (closed_of base arcs) (lent v.old src.old t.old) (lent v.new src.new t.new) result }
{
    let leg = first_leg(pass.stroke.half_width, k);
    let begun = Weave {
        strip: start(base),
        place: unwoven(arcs),
        due: false,
    };
    let walk = Walk { leg, weave: begun };
    let w = pass_behind(v, src, t, pass, r, walk, k);
    go_round(v, src, t, pass, r, w, k).weave
}
