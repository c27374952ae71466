// The strip along a run of two kept points or more, at the start of the lists that are lent; its vertices are numbered from base.
ghost use Rattle.std.specs.Prelude.{true, false, ◌≡◌, [], ◌∷◌};
ghost use Rattle.joints.specs.Leg.{first_leg_of};
ghost use Rattle.joints.specs.Joint.{start_cap_of, end_cap_of, joints_of};
ghost use Rattle.kept.specs.Held.{p0_of, p1_of, run_of};
ghost use Rattle.strip.specs.Strip.{StripFits, StripPasses, start_of};
ghost use Rattle.pieces.specs.Piece.{lent};
ghost use Rattle.along.specs.Walk.{Walks};

use crate::pen::{go_round, pass_behind};
use crate::{Pass, Walk};
use endpoint::{EndpointData, VertexId};
use joints::joint::{end_cap, start_cap};
use joints::leg::{Leg, leg_of};
use kept::points::Kept;
use pieces::Index;
use strip::joint::{negative_count, positive_count};
use strip::{Strip, lay_joint_if, start, step};

// From p0 to the second kept point.
pub fn first_leg(h: f32, k: Kept) -> Leg
    ensures { result ≡ first_leg_of h (p0_of k.entry) (p1_of k.entry) }
{
    leg_of(h, 0.0, k.p0(), k.p1())
}

// A cap, written or only counted.
fn pass_cap(
    v: &mut [f32],
    src: &mut [u32],
    t: &mut [Index],
    write: bool,
    s: Strip,
    j: EndpointData,
) -> Strip
    requires { StripFits write s (j ∷ []) (lent v.old src.old t.old) }
    ensures { StripPasses write (j ∷ []) s (lent v.old src.old t.old) (lent v.new src.new t.new) result }
{
    lay_joint_if(v, src, t, s, j, write);
    step(s, positive_count(j), negative_count(j))
}

// The start cap.
pub fn begin(
    v: &mut [f32],
    src: &mut [u32],
    t: &mut [Index],
    pass: Pass,
    leg: Leg,
    base: VertexId,
) -> Walk
    requires { StripFits pass.write (start_of base) (start_cap_of pass.stroke leg ∷ []) (lent v.old src.old t.old) }
    ensures { Walks pass.write (start_cap_of pass.stroke leg ∷ []) leg (record { leg = leg; strip = start_of base }) (lent v.old src.old t.old) (lent v.new src.new t.new) result }
{
    let j = start_cap(pass.stroke, leg);
    let s = start(base);
    Walk {
        leg,
        strip: pass_cap(v, src, t, pass.write, s, j),
    }
}

// The end cap.
pub fn finish(v: &mut [f32], src: &mut [u32], t: &mut [Index], pass: Pass, w: Walk) -> Strip
    requires { StripFits pass.write w.strip (end_cap_of pass.stroke w.leg ∷ []) (lent v.old src.old t.old) }
    ensures { StripPasses pass.write (end_cap_of pass.stroke w.leg ∷ []) w.strip (lent v.old src.old t.old) (lent v.new src.new t.new) result }
{
    let j = end_cap(pass.stroke, w.leg);
    pass_cap(v, src, t, pass.write, w.strip, j)
}

// An open run: the start cap, the joins, the end cap.
pub fn pass_open(
    v: &mut [f32],
    src: &mut [u32],
    t: &mut [Index],
    pass: Pass,
    k: Kept,
    base: VertexId,
) -> Strip
    requires { StripFits pass.write (start_of base) (joints_of false pass.stroke (run_of pass.stroke.near k)) (lent v.old src.old t.old) }
    ensures { StripPasses pass.write (joints_of false pass.stroke (run_of pass.stroke.near k.entry)) (start_of base) (lent v.old src.old t.old) (lent v.new src.new t.new) result }
{
    let leg = first_leg(pass.stroke.half_width, k);
    let begun = begin(v, src, t, pass, leg, base);
    let w = pass_behind(v, src, t, pass, (), begun, k);
    finish(v, src, t, pass, w)
}

// A closed run's joins.
pub fn pass_closed(
    v: &mut [f32],
    src: &mut [u32],
    t: &mut [Index],
    pass: Pass,
    k: Kept,
    base: VertexId,
) -> Strip
    requires { StripFits pass.write (start_of base) (joints_of true pass.stroke (run_of pass.stroke.near k)) (lent v.old src.old t.old) }
    ensures { StripPasses pass.write (joints_of true pass.stroke (run_of pass.stroke.near k.entry)) (start_of base) (lent v.old src.old t.old) (lent v.new src.new t.new) result }
{
    let leg = first_leg(pass.stroke.half_width, k);
    let begun = Walk {
        leg,
        strip: start(base),
    };
    let w = pass_behind(v, src, t, pass, (), begun, k);
    go_round(v, src, t, pass, (), w, k).strip
}
