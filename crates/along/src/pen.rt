// A pass along a run's points, whatever it does at those that it keeps: a strip is laid, or woven into. The compiler makes a function of its own for each, so nothing is shared between them there.
ghost use Rattle.std.specs.Prelude.{false, ◌≡◌, [], ◌∷◌, List};
ghost use Rattle.endpoint.specs.declared.Endpoint.{Endpoint};
ghost use Rattle.joints.specs.declared.leg.Leg.{Leg};
ghost use Rattle.kept.specs.Held.{p0_of, p1_of, behind_of};
ghost use Rattle.pieces.specs.Piece.{Lists, lent};
ghost use Rattle.along.specs.Points.{keeps, to_pass};
ghost use Rattle.along.specs.Pen.{PenLaws};
ghost use Rattle.along.specs.declared.Pass.{Pass};

use crate::stretch::Stretch;
use crate::{Pass, is_dropped};
use endpoint::Endpoint;
use kept::points::Kept;
use pieces::Index;

// How far a pass has come along a run.
pub trait Pen: Drop {
    // What it goes by, besides the options.
    type Ink: Copy;

    ghost reached: { Self → Leg };

    // What it needs at points that it keeps, and what it does.
    ghost needs: { Pass → Self.Ink → List Endpoint → Self → Lists → Type 0 };

    ghost does: { Pass → Self.Ink → List Endpoint → Self → Lists → Lists → Self → Type 0 };

    ghost laws: { PenLaws reached needs does };

    // The last point that it kept.
    fn last(&self) -> Endpoint
        ensures { result ≡ (reached self.now).to };

    // The next point, which is kept.
    fn pass_kept(
        self,
        v: &mut [f32],
        src: &mut [u32],
        t: &mut [Index],
        pass: Pass,
        ink: Self::Ink,
        p: Endpoint,
    ) -> Self
        requires { needs pass ink (p ∷ []) self (lent v.old src.old t.old) }
        ensures { does pass ink (p ∷ []) self (lent v.old src.old t.old) (lent v.new src.new t.new) result };
}

// The next point, which may be dropped.
fn pass_point<P: Pen>(
    v: &mut [f32],
    src: &mut [u32],
    t: &mut [Index],
    pass: Pass,
    ink: P::Ink,
    w: P,
    p: Endpoint,
    sure: bool,
) -> P
    requires { P.needs pass ink (keeps pass.stroke.near sure (P.reached w).to (p ∷ [])) w (lent v.old src.old t.old) }
    ensures { P.does pass ink (keeps pass.stroke.near sure (P.reached w).to (p ∷ [])) w (lent v.old src.old t.old) (lent v.new src.new t.new) result }
{
    if is_dropped(pass.stroke.near, sure, w.last(), p) {
        return w;
    }
    w.pass_kept(v, src, t, pass, ink, p)
}

// The points of a stretch.
pub fn pass_stretch<P: Pen>(
    v: &mut [f32],
    src: &mut [u32],
    t: &mut [Index],
    pass: Pass,
    ink: P::Ink,
    mut w: P,
    s: Stretch,
) -> P
    requires { P.needs pass ink (keeps pass.stroke.near s.sure (P.reached w).to (to_pass s)) w (lent v.old src.old t.old) }
    ensures { P.does pass ink (keeps pass.stroke.near s.entry.sure (P.reached w).to (to_pass s.entry)) w (lent v.old src.old t.old) (lent v.new src.new t.new) result }
{
    for i in s.from..s.points.count() {
        w = pass_point(v, src, t, pass, ink, w, s.points.at(i), s.sure);
    }
    w
}

// The points of a run behind its second kept one.
pub fn pass_behind<P: Pen>(
    v: &mut [f32],
    src: &mut [u32],
    t: &mut [Index],
    pass: Pass,
    ink: P::Ink,
    w: P,
    k: Kept,
) -> P
    requires { P.needs pass ink (keeps pass.stroke.near false (P.reached w).to (behind_of k)) w (lent v.old src.old t.old) }
    ensures { P.does pass ink (keeps pass.stroke.near false (P.reached w).to (behind_of k.entry)) w (lent v.old src.old t.old) (lent v.new src.new t.new) result }
{
    pass_stretch(v, src, t, pass, ink, w, Stretch::rest(k))
}

// Round to p0 and on to p1: the joins n-1 and 0 of a closed run.
pub fn go_round<P: Pen>(
    v: &mut [f32],
    src: &mut [u32],
    t: &mut [Index],
    pass: Pass,
    ink: P::Ink,
    w: P,
    k: Kept,
) -> P
    requires { P.needs pass ink (p0_of k ∷ p1_of k ∷ []) w (lent v.old src.old t.old) }
    ensures { P.does pass ink (p0_of k.entry ∷ p1_of k.entry ∷ []) w (lent v.old src.old t.old) (lent v.new src.new t.new) result }
{
    let home = pass_stretch(v, src, t, pass, ink, w, Stretch::back(k));
    pass_stretch(v, src, t, pass, ink, home, Stretch::on(k))
}
