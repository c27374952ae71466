// What is woven into a round run of two kept points or more (W-209), once its strip is at the start of the lists that are lent: the arcs' vertices behind the strip's, and all
// triangles over the strip's.
#![tactic(auto)]

ghost use Rattle.std.specs.Prelude.{cond, true, ◌≡◌, ◌*◌};
ghost use Rattle.kept.specs.Held.{run_of};
ghost use Rattle.lists.specs.Over.{put_at};
ghost use Rattle.pieces.specs.Piece.{lent, from, flat_t};
ghost use Rattle.fans.specs.Weft.{WeftPasses};
ghost use Rattle.bends.specs.Bend.{FaceFits};
ghost use Rattle.woven.specs.Woven.{way_round, woven_of, over_strip, WovenFits};

use along::Pass;
use endpoint::{VertexId, vertex_after};
use fans::Round;
use kept::points::Kept;
use pieces::{Index, Place};
use strip::{Strip, put_close};
use weave::strips::{weave_closed, weave_open};

// Where a pass that writes goes on; one that only counts is lent no places.
pub fn place_of(write: bool, place: usize) -> usize
    ensures { result ≡ cond write place 0 }
{
    if write { place } else { 0 }
}

// A closed run goes round to its first section, behind the triangles that stand at a place.
pub fn close_round(t: &mut [Index], k: Place, s: Strip, write: bool)
    requires { write ≡ true → FaceFits k (way_round s) t.old }
    ensures { write ≡ true → t.new ≡ put_at (3 * k.triangles) (flat_t (way_round s)) t.old }
{
    if write {
        let at = 3 * k.triangles;
        put_close(&mut t[at..], s);
    }
}

// What is woven into a closed run: once round, as many triangles as the strip and the arcs have vertices.
fn weave_round(
    v: &mut [f32],
    src: &mut [u32],
    t: &mut [Index],
    pass: Pass,
    r: Round,
    k: Kept,
    base: VertexId,
    arcs: VertexId,
) -> Place
    requires { WovenFits pass.write true pass.stroke r base (run_of pass.stroke.near k) (from arcs) (lent v.old src.old t.old) }
    ensures { WeftPasses pass.write (from arcs) (woven_of true pass.stroke r base (run_of pass.stroke.near k.entry)) (lent v.old src.old t.old) (lent v.new src.new t.new) result }
{
    let w = weave_closed(v, src, t, pass, r, k, base, arcs);
    close_round(t, w.place, w.strip, pass.write);
    Place {
        triangles: w.strip.place.vertices + w.place.vertices,
        ..w.place
    }
}

// What is woven into a run; arcs is the number of its first arc's vertex.
fn weave_run(
    v: &mut [f32],
    src: &mut [u32],
    t: &mut [Index],
    pass: Pass,
    r: Round,
    k: Kept,
    base: VertexId,
    arcs: VertexId,
    closed: bool,
) -> Place
    requires { WovenFits pass.write closed pass.stroke r base (run_of pass.stroke.near k) (from arcs) (lent v.old src.old t.old) }
    ensures { WeftPasses pass.write (from arcs) (woven_of closed pass.stroke r base (run_of pass.stroke.near k.entry)) (lent v.old src.old t.old) (lent v.new src.new t.new) result }
{
    if closed {
        return weave_round(v, src, t, pass, r, k, base, arcs);
    }
    let w = weave_open(v, src, t, pass, r, k, base, arcs);
    w.place
}

// The same behind the n vertices of its strip, over the strip's triangles.
pub fn weave_behind(
    v: &mut [f32],
    src: &mut [u32],
    t: &mut [Index],
    pass: Pass,
    r: Round,
    k: Kept,
    base: VertexId,
    closed: bool,
    n: usize,
) -> Place
    requires { WovenFits pass.write closed pass.stroke r base (run_of pass.stroke.near k) (over_strip base n) (lent v.old src.old t.old) }
    ensures { WeftPasses pass.write (over_strip base n) (woven_of closed pass.stroke r base (run_of pass.stroke.near k.entry)) (lent v.old src.old t.old) (lent v.new src.new t.new) result }
{
    let b = place_of(pass.write, n);
    let a = 5 * b;
    let arcs = vertex_after(base, n);
    let woven = weave_run(
        &mut v[a..],
        &mut src[b..],
        t,
        pass,
        r,
        k,
        base,
        arcs,
        closed,
    );
    Place {
        base,
        vertices: n + woven.vertices,
        ..woven
    }
}
