// One joint of a round run woven into it (W-209): the strip's triangles past the joint, with the arcs' between them.
#![tactic(auto)]

ghost use Rattle.std.specs.Prelude.{true, [], ◌∷◌, ◌≡◌, ◌+◌, ◌<◌, ◌≤◌};
ghost use Rattle.endpoint.specs.Endpoint.{id_limit};
ghost use Rattle.pieces.specs.Piece.{lent};
ghost use Rattle.strip.specs.Triangle.{between};
ghost use Rattle.fans.specs.Weft.{WeftFits, WeftPasses};
ghost use Rattle.bends.specs.Bend.{edge_faces, due_weft, arcs_weft, end_weft, bend_weft, bend_size, FaceFits, Faced, BendFits, CountFits, counted_of};
ghost use Rattle.bends.specs.Weave.{WeaveFits, WeavePasses};

use endpoint::{EndpointData, Side};
use fans::{Round, arc_size, fan_size, gets_arc, lay_end_fan, lay_side, lay_start_fan};
use joints::joint::start_cap;
use joints::leg::Leg;
use options::Stroke;
use pieces::{Index, Place, next_vertex};
use plane::vector::negated;
use strip::joint::{negative_count, positive_count};
use strip::section::{Section, after, before};
use strip::triangle::put_between;
use strip::{Strip, step};

// A joint with the leg that ends in it, and whether it is the end cap.
#[derive(Clone, Copy)]
pub struct Bend {
    pub joint: EndpointData,
    pub leg: Leg,
    pub end: bool,
}

// How far the weaving has come: the strip that it goes along, where the next arc's vertex and the next triangle go, and whether the start cap's fan is due
// behind the next edge.
#[derive(Clone, Copy)]
pub struct Weave {
    pub strip: Strip,
    pub place: Place,
    pub due: bool,
}

// The triangles from one section to the next.
fn lay_between(t: &mut [Index], k: Place, s: Section, e: Section) -> Place
    requires { FaceFits k (between s e) t.old }
    ensures { Faced k (between s e) t.old t.new result }
{
    let n = put_between(&mut t[3 * k.triangles..], s, e);
    Place {
        triangles: k.triangles + n,
        ..k
    }
}

// From the last section of a run that has begun.
fn lay_edge(t: &mut [Index], k: Place, s: Strip, b: Section) -> Place
    requires { FaceFits k (edge_faces s b) t.old }
    ensures { Faced k (edge_faces s b) t.old t.new result }
{
    if s.begun {
        lay_between(t, k, s.last, b)
    } else {
        k
    }
}

// The start cap's fan, where it is due. The leg is the first.
fn lay_due(
    v: &mut [f32],
    src: &mut [u32],
    t: &mut [Index],
    k: Place,
    o: Stroke,
    r: Round,
    w: Weave,
    leg: Leg,
) -> Place
    requires id_lt_id_limit { leg.from.id.0 < id_limit }
    requires weft_fits { WeftFits true k (due_weft o r w.due w.strip leg) (lent v.old src.old t.old) }
    ensures { WeftPasses true k (due_weft o r w.due w.strip leg) (lent v.old src.old t.old) (lent v.new src.new t.new) result }
{
    if w.due {
        let last = w.strip.last;
        lay_start_fan(
            v,
            src,
            t,
            k,
            start_cap(o, leg),
            last.negative,
            last.positive,
            negated(leg.edge.t),
            r.detail,
        )
    } else {
        k
    }
}

// The arcs of both sides; s is the section before the joint.
fn lay_arcs(
    v: &mut [f32],
    src: &mut [u32],
    t: &mut [Index],
    k: Place,
    r: Round,
    b: Bend,
    s: Section,
) -> Place
    requires positive_bound { (s.positive.0 + 1 < id_limit) × (s.negative.0 + 1 < id_limit) × (b.joint.id.0 < id_limit) }
    requires weft_fits { WeftFits true k (arcs_weft r b s) (lent v.old src.old t.old) }
    ensures { WeftPasses true k (arcs_weft r b s) (lent v.old src.old t.old) (lent v.new src.new t.new) result }
{
    let t_in = b.leg.edge.t;
    let p = lay_side(v, src, t, k, b.joint, Side::Positive, s.positive, t_in, r);
    lay_side(v, src, t, p, b.joint, Side::Negative, s.negative, t_in, r)
}

// The end cap's fan.
fn lay_end(
    v: &mut [f32],
    src: &mut [u32],
    t: &mut [Index],
    k: Place,
    r: Round,
    b: Bend,
    s: Section,
) -> Place
    requires id_lt_id_limit { b.joint.id.0 < id_limit }
    requires weft_fits { WeftFits true k (end_weft r b s) (lent v.old src.old t.old) }
    ensures { WeftPasses true k (end_weft r b s) (lent v.old src.old t.old) (lent v.new src.new t.new) result }
{
    if b.end && r.caps {
        lay_end_fan(
            v,
            src,
            t,
            k,
            b.joint,
            s.negative,
            s.positive,
            b.leg.edge.t,
            r.detail,
        )
    } else {
        k
    }
}

// All that a joint brings.
fn lay_bend(
    v: &mut [f32],
    src: &mut [u32],
    t: &mut [Index],
    o: Stroke,
    r: Round,
    w: Weave,
    b: Bend,
) -> Place
    requires { BendFits true o r w b (lent v.old src.old t.old) }
    ensures { WeftPasses true w.place (bend_weft o r w.strip w.due b) (lent v.old src.old t.old) (lent v.new src.new t.new) result }
{
    let next = next_vertex(w.strip.place);
    let s = before(next, b.joint);
    let e = after(next, b.joint);
    let edge = lay_edge(t, w.place, w.strip, s);
    let due = lay_due(v, src, t, edge, o, r, w, b.leg);
    let own = lay_between(t, due, s, e);
    let arcs = lay_arcs(v, src, t, own, r, b, s);
    lay_end(v, src, t, arcs, r, b, s)
}

// How many vertices its arcs have.
fn bend_size(r: Round, due: bool, b: Bend) -> usize
    requires { r.detail ≤ 6 }
    ensures { result ≡ bend_size r due b }
{
    let level = r.detail;
    let p = arc_size(gets_arc(r.joins, b.joint, Side::Positive), level);
    let n = arc_size(gets_arc(r.joins, b.joint, Side::Negative), level);
    fan_size(due, level) + (p + n) + fan_size(b.end && r.caps, level)
}

// The same, counted: the strip's own triangles are those of its next state.
fn count_bend(r: Round, w: Weave, b: Bend, next: Strip) -> Place
    requires { CountFits r w b next }
    ensures { result ≡ counted_of r w b next }
{
    let k = w.place;
    let own = next.place.triangles - w.strip.place.triangles;
    let n = bend_size(r, w.due, b);
    Place {
        vertices: k.vertices + n,
        triangles: k.triangles + own + n,
        ..k
    }
}

// The place behind a joint, which is written or only counted.
fn place_bend(
    v: &mut [f32],
    src: &mut [u32],
    t: &mut [Index],
    write: bool,
    o: Stroke,
    r: Round,
    w: Weave,
    b: Bend,
    next: Strip,
) -> Place
    requires bend_fits { BendFits write o r w b (lent v.old src.old t.old) }
    requires count_fits { CountFits r w b next }
    ensures { WeftPasses write w.place (bend_weft o r w.strip w.due b) (lent v.old src.old t.old) (lent v.new src.new t.new) result }
{
    if write {
        lay_bend(v, src, t, o, r, w, b)
    } else {
        count_bend(r, w, b, next)
    }
}

// One joint more.
pub fn pass_bend(
    v: &mut [f32],
    src: &mut [u32],
    t: &mut [Index],
    write: bool,
    o: Stroke,
    r: Round,
    w: Weave,
    b: Bend,
) -> Weave
    requires { WeaveFits write o r w (b ∷ []) (lent v.old src.old t.old) }
    ensures { WeavePasses write o r (b ∷ []) w (lent v.old src.old t.old) (lent v.new src.new t.new) result }
{
    let p = positive_count(b.joint);
    let n = negative_count(b.joint);
    let next = step(w.strip, p, n);
    Weave {
        strip: next,
        place: place_bend(v, src, t, write, o, r, w, b, next),
        due: false,
    }
}
