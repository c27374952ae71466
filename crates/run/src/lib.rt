// A run of a path, drawn at the start of the lists that are lent (rule 2): a strip along its joints, an empty cap, or nothing.
#![tactic(auto)]

mod alone;

ghost use Rattle.std.specs.Prelude.{false, ◌≤◌, ◌≡◌, length};
ghost use Rattle.joints.specs.Joint.{joints_of};
ghost use Rattle.kept.specs.Kept.{kept_points};
ghost use Rattle.kept.specs.Held.{points_of, run_of};
ghost use Rattle.pieces.specs.Piece.{lent};
ghost use Rattle.strip.specs.Strip.{start_of, StripFits, StripPasses};
ghost use Rattle.run.specs.Run.{strip_shape, round_of, shape_of_kept, shape_of, DrawFits, Draws};

use crate::alone::draw_alone;
use along::Pass;
use along::strips::{pass_closed, pass_open};
use endpoint::VertexId;
use fans::Round;
use kept::points::{Kept, Points};
use kept::{first_far, kept_end};
use options::{Stroke, is_round, level_of, rounds_caps, rounds_joins};
use pieces::{Index, Place};
use strip::Strip;
use woven::{close_round, weave_behind};

// What rule 2 asks of a run: whether its end is closed, and whether it has a line.
#[derive(Clone, Copy)]
pub struct Ends {
    pub closed: bool,
    pub lines: bool,
}

// What of a stroke is round, and how deep its arcs go.
pub fn round_of(o: Stroke) -> Round
    ensures { result ≡ round_of o }
{
    Round {
        joins: rounds_joins(o.line_join),
        caps: rounds_caps(o.cap),
        detail: level_of(o),
    }
}

// The strip of a run of two kept points or more. It is passed along here alone, so that the compiler has the whole of a point's work in one function.
fn pass_strip(
    v: &mut [f32],
    src: &mut [u32],
    t: &mut [Index],
    pass: Pass,
    k: Kept,
    base: VertexId,
    closed: bool,
) -> Strip
    requires { StripFits pass.write (start_of base) (joints_of closed pass.stroke (run_of pass.stroke.near k)) (lent v.old src.old t.old) }
    ensures { StripPasses pass.write (joints_of closed pass.stroke (run_of pass.stroke.near k.entry)) (start_of base) (lent v.old src.old t.old) (lent v.new src.new t.new) result }
{
    if closed {
        return pass_closed(v, src, t, pass, k, base);
    }
    pass_open(v, src, t, pass, k, base)
}

// A run of two kept points or more: its strip, and what is woven in where it is round. A closed run has as many triangles as vertices.
fn draw_strip(
    v: &mut [f32],
    src: &mut [u32],
    t: &mut [Index],
    pass: Pass,
    k: Kept,
    base: VertexId,
    closed: bool,
) -> Place
    requires { DrawFits pass closed base (strip_shape closed pass.stroke (run_of pass.stroke.near k)) (lent v.old src.old t.old) }
    ensures { Draws pass closed base (strip_shape closed pass.stroke (run_of pass.stroke.near k.entry)) (lent v.old src.old t.old) (lent v.new src.new t.new) result }
{
    let s = pass_strip(v, src, t, pass, k, base, closed);
    let end = s.place;
    if is_round(pass.stroke) {
        let r = round_of(pass.stroke);
        return weave_behind(v, src, t, pass, r, k, base, closed, end.vertices);
    }
    if closed {
        close_round(t, end, s, pass.write);
        return Place {
            triangles: end.vertices,
            ..end
        };
    }
    end
}

// Points of which none is dropped on closing.
fn draw_kept(
    v: &mut [f32],
    src: &mut [u32],
    t: &mut [Index],
    pass: Pass,
    p: Points,
    base: VertexId,
    ends: Ends,
) -> Place
    requires in_bounds { 2 ≤ length p.coords.now }
    requires draw_fits { DrawFits pass ends.closed base (shape_of_kept pass.stroke ends.closed ends.lines (kept_points pass.stroke.near false (points_of p))) (lent v.old src.old t.old) }
    ensures { Draws pass ends.closed base (shape_of_kept pass.stroke ends.closed ends.lines (kept_points pass.stroke.near false (points_of p.entry))) (lent v.old src.old t.old) (lent v.new src.new t.new) result }
{
    let second = first_far(pass.stroke.near, p);
    if p.count() <= second {
        return draw_alone(v, src, t, pass, p.at(0), base, ends);
    }
    let k = Kept { points: p, second };
    draw_strip(v, src, t, pass, k, base, ends.closed)
}

// A run. The result is the place behind it.
pub fn draw_run(
    v: &mut [f32],
    src: &mut [u32],
    t: &mut [Index],
    pass: Pass,
    p: Points,
    base: VertexId,
    closed: bool,
) -> Place
    requires { DrawFits pass closed base (shape_of pass.stroke closed (points_of p)) (lent v.old src.old t.old) }
    ensures { Draws pass closed base (shape_of pass.stroke closed (points_of p.entry)) (lent v.old src.old t.old) (lent v.new src.new t.new) result }
{
    if p.coords.len() < 2 {
        return Place {
            base,
            vertices: 0,
            triangles: 0,
        };
    }
    let ends = Ends {
        closed,
        lines: 1 < p.count(),
    };
    if closed {
        let to = 2 * kept_end(pass.stroke.near, p);
        return draw_kept(v, src, t, pass, p.up_to(to), base, ends);
    }
    draw_kept(v, src, t, pass, p, base, ends)
}
