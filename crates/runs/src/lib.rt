// A pass over the runs of a path: each end verb ends a run, which is counted and, where the pass writes, drawn. ds holds the lengths of its dashes.
#![tactic(auto)]

mod cursor;
mod cut;
pub mod part;

ghost use Rattle.std.specs.Prelude.{false, ◌≡◌};
ghost use Rattle.path.specs.Verbs.{names};
ghost use Rattle.pieces.specs.Piece.{lent, Fits, Passes};
ghost use Rattle.kept.specs.Points.{endpoints_of};
ghost use Rattle.runs.specs.Runs.{runs_of, cut_of, CutsFew, path_runs, mesh_piece};
ghost use Rattle.runs.specs.Cursor.{undrawn, ended_of};
ghost use Rattle.runs.specs.Passes.{Paired, Inside};

use crate::cursor::{Cursor, moved, start};
use crate::cut::draw_cut;
use along::Pass;
use kept::points::Points;
use options::Stroke;
use path::verbs::{END_CLOSED, names_point};
use pieces::{Index, Place, next_vertex};
use woven::place_of;

// The run that a verb ends is drawn, in the parts of the lists that begin where the last run ended. Two passes call it, so that it is a call of
// its own to the compiler, and a verb that names a point costs neither of them one.
fn draw_ended(
    v: &mut [f32],
    src: &mut [u32],
    t: &mut [Index],
    stroke: Stroke,
    write: bool,
    coords: &[f32],
    ds: &[f32],
    g: Cursor,
    verb: u8,
) -> Place
    requires inside { Inside g coords.now }
    requires cuts_few { CutsFew stroke ds.now (ended_of g verb (endpoints_of 0 coords.now)) }
    requires fits { Fits write g.place (mesh_piece stroke g.place (cut_of stroke ds.now (ended_of g verb (endpoints_of 0 coords.now)))) (lent v.old src.old t.old) }
    requires verb_value { names verb ≡ false }
    ensures { Passes write g.place (mesh_piece stroke g.place (cut_of stroke ds.now (ended_of g verb (endpoints_of 0 coords.now)))) (lent v.old src.old t.old) (lent v.new src.new t.new) result }
{
    let i = g.first.0 as usize;
    let from = 2 * i;
    let to = 2 * (i + g.size);
    let pass = Pass { stroke, write };
    let a = place_of(write, 5 * g.place.vertices);
    let b = place_of(write, g.place.vertices);
    let c = place_of(write, 3 * g.place.triangles);
    let points = Points {
        coords: &coords[from..to],
        first: g.first,
    };
    let run = draw_cut(
        &mut v[a..],
        &mut src[b..],
        &mut t[c..],
        pass,
        points,
        next_vertex(g.place),
        verb == END_CLOSED,
        ds,
    );
    Place {
        vertices: g.place.vertices + run.vertices,
        triangles: g.place.triangles + run.triangles,
        ..g.place
    }
}

// Only a verb that ends a run draws.
fn draw_verb(
    v: &mut [f32],
    src: &mut [u32],
    t: &mut [Index],
    pass: Pass,
    coords: &[f32],
    ds: &[f32],
    g: Cursor,
    verb: u8,
) -> Place
    requires inside { Inside g coords.now }
    requires cuts_few { CutsFew pass.stroke ds.now (ended_of g verb (endpoints_of 0 coords.now)) }
    requires fits { Fits pass.write g.place (mesh_piece pass.stroke g.place (cut_of pass.stroke ds.now (ended_of g verb (endpoints_of 0 coords.now)))) (lent v.old src.old t.old) }
    ensures { Passes pass.write g.place (mesh_piece pass.stroke g.place (cut_of pass.stroke ds.now (ended_of g verb (endpoints_of 0 coords.now)))) (lent v.old src.old t.old) (lent v.new src.new t.new) result }
{
    if names_point(verb) {
        return g.place;
    }
    // A copy, so that the pass keeps its own cursor in registers.
    let ended = g;
    draw_ended(v, src, t, pass.stroke, pass.write, coords, ds, ended, verb)
}

pub fn draw_runs(
    v: &mut [f32],
    src: &mut [u32],
    t: &mut [Index],
    pass: Pass,
    verbs: &[u8],
    coords: &[f32],
    ds: &[f32],
) -> Place
    requires paired { Paired verbs.now coords.now }
    requires cuts_few { CutsFew pass.stroke ds.now (runs_of verbs.now coords.now) }
    requires fits { Fits pass.write undrawn (mesh_piece pass.stroke undrawn (path_runs pass.stroke ds.now verbs.now coords.now)) (lent v.old src.old t.old) }
    ensures { Passes pass.write undrawn (mesh_piece pass.stroke undrawn (path_runs pass.stroke ds.now verbs.now coords.now)) (lent v.old src.old t.old) (lent v.new src.new t.new) result }
{
    let mut g = start();
    for verb in verbs {
        let place = draw_verb(v, src, t, pass, coords, ds, g, *verb);
        g = moved(g, *verb, place);
    }
    g.place
}
