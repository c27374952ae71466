// A pass that only counts: what all runs need and, of the run that is asked for, which of the vertices are its own.
ghost use Rattle.std.specs.Prelude.{false, ◌≡◌, [], ◌<◌, length};
ghost use Rattle.endpoint.specs.Endpoint.{id_limit};
ghost use Rattle.kept.specs.Points.{endpoints_of};
ghost use Rattle.pieces.specs.Piece.{lent, Fits, Passes};
ghost use Rattle.runs.specs.Cursor.{undrawn, ended_of};
ghost use Rattle.runs.specs.Part.{noted_of, told_of};
ghost use Rattle.runs.specs.Passes.{Paired, Inside};
ghost use Rattle.runs.specs.Runs.{runs_of, cut_of, CutsFew, path_runs, mesh_piece};

use crate::cursor::{Cursor, moved, start};
use crate::draw_ended;
use options::Stroke;
use path::verbs::names_point;
use pieces::{Index, Place};

// How many runs have ended, and the vertices before the run that is asked for and up to its end, as far as they are drawn.
#[derive(Clone, Copy)]
pub struct Seen {
    pub ended: usize,
    pub before: usize,
    pub through: usize,
}

// What all runs need, and what was seen of the one.
#[derive(Clone, Copy)]
pub struct Told {
    pub place: Place,
    pub seen: Seen,
}

// Behind a verb, where so many vertices are drawn: one that ends a run makes one run more.
fn noted(s: Seen, run: usize, verb: u8, drawn: usize) -> Seen
    requires { s.ended < id_limit }
    ensures { result ≡ noted_of s run verb drawn }
{
    if names_point(verb) {
        return s;
    }
    let ended = s.ended + 1;
    if s.ended < run {
        return Seen {
            ended,
            before: drawn,
            through: drawn,
        };
    }
    if s.ended <= run {
        return Seen {
            ended,
            through: drawn,
            ..s
        };
    }
    Seen { ended, ..s }
}

// What a verb draws, counted.
fn count_verb(
    v: &mut [f32],
    src: &mut [u32],
    t: &mut [Index],
    stroke: Stroke,
    coords: &[f32],
    ds: &[f32],
    g: Cursor,
    verb: u8,
) -> Place
    requires inside { Inside g coords.now }
    requires cuts_few { CutsFew stroke ds.now (ended_of g verb (endpoints_of 0 coords.now)) }
    requires fits { Fits false g.place (mesh_piece stroke g.place (cut_of stroke ds.now (ended_of g verb (endpoints_of 0 coords.now)))) (lent v.old src.old t.old) }
    ensures { Passes false g.place (mesh_piece stroke g.place (cut_of stroke ds.now (ended_of g verb (endpoints_of 0 coords.now)))) (lent v.old src.old t.old) (lent v.new src.new t.new) result }
{
    if names_point(verb) {
        return g.place;
    }
    draw_ended(v, src, t, stroke, false, coords, ds, g, verb)
}

fn count_seen(
    v: &mut [f32],
    src: &mut [u32],
    t: &mut [Index],
    stroke: Stroke,
    verbs: &[u8],
    coords: &[f32],
    ds: &[f32],
    run: usize,
) -> Told
    requires paired { Paired verbs.now coords.now }
    requires verbs_len_bound { length verbs.now < id_limit }
    requires cuts_few { CutsFew stroke ds.now (runs_of verbs.now coords.now) }
    requires fits { Fits false undrawn (mesh_piece stroke undrawn (path_runs stroke ds.now verbs.now coords.now)) (lent v.old src.old t.old) }
    ensures { result ≡ told_of stroke ds.now run (runs_of verbs.now coords.now) }
{
    let mut g = start();
    let mut s = Seen {
        ended: 0,
        before: 0,
        through: 0,
    };
    for verb in verbs {
        let place = count_verb(v, src, t, stroke, coords, ds, g, *verb);
        s = noted(s, run, *verb, place.vertices);
        g = moved(g, *verb, place);
    }
    Told {
        place: g.place,
        seen: s,
    }
}

// What all runs need, and where the vertices of the run of that number stand among theirs.
pub fn count_run(verbs: &[u8], coords: &[f32], stroke: Stroke, ds: &[f32], run: usize) -> Told
    requires paired { Paired verbs.now coords.now }
    requires verbs_len_bound { length verbs.now < id_limit }
    requires cuts_few { CutsFew stroke ds.now (runs_of verbs.now coords.now) }
    requires fits { Fits false undrawn (mesh_piece stroke undrawn (path_runs stroke ds.now verbs.now coords.now)) (lent [] [] []) }
    ensures { result ≡ told_of stroke ds.now run (runs_of verbs.now coords.now) }
{
    let mut v = [0.0f32; 0];
    let mut src = [0u32; 0];
    let mut t: [Index; 0] = [0; 0];
    count_seen(&mut v, &mut src, &mut t, stroke, verbs, coords, ds, run)
}
