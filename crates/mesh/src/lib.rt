// The mesh call: from a path and its options to a mesh, or to one refusal of document 01's table.
#![tactic(auto)]

pub mod answer;

ghost use Rattle.std.specs.Prelude.{◌≡◌};
ghost use Rattle.pieces.specs.Piece.{lent};
ghost use Rattle.path.specs.Path.{Sound};
ghost use Rattle.runs.specs.Runs.{runs_of, CutsFew, path_runs};
ghost use Rattle.mesh.specs.Mesh.{answered, accepted_of, outcome_of};
ghost use Rattle.mesh.specs.Parts.{Counted};

use crate::answer::{MeshError, MeshSize, Rooms, is_plenty, judged};
use along::Pass;
use cuts::check_cut_path;
use options::{Options, Stroke, level_of, stroke_of};
use pieces::{Index, Place};
use runs::draw_runs;

// What an accepted path needs, counted by a pass that is lent no places.
pub fn count_accepted(
    verbs: &[u8],
    coords: &[f32],
    stroke: Stroke,
    lengths: &[f32],
    vertices: &mut [f32],
    sources: &mut [u32],
    triangles: &mut [Index],
) -> Place
    requires { Sound verbs.now coords.now × CutsFew stroke lengths.now (runs_of verbs.now coords.now) }
    ensures { Counted stroke (path_runs stroke lengths.now verbs.now coords.now) (lent vertices.old sources.old triangles.old) (lent vertices.new sources.new triangles.new) result }
{
    let count = Pass {
        stroke,
        write: false,
    };
    draw_runs(
        &mut vertices[..0],
        &mut sources[..0],
        &mut triangles[..0],
        count,
        verbs,
        coords,
        lengths,
    )
}

// An accepted path is drawn where there is room for all of it. It is counted first only where the room might not do, and where it is cut.
fn mesh_accepted(
    verbs: &[u8],
    coords: &[f32],
    stroke: Stroke,
    lengths: &[f32],
    vertices: &mut [f32],
    sources: &mut [u32],
    triangles: &mut [Index],
) -> Result<MeshSize, MeshError>
    requires { Sound verbs.now coords.now × CutsFew stroke lengths.now (runs_of verbs.now coords.now) }
    ensures { answered result vertices.new sources.new triangles.new ≡ accepted_of (lent vertices.old sources.old triangles.old) stroke (path_runs stroke lengths.now verbs.now coords.now) }
{
    let rooms = Rooms {
        vertices: (vertices.len() / 5).min(sources.len()),
        triangles: triangles.len() / 3,
    };
    let draw = Pass {
        stroke,
        write: true,
    };
    if is_plenty(rooms, coords.len(), level_of(stroke)) && lengths.is_empty() {
        let d = draw_runs(vertices, sources, triangles, draw, verbs, coords, lengths);
        return Ok(MeshSize::from(d));
    }
    let c = count_accepted(verbs, coords, stroke, lengths, vertices, sources, triangles);
    let size = judged(c, rooms)?;
    draw_runs(vertices, sources, triangles, draw, verbs, coords, lengths);
    Ok(size)
}

// Strokes a path. The vertices go to the start of one list, five floats each, and where each came from to the start of the next;
// the triangles to the start of the last, three vertex numbers each. A refusal changes none. lengths has those of the dashes and gaps in
// turn, 1 to 16 of them, each 1/4 to 32,768; an empty list means no dashes.
pub fn tessellate(
    verbs: &[u8],
    coords: &[f32],
    options: Options,
    lengths: &[f32],
    vertices: &mut [f32],
    sources: &mut [u32],
    triangles: &mut [Index],
) -> Result<MeshSize, MeshError>
    ensures { answered result vertices.new sources.new triangles.new ≡ outcome_of verbs.now coords.now options lengths.now (lent vertices.old sources.old triangles.old) }
{
    let stroke = stroke_of(options, lengths)?;
    check_cut_path(verbs, coords, lengths, stroke.offset, stroke.near)?;
    mesh_accepted(verbs, coords, stroke, lengths, vertices, sources, triangles)
}
