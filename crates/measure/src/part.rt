// The part of a mesh's vertex list that one run wrote.
ghost use Rattle.std.specs.Prelude.{◌≡◌};
ghost use Rattle.measure.specs.Answer.{part_answer_of};
ghost use Rattle.measure.specs.Part.{part_of, handed_answer_of, handed_of};
ghost use Rattle.measure.specs.Judged.{Judgeable, judged_of};

use crate::answer::{Part, PartError};
use cuts::check_cut_path;
use options::{Options, stroke_of};
use runs::part::{Told, count_run};

// Refusals 6 and 19, by what the runs of an accepted path need.
fn judged(told: Told, run: usize, room: usize) -> Result<Part, PartError>
    requires { Judgeable told }
    ensures { part_answer_of result ≡ judged_of told run room }
{
    let seen = told.seen;
    if room < told.place.vertices {
        return Err(PartError::VertexRoom);
    }
    if seen.ended <= run {
        return Err(PartError::NoRun);
    }
    let length = 5 * (seen.through - seen.before);
    let start = if length == 0 { 0 } else { 5 * seen.before };
    Ok(Part { start, length })
}

// Where the part stands that the run of that number, from 0 over the begin verbs, wrote to a vertex list of so many floats.
pub fn find_run(
    verbs: &[u8],
    coords: &[f32],
    options: Options,
    lengths: &[f32],
    run: usize,
    floats: usize,
) -> Result<Part, PartError>
    ensures { part_answer_of result ≡ part_of verbs.now coords.now options lengths.now run floats }
{
    let stroke = stroke_of(options, lengths)?;
    check_cut_path(verbs, coords, lengths, stroke.offset, stroke.near)?;
    let told = count_run(verbs, coords, stroke, lengths, run);
    judged(told, run, floats / 5)
}

// Hands that part back, of a list that the mesh call wrote.
pub fn run_vertices<'a>(
    verbs: &[u8],
    coords: &[f32],
    options: Options,
    lengths: &[f32],
    run: usize,
    vertices: &'a [f32],
) -> Result<&'a [f32], PartError>
    ensures { handed_answer_of result ≡ handed_of verbs.now coords.now options lengths.now run vertices.now }
{
    let part = find_run(verbs, coords, options, lengths, run, vertices.len())?;
    Ok(&vertices[part.start..part.start + part.length])
}
