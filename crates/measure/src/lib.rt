// Measuring: how many vertices and triangles the mesh of a path has, before a list is lent.
#![tactic(auto)]

pub mod answer;
pub mod part;

ghost use Rattle.std.specs.Prelude.{◌≡◌};
ghost use Rattle.measure.specs.Answer.{measured_answer_of};
ghost use Rattle.measure.specs.Measure.{measure_of};

use cuts::check_cut_path;
use mesh::answer::MeshSize;
use mesh::count_accepted;
use options::{Options, stroke_of};
use refusals::Refusal;

// Both counts of a path's mesh, or what is wrong with the options, the lengths of its dashes or the path. The count is the mesh call's
// own, of lists that have no places.
pub fn measure(
    verbs: &[u8],
    coords: &[f32],
    options: Options,
    lengths: &[f32],
) -> Result<MeshSize, Refusal>
    ensures { measured_answer_of result ≡ measure_of verbs.now coords.now options lengths.now }
{
    let stroke = stroke_of(options, lengths)?;
    check_cut_path(verbs, coords, lengths, stroke.offset, stroke.near)?;
    let c = count_accepted(verbs, coords, stroke, lengths, &mut [], &mut [], &mut []);
    Ok(MeshSize::from(c))
}
