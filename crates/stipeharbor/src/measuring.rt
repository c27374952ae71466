// W-210's two calls: measuring, and where a run's part of a vertex list stands.
ghost use Rattle.std.specs.Prelude.{◌≡◌};
ghost use Rattle.stipeharbor.specs.Calls.{options_of};
ghost use Rattle.stipeharbor.specs.Measuring.{measure_out_of, part_out_of};

use lists::put_over;
use measure::answer::{PartAnswer, measured_answer_of};
use measure::measure;
use measure::part::find_run;
use options::Options;

// Measures a mesh. `answer` gets the place, the number of vertices and the number of triangles.
#[unsafe(no_mangle)]
pub extern "C" fn stipeharbor_measure(
    verbs: &[u8],
    coords: &[f32],
    width: f32,
    miter_limit: f32,
    line_join: u32,
    line_cap: u32,
    merge_range: f32,
    detail: u32,
    dash_offset: f32,
    dashes: &[f32],
    answer: &mut [usize],
) -> u32
    ensures { record { number = result; answer = answer.new } ≡ measure_out_of verbs.now coords.now (options_of width miter_limit line_join line_cap merge_range detail dash_offset) dashes.now answer.old }
{
    let options = Options {
        width,
        miter_limit,
        line_join,
        cap: line_cap,
        merge_range,
        detail,
        offset: dash_offset,
    };
    let a = measured_answer_of(measure(verbs, coords, options, dashes));
    put_over(answer, &[a.place, a.vertices, a.triangles]);
    a.number
}

// Finds a run's part of a vertex list that the mesh call wrote; of the list only the length counts. `answer` gets the place, the
// part's start and its length, both in floats.
#[unsafe(no_mangle)]
pub extern "C" fn stipeharbor_run_part(
    verbs: &[u8],
    coords: &[f32],
    width: f32,
    miter_limit: f32,
    line_join: u32,
    line_cap: u32,
    merge_range: f32,
    detail: u32,
    dash_offset: f32,
    dashes: &[f32],
    run: usize,
    vertices: &[f32],
    answer: &mut [usize],
) -> u32
    ensures { record { number = result; answer = answer.new } ≡ part_out_of verbs.now coords.now (options_of width miter_limit line_join line_cap merge_range detail dash_offset) dashes.now run vertices.now answer.old }
{
    let options = Options {
        width,
        miter_limit,
        line_join,
        cap: line_cap,
        merge_range,
        detail,
        offset: dash_offset,
    };
    let a = PartAnswer::from(find_run(verbs, coords, options, dashes, run, vertices.len()));
    put_over(answer, &[a.place, a.start, a.length]);
    a.number
}
