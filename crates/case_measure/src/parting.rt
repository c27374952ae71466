// `part WIDTH LIMIT JOIN CAP MERGE DETAIL OFFSET DASHES RUN VERTEXLEN VERBS COORDS`, answered `part NUMBER PLACE START LIST`.
ghost use Rattle.std.specs.Prelude.{◌≤◌};

use case_answers::lent::fill;
use case_answers::list_words::{read_byte_list, read_float_list};
use case_mesh::front::{
    COORD_ROOM, DASH_ROOM, SOURCE_ROOM, TRIANGLE_ROOM, VERB_ROOM, VERTEX_ROOM, read_options,
};
use lines::words::{BadLine, Words};
use measure::answer::PartAnswer;
use measure::part::{find_run, run_vertices};
use mesh::tessellate;
use options::Options;
use printing::Printer;

// The whole line is read before the calls are made. Its rooms stand before the first `?`: one behind it would be cleared when the call begins, and again where it stands.
pub fn answer(words: &mut Words, out: &mut Printer) -> Result<(), BadLine> {
    let mut lengths = [0.0f32; DASH_ROOM];
    let mut verbs = [0u8; VERB_ROOM];
    let mut coords = [0.0f32; COORD_ROOM];
    let options = read_options(words)?;
    let lengths = read_float_list(words, &mut lengths)?;
    let run = words.number()? as usize;
    let floats = words.number_up_to(VERTEX_ROOM as u64)? as usize;
    let verbs = read_byte_list(words, &mut verbs)?;
    let coords = read_float_list(words, &mut coords)?;
    words.end()?;
    answer_part(out, options, lengths, verbs, coords, run, floats);
    Ok(())
}

// The list is written by the mesh call, with room for the sources and triangles of the most vertices that it can hold. A bad line clears none of it.
fn answer_part(
    out: &mut Printer,
    options: Options,
    lengths: &[f32],
    verbs: &[u8],
    coords: &[f32],
    run: usize,
    floats: usize,
)
    requires { floats ≤ 81920 }
{
    let mut v = [0.0f32; VERTEX_ROOM];
    let mut s = [0u32; SOURCE_ROOM];
    let mut t = [0u32; TRIANGLE_ROOM];
    let v = &mut v[..floats];
    fill(v);
    let _ = tessellate(verbs, coords, options, lengths, v, &mut s, &mut t);
    let a = PartAnswer::from(find_run(verbs, coords, options, lengths, run, v.len()));
    let part = run_vertices(verbs, coords, options, lengths, run, v);
    out.head(b"part", a.number, a.place as u64);
    out.number(a.start as u64);
    out.float_list(part.unwrap_or(&[]));
    out.line_end();
}
