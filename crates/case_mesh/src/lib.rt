// The answer to `mesh WIDTH LIMIT JOIN CAP MERGE DETAIL OFFSET DASHES VERTEXLEN SOURCELEN TRIANGLELEN VERBS COORDS`: `mesh NUMBER PLACE VERTICES TRIANGLES
// VERTEXLIST SOURCELIST TRIANGLELIST`.
#![tactic(auto)]

pub mod front;

ghost use Rattle.std.specs.Prelude.{◌≤◌};

use crate::front::{
    COORD_ROOM, DASH_ROOM, SOURCE_ROOM, TRIANGLE_ROOM, VERB_ROOM, VERTEX_ROOM, read_options,
};
use case_answers::lent::fill;
use case_answers::list_words::{read_byte_list, read_float_list};
use lines::words::{BadLine, Words};
use mesh::answer::MeshAnswer;
use mesh::tessellate;
use options::Options;
use printing::Printer;

// The whole line is read before the call is made. Its rooms stand before the first `?`: one behind it would be cleared when the call begins, and again where it stands.
pub fn answer(words: &mut Words, out: &mut Printer) -> Result<(), BadLine> {
    let mut lengths = [0.0f32; DASH_ROOM];
    let mut verbs = [0u8; VERB_ROOM];
    let mut coords = [0.0f32; COORD_ROOM];
    let options = read_options(words)?;
    let lengths = read_float_list(words, &mut lengths)?;
    let floats = words.number_up_to(VERTEX_ROOM as u64)? as usize;
    let sources = words.number_up_to(SOURCE_ROOM as u64)? as usize;
    let numbers = words.number_up_to(TRIANGLE_ROOM as u64)? as usize;
    let verbs = read_byte_list(words, &mut verbs)?;
    let coords = read_float_list(words, &mut coords)?;
    words.end()?;
    answer_mesh(
        out, options, lengths, verbs, coords, floats, sources, numbers,
    );
    Ok(())
}

// Of the rooms, the call is lent as much as the line asks for. A bad line clears none of them.
fn answer_mesh(
    out: &mut Printer,
    options: Options,
    lengths: &[f32],
    verbs: &[u8],
    coords: &[f32],
    floats: usize,
    sources: usize,
    numbers: usize,
)
    requires { (floats ≤ 81920) × (sources ≤ 49152) × (numbers ≤ 49152) }
{
    let mut v = [0.0f32; VERTEX_ROOM];
    let mut s = [0u32; SOURCE_ROOM];
    let mut t = [0u32; TRIANGLE_ROOM];
    let v = &mut v[..floats];
    let s = &mut s[..sources];
    let t = &mut t[..numbers];
    fill(v);
    fill(s);
    fill(t);
    let a = MeshAnswer::from(tessellate(verbs, coords, options, lengths, v, s, t));
    out.head(b"mesh", a.number, a.place as u64);
    out.number(a.vertices as u64);
    out.number(a.triangles as u64);
    out.mesh_lists(v, s, t);
}
