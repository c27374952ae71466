// `measure WIDTH LIMIT JOIN CAP MERGE DETAIL OFFSET DASHES VERBS COORDS`, answered `measure NUMBER PLACE VERTICES TRIANGLES`.
use case_answers::list_words::{read_byte_list, read_float_list};
use case_mesh::front::{COORD_ROOM, DASH_ROOM, VERB_ROOM, read_options};
use lines::words::{BadLine, Words};
use measure::answer::measured_answer_of;
use measure::measure;
use printing::Printer;

// The whole line is read before the call is made. Its rooms stand before the first `?`: one behind it would be cleared when the call begins, and again where it stands.
pub fn answer(words: &mut Words, out: &mut Printer) -> Result<(), BadLine> {
    let mut lengths = [0.0f32; DASH_ROOM];
    let mut verbs = [0u8; VERB_ROOM];
    let mut coords = [0.0f32; COORD_ROOM];
    let options = read_options(words)?;
    let lengths = read_float_list(words, &mut lengths)?;
    let verbs = read_byte_list(words, &mut verbs)?;
    let coords = read_float_list(words, &mut coords)?;
    words.end()?;
    let a = measured_answer_of(measure(verbs, coords, options, lengths));
    out.head(b"measure", a.number, a.place as u64);
    out.number(a.vertices as u64);
    out.number(a.triangles as u64);
    out.line_end();
    Ok(())
}
