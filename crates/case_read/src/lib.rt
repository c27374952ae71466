// The answer to `read VERBLEN COORDLEN TEXT`: `read NUMBER PLACE VERBS COORDS VERBLIST COORDLIST`.
#![tactic(auto)]

use case_answers::lent::lend;
use case_answers::list_words::read_byte_list;
use lines::words::{BadLine, Words};
use printing::Printer;
use reader::answer::ReadAnswer;
use reader::read;

// The longest lists that a line may ask for.
const VERB_ROOM: usize = 4200;

const COORD_ROOM: usize = 8400;

// A line has at most 262,144 bytes, and a byte of the text takes two of them.
const TEXT_ROOM: usize = 131072;

// The whole line is read before the call is made. Of the rooms, the call is lent as much as the line asks for.
pub fn answer(words: &mut Words, out: &mut Printer) -> Result<(), BadLine> {
    let mut verbs = [0u8; VERB_ROOM];
    let verbs = lend(words, &mut verbs)?;
    let mut coords = [0.0f32; COORD_ROOM];
    let coords = lend(words, &mut coords)?;
    let mut text = [0u8; TEXT_ROOM];
    let text = read_byte_list(words, &mut text)?;
    words.end()?;
    let a = ReadAnswer::from(read(text, verbs, coords));
    out.head(b"read", a.number, a.place as u64);
    out.number(a.verbs as u64);
    out.number(a.coords as u64);
    out.byte_list(verbs);
    out.float_list(coords);
    out.line_end();
    Ok(())
}
