// The answer to `radio VERBLEN COORDLEN N FRAGMENT..`, where a fragment is a byte list, or `!` for a closing call made there:
// `radio NUMBER PLACE VERBS COORDS VERBLIST COORDLIST ANSWERS`, of the closing call that ends the line, then the numbers of the others.
#![tactic(auto)]

mod calls;
mod closes;

use crate::calls::read_call;
use crate::closes::Closes;
use case_answers::lent::lend;
use lines::words::{BadLine, Words};
use printing::Printer;
use radio::answer::report_of;
use radio::{close, start, take};

// The longest lists that a line may ask for.
const VERB_ROOM: usize = 4200;

const COORD_ROOM: usize = 8400;

// A line has at most 262,144 bytes, and a byte of a fragment takes two of them.
const FRAGMENT_ROOM: usize = 131072;

// The calls are made as they are read, and the whole line is read before a word is printed. Of the rooms, the calls are lent as much as the line asks for.
pub fn answer(words: &mut Words, out: &mut Printer) -> Result<(), BadLine> {
    let mut verbs = [0u8; VERB_ROOM];
    let verbs = lend(words, &mut verbs)?;
    let mut coords = [0.0f32; COORD_ROOM];
    let coords = lend(words, &mut coords)?;
    let mut fragment = [0u8; FRAGMENT_ROOM];
    let mut radio = start();
    let mut closes = Closes::new();
    for _ in 0..words.number()? {
        match read_call(words, &mut fragment)? {
            Some(heard) => radio = take(radio, heard, verbs, coords).unwrap_or(radio),
            None => {
                let c = close(radio, verbs, coords);
                radio = c.radio;
                closes.push(report_of(c.report).number);
            }
        }
    }
    words.end()?;
    let a = report_of(close(radio, verbs, coords).report);
    out.head(b"radio", a.number, a.place as u64);
    out.number(a.verbs as u64);
    out.number(a.coords as u64);
    out.byte_list(verbs);
    out.float_list(coords);
    out.number_list(closes.all());
    out.line_end();
    Ok(())
}
