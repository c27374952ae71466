// The reader of path text: from text to a path, or to one refusal of document 01's table.
#![tactic(auto)]

pub mod answer;
pub mod counts;
pub mod pass;

ghost use Rattle.std.specs.Prelude.{◌≡◌, ◌≤◌, length};
ghost use Rattle.reader.specs.Answer.{text_limit, read_answer_of};
ghost use Rattle.reader.specs.Read.{through_of};
ghost use Rattle.reader.specs.Reads.{Reads};

use crate::answer::{PathSize, ReadError, judged};
use crate::pass::{Passage, pass, set_out};

// No path text has more bytes than this (refusal 8).
pub const TEXT_LIMIT: usize = 1048576;

// Behind the last byte stands an M: the end of a text calls for what it would, and a text may end where an M may follow.
pub const END: u8 = b'M';

// A text whole, with its end.
#[tactic(auto, unfolding(crate::specs::Read::through_of))]
fn through(text: &[u8], verbs: &mut [u8], coords: &mut [f32]) -> Passage
    requires { length text.now ≤ text_limit }
    ensures { record { passage = result; verbs = verbs.new; coords = coords.new } ≡ through_of verbs.old coords.old text.now }
{
    let p = pass(set_out(), text, verbs, coords);
    pass(p, &[END], verbs, coords)
}

// Reads a path text: one pass that counts, and one that writes where nothing is refused. The verbs go to the start of one list, the
// coordinates to the start of the other. A refusal changes neither.
pub fn read(text: &[u8], verbs: &mut [u8], coords: &mut [f32]) -> Result<PathSize, ReadError>
    ensures { Reads text.now verbs.old coords.old (record { answer = read_answer_of result; verbs = verbs.new; coords = coords.new }) }
{
    if TEXT_LIMIT < text.len() {
        return Err(ReadError::TooLong);
    }
    let p = through(text, &mut [], &mut []);
    let size = judged(p, verbs.len(), coords.len())?;
    through(text, verbs, coords);
    Ok(size)
}
