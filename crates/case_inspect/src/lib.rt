// The answers to `check` and `attached` lines: `check COUNT LIST`, answered `check NUMBER PLACE`, and so the other.
#![tactic(auto)]

use case_answers::list_words::read_number_list;
use inspect::answer::{Fault, verdict_of};
use inspect::{check, check_attached};
use lines::words::{BadLine, Words};
use printing::Printer;

// A line has at most 262,144 bytes, and with the space before it a number takes at least two of them.
const NUMBER_ROOM: usize = 131072;

pub fn answer_check(words: &mut Words, out: &mut Printer) -> Result<(), BadLine> {
    answer(words, out, b"check", check)
}

pub fn answer_attached(words: &mut Words, out: &mut Printer) -> Result<(), BadLine> {
    answer(words, out, b"attached", check_attached)
}

// The whole line is read before the call is made.
fn answer<F: FnOnce(usize, &[u32]) -> Result<(), Fault>>(
    words: &mut Words,
    out: &mut Printer,
    kind: &[u8],
    call: F,
) -> Result<(), BadLine>
    requires { F.IsAlwaysCallable call }
{
    let count = words.number()? as usize;
    let mut list = [0u32; NUMBER_ROOM];
    let list = read_number_list(words, u32::MAX, &mut list)?;
    words.end()?;
    let v = verdict_of(call(count, list));
    out.head(kind, v.number, v.place as u64);
    out.line_end();
    Ok(())
}
