// `widen LEN LIST`, answered `widen NUMBER PLACE COUNT LIST`.
use crate::reply::{LIST_ROOM, NUMBER_ROOM, answered};
use case_answers::lent::lend;
use case_answers::list_words::read_number_list;
use lines::words::{BadLine, Words};
use printing::Printer;
use widths::answer::ListedAnswer;
use widths::{NARROW_MOST, narrow, widen};

// The whole line is read before the call is made, and its numbers are made what would be stored.
pub fn answer(words: &mut Words, out: &mut Printer) -> Result<(), BadLine> {
    let mut list = [0u32; LIST_ROOM];
    let list = lend(words, &mut list)?;
    let mut numbers = [0u32; NUMBER_ROOM];
    let numbers = read_number_list(words, NARROW_MOST, &mut numbers)?;
    words.end()?;
    let mut stored = [0u16; NUMBER_ROOM];
    let _ = narrow(numbers, &mut stored);
    let a = ListedAnswer::from(widen(&stored[..numbers.len()], list));
    answered(out, b"widen", a, list);
    Ok(())
}
