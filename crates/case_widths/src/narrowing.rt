// `narrow LEN LIST`, answered `narrow NUMBER PLACE COUNT LIST`.
use crate::reply::{LIST_ROOM, NUMBER_ROOM, answered};
use case_answers::lent::lend;
use case_answers::list_words::read_number_list;
use lines::words::{BadLine, Words};
use printing::Printer;
use widths::answer::ListedAnswer;
use widths::{narrow, widen};

// The whole line is read before the call is made. The lent list is printed as numbers of 32 bits.
pub fn answer(words: &mut Words, out: &mut Printer) -> Result<(), BadLine> {
    let mut list = [0u16; LIST_ROOM];
    let list = lend(words, &mut list)?;
    let mut numbers = [0u32; NUMBER_ROOM];
    let numbers = read_number_list(words, u32::MAX, &mut numbers)?;
    words.end()?;
    let a = ListedAnswer::from(narrow(numbers, list));
    let mut wide = [0u32; LIST_ROOM];
    let wide = &mut wide[..list.len()];
    let _ = widen(list, wide);
    answered(out, b"narrow", a, wide);
    Ok(())
}
