// What both kinds of line share.
use printing::Printer;
use widths::answer::ListedAnswer;

// A line has at most 262,144 bytes, and a number takes at least two of them, with the space before it.
pub const NUMBER_ROOM: usize = 131072;

// The longest list that a line may ask for.
pub const LIST_ROOM: usize = 49152;

// The answer, and the lent list after the call.
pub fn answered(out: &mut Printer, kind: &[u8], a: ListedAnswer, list: &[u32]) {
    out.head(kind, a.number, a.place as u64);
    out.number(a.count as u64);
    out.number_list(list);
    out.line_end();
}
