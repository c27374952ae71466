// A line and its answer: by the kind of case that the line's first word names.
use case_answers::{cap_case, join_case, normal_case, root_case};
use case_inspect::{answer_attached, answer_check};
use case_measure::{measuring, parting};
use case_stl::{reading, writing};
use case_widths::{narrowing, widening};
use lines::words::{BadLine, Words};
use printing::Printer;

// Answers a line: nothing is printed of one that is no case.
pub fn answer(line: &[u8], out: &mut Printer) -> Result<(), BadLine> {
    let mut words = Words::of(line);
    let words = &mut words;
    match words.word()? {
        b"mesh" => case_mesh::answer(words, out),
        b"read" => case_read::answer(words, out),
        b"root" => root_case::answer(words, out),
        b"normal" => normal_case::answer(words, out),
        b"window" => case_window::answer(words, out),
        b"join" => join_case::answer(words, out),
        b"cap" => cap_case::answer(words, out),
        b"stlwrite" => writing::answer(words, out),
        b"stlread" => reading::answer(words, out),
        b"widen" => widening::answer(words, out),
        b"narrow" => narrowing::answer(words, out),
        b"check" => answer_check(words, out),
        b"attached" => answer_attached(words, out),
        b"measure" => measuring::answer(words, out),
        b"part" => parting::answer(words, out),
        b"radio" => case_radio::answer(words, out),
        _ => Err(BadLine),
    }
}
