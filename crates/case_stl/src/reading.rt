// `stlread CORNERLEN BYTES`, answered `stlread NUMBER PLACE CORNERS CORNERLIST`.
use case_answers::lent::lend;
use case_answers::list_words::read_byte_list;
use lines::words::{BadLine, Words};
use printing::Printer;
use stl::answer::StlAnswer;
use stl_read::stl_read;

// The longest list that a line may ask for.
const CORNER_ROOM: usize = 81920;

// A line has at most 262,144 bytes, and a byte of the file takes two of them.
const FILE_ROOM: usize = 131072;

// The whole line is read before the call is made. Of the room, the call is lent as much as the line asks for.
pub fn answer(words: &mut Words, out: &mut Printer) -> Result<(), BadLine> {
    let mut corners = [0.0f32; CORNER_ROOM];
    let corners = lend(words, &mut corners)?;
    let mut file = [0u8; FILE_ROOM];
    let file = read_byte_list(words, &mut file)?;
    words.end()?;
    let a = StlAnswer::from(stl_read(file, corners));
    out.head(b"stlread", a.number, a.place as u64);
    out.number(a.count as u64);
    out.float_list(corners);
    out.line_end();
    Ok(())
}
