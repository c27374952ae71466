// `stlwrite BYTELEN VERTICES TRIANGLES`, answered `stlwrite NUMBER PLACE BYTES BYTELIST`.
use case_answers::lent::lend;
use case_answers::list_words::{read_float_list, read_number_list};
use lines::words::{BadLine, Words};
use pieces::Index;
use printing::Printer;
use stl::answer::StlAnswer;
use stl_write::stl_write;

// The longest list that a line may ask for.
const BYTE_ROOM: usize = 131072;

// A line has at most 262,144 bytes; with the space before it a float takes nine of them and a number at least two.
const FLOAT_ROOM: usize = 32768;

const NUMBER_ROOM: usize = 131072;

// The whole line is read before the call is made. Of the room, the call is lent as much as the line asks for.
pub fn answer(words: &mut Words, out: &mut Printer) -> Result<(), BadLine> {
    let mut file = [0u8; BYTE_ROOM];
    let file = lend(words, &mut file)?;
    let mut vertices = [0.0f32; FLOAT_ROOM];
    let vertices = read_float_list(words, &mut vertices)?;
    let mut triangles: [Index; NUMBER_ROOM] = [0; NUMBER_ROOM];
    let triangles = read_number_list(words, Index::MAX, &mut triangles)?;
    words.end()?;
    let a = StlAnswer::from(stl_write(vertices, triangles, file));
    out.head(b"stlwrite", a.number, a.place as u64);
    out.number(a.count as u64);
    out.byte_list(file);
    out.line_end();
    Ok(())
}
