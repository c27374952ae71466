// `WIDTH LIMIT JOIN CAP MERGE DETAIL OFFSET`: the options of a line, and the rooms for what follows them.
use lines::words::{BadLine, Words};
use options::Options;

// The longest lists that a line may ask for.
pub const VERTEX_ROOM: usize = 81920;

pub const SOURCE_ROOM: usize = 49152;

pub const TRIANGLE_ROOM: usize = 49152;

// A list of lengths is in form however long it is, and one takes nine bytes of a line, with the space before it: this is more than a line can hold.
pub const DASH_ROOM: usize = 32768;

// A line has at most 262,144 bytes, and a verb takes two of them.
pub const VERB_ROOM: usize = 131072;

// A coordinate takes nine bytes, with the space before it: this is more than a line can hold.
pub const COORD_ROOM: usize = 32768;

// A join, a cap or a detail that the call refuses is in form, as far as it is a byte.
pub fn read_options(words: &mut Words) -> Result<Options, BadLine> {
    let width = words.float()?;
    let miter_limit = words.float()?;
    let line_join = words.number_up_to(255)? as u32;
    let cap = words.number_up_to(255)? as u32;
    let merge_range = words.float()?;
    let detail = words.number_up_to(255)? as u32;
    let offset = words.float()?;
    Ok(Options {
        width,
        miter_limit,
        line_join,
        cap,
        merge_range,
        detail,
        offset,
    })
}
