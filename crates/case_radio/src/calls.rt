// The calls of a line: fragments and closing calls.
use case_answers::list_words::read_byte_list;
use lines::words::{BadLine, Words};

// A fragment, put over the start of a room, or None for a closing call.
pub fn read_call<'a>(words: &mut Words, room: &'a mut [u8]) -> Result<Option<&'a [u8]>, BadLine> {
    let again = *words;
    if words.word()? == b"!".as_slice() {
        return Ok(None);
    }
    *words = again;
    Ok(Some(read_byte_list(words, room)?))
}
