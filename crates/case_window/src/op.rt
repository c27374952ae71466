// Calls of the window, as words have them: `pK`, `rK`, `c`, `gI` and `n`.
use lines::numbers::parse;
use lines::words::{BadLine, Words};

#[derive(Clone, Copy)]
pub enum Op {
    Push(u32),
    Replace(u32),
    Clear,
    Get(u32),
    Count,
}

pub fn read_op(words: &mut Words) -> Result<Op, BadLine> {
    op_of(words.word()?).ok_or(BadLine)
}

fn op_of(word: &[u8]) -> Option<Op> {
    match word {
        b"c" => Some(Op::Clear),
        b"n" => Some(Op::Count),
        [b'p', k @ ..] => Some(Op::Push(number_up_to(9999, k)?)),
        [b'r', k @ ..] => Some(Op::Replace(number_up_to(9999, k)?)),
        [b'g', i @ ..] => Some(Op::Get(number_up_to(9, i)?)),
        _ => None,
    }
}

fn number_up_to(most: u32, digits: &[u8]) -> Option<u32> {
    match parse(digits) {
        Some(n) if n <= u64::from(most) => Some(n as u32),
        _ => None,
    }
}
