// The answer to `window OPS`, a list of calls of the window: `window ANSWERS`, a word to each call.
#![tactic(auto)]

mod calls;
mod op;

use crate::calls::call;
use crate::op::{Op, read_op};
use lines::words::{BadLine, Words};
use printing::Printer;
use window::buffer::PointBuffer;

// A call out of form makes the whole line bad, so all of them are read before a word is printed.
pub fn answer(words: &mut Words, out: &mut Printer) -> Result<(), BadLine> {
    let count = words.number()?;
    let mut ahead = *words;
    each_op(&mut ahead, count, |_| ())?;
    out.text(b"window");
    out.number(count);
    let mut window = PointBuffer::new();
    each_op(words, count, |op| call(&mut window, op, out))?;
    out.line_end();
    Ok(())
}

// The rest of the line is so many calls, each of which is given to `make`.
fn each_op<F: FnMut(Op)>(words: &mut Words, count: u64, mut make: F) -> Result<(), BadLine>
    requires { F.IsAlwaysCallable make }
{
    for _ in 0..count {
        make(read_op(words)?);
    }
    words.end()
}
