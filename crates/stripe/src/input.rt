// Standard input, taken as the bytes of a text.
ghost use Rattle.std.specs.Prelude.{IfOk};
ghost use Rattle.stripe.specs.Counts.{IsPrefixLen};

use std::io::{self, Read, Stdin};

// Reads until the input ends or the list is full, and answers how many bytes came. A read answers 0 at the end of the input.
// A `while`, since a turn goes on by as many bytes as its read brought.
pub fn read_text(mut stdin: Stdin, text: &mut [u8]) -> io::Result<usize>
    ensures { IfOk result (λ n. IsPrefixLen n text.new) }
{
    let mut count = 0;
    while count < text.len() {
        match stdin.read(&mut text[count..])? {
            0 => break,
            n => count += n,
        }
    }
    Ok(count)
}
