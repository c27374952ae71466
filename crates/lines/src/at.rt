// What is printed, put at a place of a list. Each answers the place behind it. The list and the place stay two parameters: each contract of a struct
// that holds a `&mut` would have to say that it still holds the same.
#![tactic(auto, using(crate::proofs::Behind::puts_byte, crate::proofs::Behind::puts_copy, crate::proofs::Behind::puts_part))]

ghost use Rattle.std.specs.Prelude.{[], ◌∷◌, ◌+◌, ◌≤◌, ◌<◌, length};
ghost use Rattle.lines.specs.Digits.{decimal_of, hex_of};
ghost use Rattle.lines.specs.Floats.{float_hex};
ghost use Rattle.lines.specs.Placed.{Puts};

use crate::prints::{put_decimal, put_float, put_hex};

pub fn text_at(out: &mut [u8], at: usize, text: &[u8]) -> usize
    requires { at + length text.now ≤ length out.old }
    ensures { Puts text.now at out.old result out.new }
{
    let end = at + text.len();
    out[at..end].copy_from_slice(text);
    end
}

pub fn byte_at(out: &mut [u8], at: usize, b: u8) -> usize
    requires { at < length out.old }
    ensures { Puts (b ∷ []) at out.old result out.new }
{
    out[at] = b;
    at + 1
}

// A number in decimal.
pub fn decimal_at(out: &mut [u8], at: usize, n: u64) -> usize
    requires { at + 20 ≤ length out.old }
    ensures puts { Puts (decimal_of n) at out.old result out.new }
    ensures upper_bound { result ≤ at + 20 }
{
    at + put_decimal(&mut out[at..], n)
}

// The eight hex digits of a float.
pub fn float_at(out: &mut [u8], at: usize, x: f32) -> usize
    requires { at + 8 ≤ length out.old }
    ensures puts { Puts (float_hex x) at out.old result out.new }
    ensures upper_bound { result ≤ at + 8 }
{
    put_float(&mut out[at..], x);
    at + 8
}

// The two hex digits of a byte.
pub fn hex_byte_at(out: &mut [u8], at: usize, b: u8) -> usize
    requires { at + 2 ≤ length out.old }
    ensures { Puts (hex_of 2 b) at out.old result out.new }
{
    put_hex(&mut out[at..], b as u64, 2);
    at + 2
}
