// The lines of a page, each put at a place of it. 64 bytes are room for any. That there are so many is no type's invariant: each writer also says how far it goes.
ghost use Rattle.std.specs.Prelude.{[], ◌∷◌, ◌+◌, ◌≤◌, ◌<◌};
ghost use Rattle.lines.specs.Digits.{decimal_of};
ghost use Rattle.lines.specs.Floats.{float_hex};
ghost use Rattle.lines.specs.Placed.{Puts};
ghost use Rattle.page.specs.Page.{line, refused_page};

use crate::Page;
use lines::at::{byte_at, decimal_at, float_at, text_at};

// `refused N P`
pub(crate) fn put_refused(out: &mut Page, number: u32, place: usize) -> usize
    ensures puts { Puts (refused_page number place) 0 out.old result out.new }
    ensures upper_bound { result ≤ 65536 }
{
    let named = text_at(out, 0, b"refused ");
    let numbered = decimal_at(out, named, number as u64);
    let spaced = byte_at(out, numbered, b' ');
    let placed = decimal_at(out, spaced, place as u64);
    byte_at(out, placed, b'\n')
}

// A letter, and a number.
pub(crate) fn put_count(out: &mut Page, at: usize, letter: u8, count: usize) -> usize
    requires { at ≤ 65472 }
    ensures puts { Puts (line (letter ∷ []) (decimal_of count ∷ [])) at out.old result out.new }
    ensures upper_bound { result ≤ at + 23 }
{
    let named = byte_at(out, at, letter);
    let spaced = byte_at(out, named, b' ');
    let counted = decimal_at(out, spaced, count as u64);
    byte_at(out, counted, b'\n')
}

pub(crate) fn put_vertex(out: &mut Page, at: usize, x: f32, y: f32) -> usize
    requires { at ≤ 65472 }
    ensures puts { Puts (line (float_hex x) (float_hex y ∷ [])) at out.old result out.new }
    ensures upper_bound { result ≤ at + 18 }
{
    let with_x = float_at(out, at, x);
    let spaced = byte_at(out, with_x, b' ');
    let with_y = float_at(out, spaced, y);
    byte_at(out, with_y, b'\n')
}

pub(crate) fn put_triangle(out: &mut Page, at: usize, a: u32, b: u32, c: u32) -> usize
    requires at_bound { at ≤ 65472 }
    requires a_bound { (a < 65536) × (b < 65536) × (c < 65536) }
    ensures puts { Puts (line (decimal_of a) (decimal_of b ∷ decimal_of c ∷ [])) at out.old result out.new }
    ensures upper_bound { result ≤ at + 18 }
{
    let with_a = decimal_at(out, at, a as u64);
    let a_spaced = byte_at(out, with_a, b' ');
    let with_b = decimal_at(out, a_spaced, b as u64);
    let b_spaced = byte_at(out, with_b, b' ');
    let with_c = decimal_at(out, b_spaced, c as u64);
    byte_at(out, with_c, b'\n')
}
