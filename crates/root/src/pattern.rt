// From the bit pattern of a positive f32 to that of its root.
ghost use Rattle.std.specs.Prelude.{◌≡◌, ◌<◌};
ghost use Rattle.root.specs.Steps.{exponent_of, Scaled, BitsRoot};

use crate::whole::nearest;

pub const INFINITY: u32 = 0x7f80_0000;

// A root's operand: the float with the pattern b, in squares of a unit, is n * 2^g * 2^g, and n has
// 47 or 48 binary digits.
#[derive(Clone, Copy)]
struct Operand {
    n: u64,
    g: u32,
}

// One less than the exponent's field. A field of 0, a subnormal's, counts as a field of 1.
fn exponent_of(b: u32) -> u32
    ensures { result ≡ exponent_of b }
{
    (b >> 23).saturating_sub(1)
}

// The significand's first digit, wherever it stands, is moved to place 31, and then to where an even
// exponent is left. Of a normal number it is the one that the field has more than its exponent.
#[tactic(auto, using(crate::proofs::Exponents::zeros_at_most))]
fn operand_of(b: u32) -> Operand
    requires { (0 < b) × (b < 2139095040) }
    ensures { Scaled b result.n result.g }
{
    let k = exponent_of(b);
    let m = b - (k << 23);
    let z = m.leading_zeros();
    let v = k + 134 - z;
    let g = v >> 1;
    let odd = v - (g << 1);
    Operand {
        n: (m as u64) << (z + 15 + odd),
        g,
    }
}

// The root's pattern. Its significand's leading digit adds the one by which g is short of the
// exponent's field.
pub fn root_bits(b: u32) -> u32
    requires { (0 < b) × (b < 2139095040) }
    ensures { BitsRoot b result }
{
    let x = operand_of(b);
    let s = nearest(x.n);
    (x.g << 23) + s as u32
}
