// Which floats may be a corner's, told by their bits: a pattern of a NaN is never made a float.
ghost use Rattle.std.specs.Prelude.{◌≡◌};
ghost use Rattle.std.specs.Float.{binary32};
ghost use Rattle.std.specs.Float.Ieee.{of_bits};
ghost use Rattle.stl.specs.Corner.{finite, is_zero};

// The exponent's field is not all ones.
pub fn is_finite_pattern(bits: u32) -> bool
    ensures { result ≡ finite (of_bits binary32 bits) }
{
    bits % 2147483648 / 8388608 != 255
}

// No bit but the sign's.
pub fn is_zero_pattern(bits: u32) -> bool
    ensures { result ≡ is_zero (of_bits binary32 bits) }
{
    bits % 2147483648 == 0
}
