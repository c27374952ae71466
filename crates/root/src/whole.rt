// The whole number nearest to the root of a whole number of 47 or 48 binary digits, digit by digit.
//
// One word holds both numbers that a digit changes: from bit 32 up what is left of the operand, and
// below it the digits found, with 01 behind them. So one difference changes both.
ghost use Rattle.std.specs.Prelude.{ℕ, ◌+◌};
ghost use Rattle.root.specs.Steps.{Near, Operands, Digits};

// The word with the digit at `place`, a 1 where what is left holds the digits found and 01, moved up
// to there. Both words are worked and then one is chosen: no branch, no copy (docs/SPEED.md).
fn digit(w: u64, place: u32) -> u64
    requires { (n : ℕ) × Digits n w (place + 1) }
    ensures { (n : ℕ) → Digits n w (place + 1) → Digits n result place }
{
    let v = w << 1;
    let t = v << (place + 33);
    let zero = v - 1;
    let one = zero + 4;
    if t <= one { one - t } else { zero }
}

// The 24 digits of the whole part of n's root. The first is 1, and 101 stands in the first word.
fn digits(n: u64) -> u64
    requires { Operands n }
    ensures { Digits n result 0 }
{
    let mut w = ((n - 0x4000_0000_0000) << 11) + 5;
    for place in (0..23).rev() {
        w = digit(w, place);
    }
    w
}

// The whole number nearest to the root of n: no root of a whole number stands midway. With s the
// whole part, n - s * s is left, and the next number is nearer where that is above s.
pub fn nearest(n: u64) -> u64
    requires { Operands n }
    ensures { Near n result }
{
    let w = digits(n);
    let rest = w >> 34;
    let s = (w - (rest << 34)) >> 2;
    if rest > s { s + 1 } else { s }
}
