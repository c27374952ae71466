// Stored u16 lists made u32 lists, as triangle lists are, and back: widening and narrowing.
#![tactic(auto)]

pub mod answer;

ghost use Rattle.std.specs.Prelude.{◌≡◌, ◌≤◌, ◌<◌, All, IsNone, ltb, length, map, position};
ghost use Rattle.lists.specs.Over.{over};
ghost use Rattle.widths.specs.Answer.{listed_answer_of};
ghost use Rattle.widths.specs.Widths.{narrow_most, widen_of, narrow_of};

use crate::answer::WidthError;

// The most that a u16 holds.
pub const NARROW_MOST: u32 = 65535;

// Puts numbers over the start of `list`, each converted to what `made` says of it.
fn put<A: Copy, B: Copy, F: Fn(A) -> B>(list: &mut [B], numbers: &[A], convert: F)
    ghost made: { A → B }
    requires room { length numbers.now ≤ length list.old }
    requires convertible { All (λ x. F.pre convert x) numbers.now }
    requires converts { (x : A) (y : B) → F.post convert x y → y ≡ made x }
    ensures { list.new ≡ over (map made numbers.now) list.old }
{
    for (i, n) in numbers.iter().enumerate() {
        list[i] = convert(*n);
    }
}

// Puts stored numbers over the start of `wide`. A refusal changes nothing.
pub fn widen(numbers: &[u16], wide: &mut [u32]) -> Result<usize, WidthError>
    ensures { record { answer = listed_answer_of result; list = wide.new } ≡ widen_of numbers.now wide.old }
{
    if wide.len() < numbers.len() {
        return Err(WidthError::ListRoom);
    }
    put(wide, numbers, |n| u32::from(n));
    Ok(numbers.len())
}

// The first number that is too large. Where there is none, a u16 holds each.
fn first_wide(numbers: &[u32]) -> Option<usize>
    ensures first { result ≡ position (ltb narrow_most) numbers.now }
    ensures fits { IsNone result → All (λ n. n < 65536) numbers.now }
{
    // A loop: std's search over a list answers a reference or none, whose layout hangs on the size of a pointer.
    for i in 0..numbers.len() {
        if numbers[i] > NARROW_MOST {
            return Some(i);
        }
    }
    None
}

// Puts numbers over the start of `narrow`, where none is above 65,535. A refusal changes nothing.
pub fn narrow(numbers: &[u32], narrow: &mut [u16]) -> Result<usize, WidthError>
    ensures { record { answer = listed_answer_of result; list = narrow.new } ≡ narrow_of numbers.now narrow.old }
{
    if narrow.len() < numbers.len() {
        return Err(WidthError::ListRoom);
    }
    if let Some(i) = first_wide(numbers) {
        return Err(WidthError::WideNumber(i));
    }
    put(narrow, numbers, |n| n as u16);
    Ok(numbers.len())
}
