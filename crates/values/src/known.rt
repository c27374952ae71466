// What is known of a path text beside its mode: the pen, and the number that is being read.
ghost use Rattle.std.specs.Prelude.{◌≡◌, ◌≤◌};
ghost use Rattle.form.specs.Bytes.{class_of};
ghost use Rattle.values.specs.Known.{nothing_known, with_number, digit_taken, dot_taken, taken_of};

use crate::pen::{Pen, lettered, resting};
use decimals::digits::{fraction_digit, whole_digit};
use form::classes::Class;
use form::machine::Going;

#[derive(Clone, Copy)]
pub struct Known {
    pub pen: Pen,
    // The number: whether a minus stands before it, its digits before and after the point, the place of its first byte.
    pub minus: bool,
    pub whole: u16,
    pub fraction: u32,
    pub place: usize,
}

// Before the first byte.
pub(crate) fn nothing_known() -> Known
    ensures { result ≡ nothing_known }
{
    Known {
        pen: resting(),
        minus: false,
        whole: 0,
        fraction: 0,
        place: 0,
    }
}

// A number that begins at a place.
fn begun(v: Known, minus: bool, whole: u16, place: usize) -> Known
    ensures { result ≡ with_number v minus whole 0 place }
{
    Known {
        minus,
        whole,
        fraction: 0,
        place,
        ..v
    }
}

// After a digit, which goes on with a number or begins one.
fn digit_taken(going: Going, b: u8, place: usize, v: Known) -> Known
    requires { 48 ≤ b }
    ensures { result ≡ digit_taken going b place v }
{
    match going {
        Going::Fresh => begun(v, false, whole_digit(0, b), place),
        Going::Opened | Going::InWhole => Known {
            whole: whole_digit(v.whole, b),
            ..v
        },
        Going::AtPoint | Going::InFraction => Known {
            fraction: fraction_digit(v.fraction, b),
            ..v
        },
    }
}

// After a point, which goes on with a whole number or begins one.
fn dot_taken(going: Going, place: usize, v: Known) -> Known
    ensures { result ≡ dot_taken going place v }
{
    match going {
        Going::Fresh | Going::InFraction => begun(v, false, 0, place),
        _ => v,
    }
}

// After a byte, once the number before it is settled.
pub(crate) fn taken(going: Going, b: u8, k: Class, place: usize, v: Known) -> Known
    requires { k ≡ class_of b }
    ensures { result ≡ taken_of going b k place v }
{
    match k {
        Class::Sign => begun(v, b == b'-', 0, place),
        Class::Digit => digit_taken(going, b, place, v),
        Class::Dot => dot_taken(going, place, v),
        Class::Command(l) => Known {
            pen: lettered(v.pen, l, b),
            ..v
        },
        _ => v,
    }
}
