// What the letters and numbers of a path text come to: the current point, and how the next number is taken.
ghost use Rattle.std.specs.Prelude.{◌≡◌};
ghost use Rattle.values.specs.Pen.{upright, is_lower, aims_y, coord_of, is_outside, is_large, placed_of, with_letter, lettered_of, resting_pen};

use decimals::digits::is_beyond;
use form::classes::Letter;
use form::machine::{Axis, ends_point};

#[derive(Clone, Copy)]
pub struct Pen {
    // Whether the next point begins a run.
    pub fresh: bool,
    // Whether numbers are added to the current point.
    pub relative: bool,
    // Whether a number alone is a y.
    pub upright: bool,
    // The current point.
    pub x: f32,
    pub y: f32,
    // The run's first point.
    pub first_x: f32,
    pub first_y: f32,
}

pub(crate) fn resting() -> Pen
    ensures { result ≡ resting_pen }
{
    Pen {
        fresh: false,
        relative: false,
        upright: false,
        x: 0.0,
        y: 0.0,
        first_x: 0.0,
        first_y: 0.0,
    }
}

// Whether a number of an axis is a y.
fn aims_y(a: Axis, upright: bool) -> bool
    ensures { result ≡ aims_y a upright }
{
    match a {
        Axis::X => false,
        Axis::Y => true,
        Axis::Alone => upright,
    }
}

// The coordinate that a number comes to.
fn coord(p: Pen, a: Axis, c: f32) -> f32
    ensures { result ≡ coord_of p a c }
{
    let base = if aims_y(a, p.upright) { p.y } else { p.x };
    if p.relative { base + c } else { c }
}

// Whether that is beyond the limit.
fn is_outside(c: f32) -> bool
    ensures { result ≡ is_outside c }
{
    c > 32768.0 || c < -32768.0
}

// Refusal 10: whether a number of so many millionths, or the coordinate that it comes to, is beyond the limit.
pub(crate) fn is_large(n: u64, p: Pen, a: Axis, c: f32) -> bool
    ensures { result ≡ is_large n p a c }
{
    is_beyond(n) || is_outside(coord(p, a, c))
}

// After a number. A point that begins a run is its first.
pub(crate) fn placed(p: Pen, a: Axis, c: f32) -> Pen
    ensures { result ≡ placed_of p a c }
{
    let v = coord(p, a, c);
    let (x, y) = if aims_y(a, p.upright) {
        (p.x, v)
    } else {
        (v, p.y)
    };
    if !ends_point(a) {
        return Pen { x, y, ..p };
    }
    let (first_x, first_y) = if p.fresh {
        (x, y)
    } else {
        (p.first_x, p.first_y)
    };
    Pen {
        fresh: false,
        x,
        y,
        first_x,
        first_y,
        ..p
    }
}

// A lower-case letter is relative.
fn is_lower(b: u8) -> bool
    ensures { result ≡ is_lower b }
{
    b'a' <= b
}

fn is_upright(b: u8) -> bool
    ensures { result ≡ upright b }
{
    b == b'V' || b == b'v'
}

fn with_letter(p: Pen, fresh: bool, b: u8) -> Pen
    ensures { result ≡ with_letter p fresh b }
{
    Pen {
        fresh,
        relative: is_lower(b),
        upright: is_upright(b),
        ..p
    }
}

// After a letter. Behind a Z the current point is the run's first.
pub(crate) fn lettered(p: Pen, l: Letter, b: u8) -> Pen
    ensures { result ≡ lettered_of p l b }
{
    match l {
        Letter::Move => with_letter(p, true, b),
        Letter::Line | Letter::Along => with_letter(p, false, b),
        Letter::Close => Pen {
            x: p.first_x,
            y: p.first_y,
            ..p
        },
    }
}
