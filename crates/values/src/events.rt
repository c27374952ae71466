// What a path text calls for.
ghost use Rattle.std.specs.Prelude.{◌≡◌};
ghost use Rattle.values.specs.Events.{point_at, number_at, command_of, letter_of};

use crate::pen::Pen;
use form::classes::{Class, Letter};
use form::machine::{Axis, ends_point};

// The last number is the place behind the event's last byte; behind the end of the text it is one more than the length.
#[derive(Clone, Copy)]
pub enum Event {
    Nothing,
    // A run begins at a point.
    Begin(f32, f32, usize),
    // A line to a point.
    Line(f32, f32, usize),
    EndOpen(usize),
    EndClosed(usize),
    // A number beyond the limit, at the place of its first byte.
    Beyond(usize),
}

// By the point that a number of an axis completes, with the pen before and behind it.
fn point_at(before: Pen, now: Pen, a: Axis, end: usize) -> Event
    ensures { result ≡ point_at before now a end }
{
    if !ends_point(a) {
        Event::Nothing
    } else if before.fresh {
        Event::Begin(now.x, now.y, end)
    } else {
        Event::Line(now.x, now.y, end)
    }
}

// By a number: that it is too large, or the point.
pub(crate) fn number_at(
    large: bool,
    place: usize,
    before: Pen,
    now: Pen,
    a: Axis,
    end: usize,
) -> Event
    ensures { result ≡ number_at large place before now a end }
{
    if large {
        Event::Beyond(place)
    } else {
        point_at(before, now, a, end)
    }
}

// Inside a run M, or the end of the text, and Z end it; behind one a line begins the next.
fn command(inside: bool, p: Pen, l: Letter, behind: usize) -> Event
    ensures { result ≡ command_of inside p l behind }
{
    match (l, inside) {
        (Letter::Move, true) => Event::EndOpen(behind),
        (Letter::Close, true) => Event::EndClosed(behind),
        (Letter::Line | Letter::Along, false) => Event::Begin(p.first_x, p.first_y, behind),
        _ => Event::Nothing,
    }
}

// By a letter.
pub(crate) fn letter(inside: bool, p: Pen, k: Class, behind: usize) -> Event
    ensures { result ≡ letter_of inside p k behind }
{
    match k {
        Class::Command(l) => command(inside, p, l, behind),
        _ => Event::Nothing,
    }
}
