// The reading of a path text as a state by value and a step over its bytes.
ghost use Rattle.std.specs.Prelude.{◌≡◌};
ghost use Rattle.values.specs.State.{started, settle_of, took_of};

use crate::events::{Event, letter, number_at};
use crate::known::{Known, nothing_known, taken};
use crate::pen::{is_large, placed};
use decimals::digits::millionths;
use decimals::nearest;
use form::classes::class_of;
use form::machine::{Mode, axis_at, ends_before, first_mode, is_inside, next, row_of};

// What the bytes so far come to.
#[derive(Clone, Copy)]
pub struct State {
    pub mode: Mode,
    pub known: Known,
}

// What a byte calls for, in this order: by the number that ends there, by the letter. The end of the text calls for what an M would.
#[derive(Clone, Copy)]
pub struct Called {
    pub number: Event,
    pub letter: Event,
}

// The state behind a byte, and what that calls for.
#[derive(Clone, Copy)]
pub struct Took {
    pub state: State,
    pub called: Called,
}

// A number that has ended: what is known then, and what it calls for.
#[derive(Clone, Copy)]
pub struct Settled {
    pub known: Known,
    pub event: Event,
}

// Before the first byte.
pub fn start() -> State
    ensures { result ≡ started }
{
    State {
        mode: first_mode(),
        known: nothing_known(),
    }
}

// A number ends at a place: what its millionths come to.
fn settle(m: Mode, v: Known, end: usize) -> Settled
    ensures { result ≡ settle_of m v end }
{
    let a = m.axis;
    let n = millionths(v.whole, v.fraction, m.places);
    let c = nearest(v.minus, n);
    let pen = placed(v.pen, a, c);
    Settled {
        known: Known { pen, ..v },
        event: number_at(is_large(n, v.pen, a, c), v.place, v.pen, pen, a, end),
    }
}

// The byte at a place; `behind` is the next place. It is called in one place alone, so that the compiler has the whole of a byte's
// work in one function.
pub fn take(s: State, b: u8, place: usize, behind: usize) -> Took
    ensures { result ≡ took_of s b place behind }
{
    let m = s.mode;
    let k = class_of(b);
    let going = row_of(m.stage).going;
    let ended = ends_before(going, k);
    let t = if ended {
        settle(m, s.known, place)
    } else {
        Settled {
            known: s.known,
            event: Event::Nothing,
        }
    };
    let inside = is_inside(m.stage, axis_at(ended, m.axis));
    Took {
        state: State {
            mode: next(m, k),
            known: taken(going, b, k, place, t.known),
        },
        called: Called {
            number: t.event,
            letter: letter(inside, s.known.pen, k, behind),
        },
    }
}
