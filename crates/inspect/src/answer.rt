// What is wrong with an index list, and the same in the terms of the table.
ghost use Rattle.std.specs.Prelude.{◌≡◌};
ghost use Rattle.inspect.specs.Answer.{fault_of, checked_of};

use refusals::{Meaning, Verdict};

// The first fault by number.
#[derive(Clone, Copy)]
pub enum Fault {
    // Refusal 20: the length is no multiple of three.
    Length,
    // Refusal 21, at the first number that is not below the count.
    TooLarge(usize),
    // Refusal 22, at the first triangle that names a vertex twice.
    Alike(usize),
    // Refusal 23, at the smallest vertex that is not named.
    Unnamed(usize),
    // Refusal 24, at the first triangle but the first that shares exactly two vertices with no earlier one.
    NotAttached(usize),
}

impl From<Fault> for Verdict {
    ghost from_gives = { λ f v. v ≡ fault_of f };

    fn from(f: Fault) -> Verdict {
        let (meaning, place) = match f {
            Fault::Length => (Meaning::ListLength, 0),
            Fault::TooLarge(place) => (Meaning::NumberTooLarge, place),
            Fault::Alike(place) => (Meaning::TwoAlike, place),
            Fault::Unnamed(place) => (Meaning::VertexUnnamed, place),
            Fault::NotAttached(place) => (Meaning::NotAttached, place),
        };
        Verdict {
            number: meaning as u32,
            place,
        }
    }
}

// A function, since both types of `impl From<Result<..>> for Verdict` are other crates', which Rust allows no crate.
pub fn verdict_of(checked: Result<(), Fault>) -> Verdict
    ensures { result ≡ checked_of checked }
{
    match checked {
        Ok(()) => Verdict {
            number: Meaning::Accepted as u32,
            place: 0,
        },
        Err(fault) => Verdict::from(fault),
    }
}
