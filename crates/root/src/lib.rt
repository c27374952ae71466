// The root: the f32 nearest to the square root of an f32, decided over whole numbers.
#![tactic(auto)]

mod pattern;
mod whole;

ghost use Rattle.std.specs.Prelude.{◌≡◌};
ghost use Rattle.root.specs.Answer.{Answers, answer_of};

use pattern::{INFINITY, root_bits};
use refusals::Meaning;

// The root in the terms of document 01's table, by number, as `answer_of` and C have it.
#[derive(Clone, Copy)]
pub struct Answer {
    pub number: u32,
    pub place: u32,
    pub value: f32,
}

// The f32 nearest to the exact root, for +0 and every finite positive f32. A negative, -0, an
// infinity and a NaN are refused (refusal 13): they have none.
pub fn root(x: f32) -> Option<f32>
    ensures { Answers x (answer_of result) }
{
    // No NaN is above zero, so this test is the only one that most calls make.
    if x > 0.0 {
        let b = x.to_bits();
        if b == INFINITY {
            return None;
        }
        return Some(f32::from_bits(root_bits(b)));
    }
    if x.is_nan() {
        return None;
    }
    if x.to_bits() == 0 {
        return Some(0.0);
    }
    None
}

// The number, the place and the value that an answer stands for.
impl From<Option<f32>> for Answer {
    ghost from_gives = { λ r a. a ≡ answer_of r };

    fn from(r: Option<f32>) -> Answer {
        match r {
            Some(value) => Answer {
                number: Meaning::Accepted as u32,
                place: 0,
                value,
            },
            None => Answer {
                number: Meaning::NoRoot as u32,
                place: 0,
                value: 0.0,
            },
        }
    }
}
