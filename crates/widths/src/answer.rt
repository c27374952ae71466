// What widening and narrowing answer: how many numbers, or the first refusal by number; and the same in the terms of the table.
ghost use Rattle.std.specs.Prelude.{◌≡◌};
ghost use Rattle.widths.specs.Answer.{with_place, listed_answer_of};

use refusals::Meaning;

// Why no numbers were put there.
#[derive(Clone, Copy)]
pub enum WidthError {
    // Refusal 17: the list to put them into is too short.
    ListRoom,
    // Refusal 18, at the first number that is too large to narrow.
    WideNumber(usize),
}

// A number, as C has it, its place, and how many numbers were put there.
#[derive(Clone, Copy)]
pub struct ListedAnswer {
    pub number: u32,
    pub place: usize,
    pub count: usize,
}

impl From<Result<usize, WidthError>> for ListedAnswer {
    ghost from_gives = { λ r a. a ≡ listed_answer_of r };

    fn from(r: Result<usize, WidthError>) -> ListedAnswer {
        match r {
            Ok(count) => ListedAnswer {
                number: Meaning::Accepted as u32,
                place: 0,
                count,
            },
            Err(WidthError::ListRoom) => with_place(Meaning::ListRoom as u32, 0),
            Err(WidthError::WideNumber(place)) => with_place(Meaning::WideNumber as u32, place),
        }
    }
}

fn with_place(number: u32, place: usize) -> ListedAnswer
    ensures { result ≡ with_place number place }
{
    ListedAnswer {
        number,
        place,
        count: 0,
    }
}
