// What both calls answer: a count, or the first refusal by number; and the same in the terms of the table.
ghost use Rattle.std.specs.Prelude.{◌≡◌};
ghost use Rattle.stl.specs.Answer.{with_count, with_place, written_answer_of, corners_answer_of};

use refusals::Meaning;

// Why no file was written.
#[derive(Clone, Copy)]
pub enum WriteError {
    // Refusal 14: the byte list is too short.
    FileRoom,
    // Refusal 16, at the first triangle with a number that has no vertex or with a corner that is not finite.
    Corner(usize),
}

// Why no corners were read.
#[derive(Clone, Copy)]
pub enum ReadError {
    // Refusal 15: the file is not as long as its count says.
    FileLength,
    // Refusal 16, at the first triangle with a corner that is not finite or whose z is not zero.
    Corner(usize),
    // Refusal 17: too little room for the corners.
    ListRoom,
}

// A number, as C has it, its place, and how many bytes were written or floats read.
#[derive(Clone, Copy)]
pub struct StlAnswer {
    pub number: u32,
    pub place: usize,
    pub count: usize,
}

fn with_count(count: usize) -> StlAnswer
    ensures { result ≡ with_count count }
{
    StlAnswer {
        number: Meaning::Accepted as u32,
        place: 0,
        count,
    }
}

fn with_place(number: u32, place: usize) -> StlAnswer
    ensures { result ≡ with_place number place }
{
    StlAnswer {
        number,
        place,
        count: 0,
    }
}

// Of how many bytes were written.
impl From<Result<usize, WriteError>> for StlAnswer {
    ghost from_gives = { λ r a. a ≡ written_answer_of r };

    fn from(r: Result<usize, WriteError>) -> StlAnswer {
        match r {
            Ok(count) => with_count(count),
            Err(WriteError::FileRoom) => with_place(Meaning::FileRoom as u32, 0),
            Err(WriteError::Corner(place)) => with_place(Meaning::BadCorner as u32, place),
        }
    }
}

// Of how many floats were read, six to a triangle.
impl From<Result<usize, ReadError>> for StlAnswer {
    ghost from_gives = { λ r a. a ≡ corners_answer_of r };

    fn from(r: Result<usize, ReadError>) -> StlAnswer {
        match r {
            Ok(count) => with_count(count),
            Err(ReadError::FileLength) => with_place(Meaning::FileLength as u32, 0),
            Err(ReadError::Corner(place)) => with_place(Meaning::BadCorner as u32, place),
            Err(ReadError::ListRoom) => with_place(Meaning::ListRoom as u32, 0),
        }
    }
}
