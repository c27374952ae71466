// What measuring and the call for a run's part answer.
ghost use Rattle.std.specs.Prelude.{◌≡◌};
ghost use Rattle.measure.specs.Answer.{measured_answer_of, without_part, part_answer_of};
ghost use Rattle.measure.specs.declared.answer.PartError.TheVariants.{Refused};

use mesh::answer::{MeshAnswer, MeshError, MeshSize};
use refusals::{Meaning, Refusal, Verdict};

// Where a run's part of a vertex list stands: its start, and how many floats it has; both are 0 where the run drew nothing.
#[derive(Clone, Copy)]
pub struct Part {
    pub start: usize,
    pub length: usize,
}

// Why there is no part: the first refusal by number.
#[derive(Clone, Copy)]
pub enum PartError {
    // Refusals 1 to 4, and 26.
    Refused(Refusal),
    // Refusal 6: the list is too short for the whole mesh.
    VertexRoom,
    // Refusal 19: no run of that number.
    NoRun,
}

impl From<Refusal> for PartError {
    ghost from_gives = { λ r e. e ≡ Refused r };

    fn from(r: Refusal) -> PartError {
        PartError::Refused(r)
    }
}

// What the call says, in the terms of document 01's table, by number, as `part_answer_of` and C have it; a refusal's part is empty.
#[derive(Clone, Copy)]
pub struct PartAnswer {
    pub number: u32,
    pub place: usize,
    pub start: usize,
    pub length: usize,
}

// The number, the place and both counts that measuring's answer stands for. No `From`: the types are the mesh call's.
pub fn measured_answer_of(answer: Result<MeshSize, Refusal>) -> MeshAnswer
    ensures { result ≡ measured_answer_of answer }
{
    MeshAnswer::from(answer.map_err(MeshError::Refused))
}

// The number, the place and the part that an answer stands for.
impl From<Result<Part, PartError>> for PartAnswer {
    ghost from_gives = { λ r a. a ≡ part_answer_of r };

    fn from(r: Result<Part, PartError>) -> PartAnswer {
        match r {
            Ok(part) => PartAnswer {
                number: Meaning::Accepted as u32,
                place: 0,
                start: part.start,
                length: part.length,
            },
            Err(PartError::Refused(refusal)) => {
                let verdict = Verdict::from(refusal);
                without_part(verdict.number, verdict.place)
            }
            Err(PartError::VertexRoom) => without_part(Meaning::VertexRoom as u32, 0),
            Err(PartError::NoRun) => without_part(Meaning::NoRun as u32, 0),
        }
    }
}

fn without_part(number: u32, place: usize) -> PartAnswer
    ensures { result ≡ without_part number place }
{
    PartAnswer {
        number,
        place,
        start: 0,
        length: 0,
    }
}
