// What a closing call answers.
ghost use Rattle.std.specs.Prelude.{◌≡◌, Err};
ghost use Rattle.radio.specs.Answer.{report_of};
ghost use Rattle.radio.specs.declared.answer.RadioError.TheVariants.{Text};

use reader::answer::{PathSize, ReadAnswer, ReadError};
use refusals::Meaning;

// The first refusal by number.
#[derive(Clone, Copy)]
pub enum RadioError {
    // What the reader of whole texts would refuse with.
    Text(ReadError),
    // Refusal 25: there was a closing call, and no new start.
    AfterClose,
}

impl From<ReadError> for RadioError {
    ghost from_gives = { λ e r. r ≡ Text e };

    fn from(e: ReadError) -> RadioError {
        RadioError::Text(e)
    }
}

impl From<RadioError> for ReadAnswer {
    ghost from_gives = { λ e a. a ≡ report_of (Err e) };

    fn from(e: RadioError) -> ReadAnswer {
        match e {
            RadioError::Text(e) => ReadAnswer::from(e),
            RadioError::AfterClose => ReadAnswer {
                number: Meaning::AfterClose as u32,
                place: 0,
                verbs: 0,
                coords: 0,
            },
        }
    }
}

// The number, the place and both counts that a report stands for. A function: a `From` of a `Result` for a type of reader's is reader's.
pub fn report_of(r: Result<PathSize, RadioError>) -> ReadAnswer
    ensures { result ≡ report_of r }
{
    match r {
        Ok(size) => ReadAnswer::from(size),
        Err(e) => ReadAnswer::from(e),
    }
}
