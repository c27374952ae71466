// What the reader answers.
ghost use Rattle.std.specs.Prelude.{◌≡◌, Ok, Err};
ghost use Rattle.reader.specs.Answer.{read_answer_of, with_counts, room_of, counted_of, judged_of};

use crate::counts::Counts;
use crate::pass::{Passage, is_over};
use path::verbs::VERB_LIMIT;
use refusals::Meaning;

// A path: how many verbs, and how many coordinates.
#[derive(Clone, Copy)]
pub struct PathSize {
    pub verbs: usize,
    pub coords: usize,
}

// The first refusal by number.
#[derive(Clone, Copy)]
pub enum ReadError {
    // Refusal 8: too many bytes.
    TooLong,
    // Refusal 9, at the first byte with which the text so far begins no text of the form, or at the length.
    OutOfForm(usize),
    // Refusal 10, at the first byte of the first number that is too large.
    TooLarge(usize),
    // Refusal 11: a lent list is too short, or there are more verbs than a path may have.
    NoRoom,
}

// The same in the terms of document 01's table, by number, as `read_answer_of` and C have it.
#[derive(Clone, Copy)]
pub struct ReadAnswer {
    pub number: u32,
    pub place: usize,
    pub verbs: usize,
    pub coords: usize,
}

// Refusal 11, by what a text of the form comes to and the places that are lent.
fn room(c: Counts, verb_room: usize, coord_room: usize) -> Result<PathSize, ReadError>
    ensures { read_answer_of result ≡ room_of c verb_room coord_room }
{
    if verb_room < c.verbs || coord_room < c.coords || VERB_LIMIT < c.verbs {
        return Err(ReadError::NoRoom);
    }
    Ok(PathSize {
        verbs: c.verbs,
        coords: c.coords,
    })
}

// Refusals 10 and 11.
fn counted(c: Counts, verb_room: usize, coord_room: usize) -> Result<PathSize, ReadError>
    ensures { read_answer_of result ≡ counted_of c verb_room coord_room }
{
    match c.large {
        Some(place) => Err(ReadError::TooLarge(place)),
        None => room(c, verb_room, coord_room),
    }
}

// Refusals 9 to 11, behind the end of a text.
pub fn judged(p: Passage, verb_room: usize, coord_room: usize) -> Result<PathSize, ReadError>
    ensures { read_answer_of result ≡ judged_of p verb_room coord_room }
{
    if is_over(p) {
        return Err(ReadError::OutOfForm(p.place));
    }
    counted(p.counts, verb_room, coord_room)
}

impl From<PathSize> for ReadAnswer {
    ghost from_gives = { λ s a. a ≡ with_counts s.verbs s.coords };

    fn from(s: PathSize) -> ReadAnswer {
        ReadAnswer {
            number: Meaning::Accepted as u32,
            place: 0,
            verbs: s.verbs,
            coords: s.coords,
        }
    }
}

impl From<ReadError> for ReadAnswer {
    ghost from_gives = { λ e a. a ≡ read_answer_of (Err e) };

    fn from(e: ReadError) -> ReadAnswer {
        let (number, place) = match e {
            ReadError::TooLong => (Meaning::LongText as u32, 0),
            ReadError::OutOfForm(place) => (Meaning::MalformedText as u32, place),
            ReadError::TooLarge(place) => (Meaning::LargeNumber as u32, place),
            ReadError::NoRoom => (Meaning::ReaderRoom as u32, 0),
        };
        ReadAnswer {
            number,
            place,
            verbs: 0,
            coords: 0,
        }
    }
}

impl From<Result<PathSize, ReadError>> for ReadAnswer {
    ghost from_gives = { λ r a. a ≡ read_answer_of r };

    fn from(r: Result<PathSize, ReadError>) -> ReadAnswer {
        match r {
            Ok(size) => ReadAnswer::from(size),
            Err(e) => ReadAnswer::from(e),
        }
    }
}
