// What every answer's number means, document 01's table and what document 02 adds: the numbers by name, and the refusals that several calls give.
#![tactic(auto)]

ghost use Rattle.std.specs.Prelude.{◌≡◌};
ghost use Rattle.refusals.specs.Numbers.{verdict_of};

// What a number means. 5 is retired (W-207) and is given no other meaning.
#[derive(Clone, Copy)]
pub enum Meaning {
    Accepted = 0,
    OutOfRange = 1,
    TooManyVerbs = 2,
    MisplacedVerb = 3,
    BadCoordinate = 4,
    VertexRoom = 6,
    TriangleRoom = 7,
    LongText = 8,
    MalformedText = 9,
    LargeNumber = 10,
    ReaderRoom = 11,
    WindowRefused = 12,
    NoRoot = 13,
    FileRoom = 14,
    FileLength = 15,
    BadCorner = 16,
    ListRoom = 17,
    WideNumber = 18,
    NoRun = 19,
    ListLength = 20,
    NumberTooLarge = 21,
    TwoAlike = 22,
    VertexUnnamed = 23,
    NotAttached = 24,
    AfterClose = 25,
    TooManyCuts = 26,
}

// Refusals 1 to 4, and 26 behind them: what is wrong with the options or the path of a call.
#[derive(Clone, Copy)]
pub enum Refusal {
    // An option outside its range.
    OutOfRange,
    TooManyVerbs,
    // The first unknown or misplaced verb, else the number of verbs.
    Verb(usize),
    // The first coordinate that is not finite or too large.
    Coordinate(usize),
    // More than 65,536 cut points in all (W-213).
    TooManyCuts,
}

// A row of the table: its number, and a place. A number and no `Meaning`, here and in every answer: the definitions of specs/ and C speak of numbers.
#[derive(Clone, Copy)]
pub struct Verdict {
    pub number: u32,
    pub place: usize,
}

impl From<Refusal> for Verdict {
    ghost from_gives = { λ r v. v ≡ verdict_of r };

    fn from(r: Refusal) -> Verdict {
        let (meaning, place) = match r {
            Refusal::OutOfRange => (Meaning::OutOfRange, 0),
            Refusal::TooManyVerbs => (Meaning::TooManyVerbs, 0),
            Refusal::Verb(place) => (Meaning::MisplacedVerb, place),
            Refusal::Coordinate(place) => (Meaning::BadCoordinate, place),
            Refusal::TooManyCuts => (Meaning::TooManyCuts, 0),
        };
        Verdict {
            number: meaning as u32,
            place,
        }
    }
}
