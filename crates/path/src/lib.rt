// The checks of a path, refusals 2 to 4 of document 01: what passes them is what the rules are stated for.
#![tactic(auto)]

pub mod coordinates;
pub mod verbs;

ghost use Rattle.std.specs.Prelude.{◌≡◌};
ghost use Rattle.path.specs.Path.{checked_of, check_answer_of};

use coordinates::first_outside;
use refusals::{Meaning, Refusal, Verdict};
use verbs::{VERB_LIMIT, scan_verbs};

// All of 3 is judged before any 4.
pub fn check_path(verbs: &[u8], coords: &[f32]) -> Result<(), Refusal>
    ensures { check_answer_of result ≡ checked_of verbs.now coords.now }
{
    if verbs.len() > VERB_LIMIT {
        return Err(Refusal::TooManyVerbs);
    }
    let scan = scan_verbs(verbs);
    // Where no verb is misplaced, the place is their number.
    if scan.place < verbs.len() || scan.inside || coords.len() != 2 * scan.points {
        return Err(Refusal::Verb(scan.place));
    }
    if let Some(place) = first_outside(coords) {
        return Err(Refusal::Coordinate(place));
    }
    Ok(())
}

// The number and the place that an answer stands for. No `From`: neither type is this crate's.
pub fn check_answer_of(c: Result<(), Refusal>) -> Verdict
    ensures { result ≡ check_answer_of c }
{
    match c {
        Ok(()) => Verdict {
            number: Meaning::Accepted as u32,
            place: 0,
        },
        Err(r) => Verdict::from(r),
    }
}
