// Path text over the radio: fragments in turn, and a closing call. However the text is divided, the outcome is that of the whole text.
#![tactic(auto)]

pub mod answer;
mod hearing;

ghost use Rattle.std.specs.Prelude.{◌≡◌};
ghost use Rattle.std.specs.Result.{is_ok, result_unwrap_or};
ghost use Rattle.radio.specs.Answer.{report_of};
ghost use Rattle.radio.specs.Radio.{started, is_open, took_of, close_of};

use crate::answer::RadioError;
use crate::hearing::{ended, hear};
use reader::TEXT_LIMIT;
use reader::answer::PathSize;
use reader::pass::{Passage, set_out};

// The state between two calls. One that no calls lead to counts as closed.
#[derive(Clone, Copy)]
pub struct Radio {
    // How far the text has come.
    pub passage: Passage,
    // How many bytes were taken; one more than the limit stands for any more.
    pub length: usize,
    pub closed: bool,
}

// Refusal 25: there was a closing call, and no new start.
#[derive(Clone, Copy)]
pub struct AfterClose;

// The state behind a closing call, and what that answers.
#[derive(Clone, Copy)]
pub struct Closing {
    pub radio: Radio,
    pub report: Result<PathSize, RadioError>,
}

// A new text.
pub fn start() -> Radio
    ensures { result ≡ started }
{
    Radio {
        passage: set_out(),
        length: 0,
        closed: false,
    }
}

fn is_open(r: Radio) -> bool
    ensures { result ≡ is_open r }
{
    !r.closed && r.length <= TEXT_LIMIT + 1 && r.passage.place <= r.length
}

// Takes a fragment. What ends in it is put behind what was put before, as far as the lists go. Refused, the state stays as it is.
pub fn take(
    r: Radio,
    fragment: &[u8],
    verbs: &mut [u8],
    coords: &mut [f32],
) -> Result<Radio, AfterClose>
    ensures { record { radio = result_unwrap_or result r; taken = is_ok result; verbs = verbs.new; coords = coords.new } ≡ took_of (record { radio = r; verbs = verbs.old; coords = coords.old }) fragment.now }
{
    if !is_open(r) {
        return Err(AfterClose);
    }
    Ok(hear(r, fragment, verbs, coords))
}

// Ends the text. Both lists have the path, or what ended before a refusal.
pub fn close(r: Radio, verbs: &mut [u8], coords: &mut [f32]) -> Closing
    ensures { record { radio = result.radio; answer = report_of result.report; verbs = verbs.new; coords = coords.new } ≡ close_of (record { radio = r; verbs = verbs.old; coords = coords.old }) }
{
    if !is_open(r) {
        return Closing {
            radio: r,
            report: Err(RadioError::AfterClose),
        };
    }
    let reading = ended(r, verbs, coords);
    Closing {
        radio: Radio { closed: true, ..r },
        report: reading.map_err(RadioError::from),
    }
}
