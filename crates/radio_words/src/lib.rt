// The radio's calls over words that C and Rust can hold between two of them, one to a field of the state. Words that are no state's count as closed.
#![tactic(auto)]

mod codec;
mod fields;

ghost use Rattle.std.specs.Prelude.{◌≡◌, ◌==◌};
ghost use Rattle.refusals.specs.Numbers.{number_of, after_close};
ghost use Rattle.radio.specs.Answer.{report_of};
ghost use Rattle.radio_words.specs.Calls.{call_number, start_of, take_of, close_of};

use crate::codec::{held, words_of};
use lists::put_over;
use radio::AfterClose;
use radio::answer::RadioError;
use reader::answer::PathSize;
use refusals::Meaning;

// How many words a state is.
pub const WORDS: usize = 21;

// The number of a start and of a fragment.
pub fn call_number(r: Result<(), AfterClose>) -> u32
    ensures { result ≡ call_number r }
{
    match r {
        Ok(()) => Meaning::Accepted as u32,
        Err(_) => Meaning::AfterClose as u32,
    }
}

// A new text, where there is room for its state.
#[tactic(auto, unfolding(crate::specs::Calls::start_of))]
pub fn start(state: &mut [usize]) -> Result<(), AfterClose>
    ensures { record { number = call_number result; state = state.new } ≡ start_of state.old }
{
    if state.len() < WORDS {
        return Err(AfterClose);
    }
    put_over(state, &words_of(radio::start()));
    Ok(())
}

// Takes a fragment; after a close, or where the words are no state's, nothing changes.
#[tactic(auto, unfolding(crate::specs::Calls::take_of))]
pub fn take(
    state: &mut [usize],
    fragment: &[u8],
    verbs: &mut [u8],
    coords: &mut [f32],
) -> Result<(), AfterClose>
    ensures { record { number = call_number result; state = state.new; verbs = verbs.new; coords = coords.new } ≡ take_of state.old fragment.now verbs.old coords.old }
{
    let on = radio::take(held(state), fragment, verbs, coords)?;
    put_over(state, &words_of(on));
    Ok(())
}

// Whether there was a closing call before.
fn is_behind(r: Result<PathSize, RadioError>) -> bool
    ensures { result ≡ (report_of r).number == number_of after_close }
{
    matches!(r, Err(RadioError::AfterClose))
}

// Ends the text; after a close, or where the words are no state's, nothing changes.
#[tactic(auto, unfolding(crate::specs::Calls::close_of))]
pub fn close(
    state: &mut [usize],
    verbs: &mut [u8],
    coords: &mut [f32],
) -> Result<PathSize, RadioError>
    ensures { record { answer = report_of result; state = state.new; verbs = verbs.new; coords = coords.new } ≡ close_of state.old verbs.old coords.old }
{
    let c = radio::close(held(state), verbs, coords);
    if !is_behind(c.report) {
        put_over(state, &words_of(c.radio));
    }
    c.report
}
