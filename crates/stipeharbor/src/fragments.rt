// Path text over the radio, as C and Rust link it: the state is words that the caller holds between two calls.
ghost use Rattle.std.specs.Prelude.{◌≡◌};
ghost use Rattle.radio_words.specs.Calls.{start_of, take_of};
ghost use Rattle.stipeharbor.specs.Fragments.{close_out_of};

use lists::put_over;
use radio::answer::report_of;
use radio_words::{call_number, close, start, take};
use refusals::Meaning;

// A new text. `state` gets its words; one that is too short for them is left alone, with 25.
#[unsafe(no_mangle)]
pub extern "C" fn stipeharbor_radio_start(state: &mut [usize]) -> u32
    ensures { record { number = result; state = state.new } ≡ start_of state.old }
{
    call_number(start(state))
}

// Takes a fragment of the text. What ends in it is put behind what was put before, as far as both lists go.
#[unsafe(no_mangle)]
pub extern "C" fn stipeharbor_radio_take(
    state: &mut [usize],
    fragment: &[u8],
    verbs: &mut [u8],
    coords: &mut [f32],
) -> u32
    ensures { record { number = result; state = state.new; verbs = verbs.new; coords = coords.new } ≡ take_of state.old fragment.now verbs.old coords.old }
{
    call_number(take(state, fragment, verbs, coords))
}

// Ends the text. `answer` gets the place, the number of verbs and the number of coordinates; 25 changes nothing.
#[unsafe(no_mangle)]
#[tactic(auto, unfolding(crate::specs::Fragments::close_out_of))]
pub extern "C" fn stipeharbor_radio_close(
    state: &mut [usize],
    verbs: &mut [u8],
    coords: &mut [f32],
    answer: &mut [usize],
) -> u32
    ensures { record { number = result; answer = answer.new; state = state.new; verbs = verbs.new; coords = coords.new } ≡ close_out_of state.old verbs.old coords.old answer.old }
{
    let a = report_of(close(state, verbs, coords));
    if a.number != Meaning::AfterClose as u32 {
        put_over(answer, &[a.place, a.verbs, a.coords]);
    }
    a.number
}
