// The bytes of a fragment, within the limit, at it and behind it; and the end of a text.
ghost use Rattle.std.specs.Prelude.{◌≡◌, ◌≤◌, suc, length};
ghost use mathlib.Core.Bool.{true};
ghost use Rattle.reader.specs.Answer.{text_limit, read_answer_of};
ghost use Rattle.radio.specs.Radio.{is_open, at_limit, past_limit, heard_of, ended_of};

use crate::Radio;
use reader::answer::{PathSize, ReadError, judged};
use reader::pass::pass;
use reader::{END, TEXT_LIMIT};

// Of the byte at the limit only the number before it counts: one that goes on with no number is taken for white space.
fn at_limit(b: u8) -> u8
    ensures { result ≡ at_limit b }
{
    match b {
        b'.' | b'0'..=b'9' => b,
        _ => b' ',
    }
}

// A byte that comes when the limit is reached.
fn past_limit(r: Radio, b: u8, verbs: &mut [u8], coords: &mut [f32]) -> Radio
    requires { (r.passage.place ≤ r.length) × (r.length ≤ suc text_limit) }
    ensures { record { radio = result; verbs = verbs.new; coords = coords.new } ≡ past_limit (record { radio = r; verbs = verbs.old; coords = coords.old }) b }
{
    if TEXT_LIMIT < r.length {
        return r;
    }
    Radio {
        passage: pass(r.passage, &[at_limit(b)], verbs, coords),
        length: r.length + 1,
        closed: false,
    }
}

pub(crate) fn hear(r: Radio, fragment: &[u8], verbs: &mut [u8], coords: &mut [f32]) -> Radio
    requires { is_open r ≡ true }
    ensures { record { radio = result; verbs = verbs.new; coords = coords.new } ≡ heard_of (record { radio = r; verbs = verbs.old; coords = coords.old }) fragment.now }
{
    let n = fragment.len().min(TEXT_LIMIT.saturating_sub(r.length));
    let on = Radio {
        passage: pass(r.passage, &fragment[..n], verbs, coords),
        length: r.length + n,
        closed: false,
    };
    if n < fragment.len() {
        return past_limit(on, fragment[n], verbs, coords);
    }
    on
}

// Refusals 8 to 11, or the path.
pub(crate) fn ended(r: Radio, verbs: &mut [u8], coords: &mut [f32]) -> Result<PathSize, ReadError>
    requires { is_open r ≡ true }
    ensures { record { answer = read_answer_of result; verbs = verbs.new; coords = coords.new } ≡ ended_of (record { radio = r; verbs = verbs.old; coords = coords.old }) }
{
    if TEXT_LIMIT < r.length {
        return Err(ReadError::TooLong);
    }
    let p = pass(r.passage, &[END], verbs, coords);
    judged(p, verbs.len(), coords.len())
}
