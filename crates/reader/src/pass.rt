// The pass over a text, whole or by parts: whether it has the form, what it comes to, and its verbs and coordinates, each event's put behind
// those of the one before, as far as the lists go.
ghost use Rattle.std.specs.Prelude.{◌≡◌, [], ◌∷◌, ◌≤◌, ◌<◌, ◌+◌, length};
ghost use Rattle.lists.specs.Over.{over, put_at};
ghost use Rattle.reader.specs.Counts.{verb_of, coords_at, all_places};
ghost use Rattle.reader.specs.Pass.{event_put, called_put, set_out, is_over, stepped, pass_of};

use crate::counts::{Counts, added, no_counts};
use form::machine::is_lost;
use path::verbs::{BEGIN, END_CLOSED, END_OPEN, LINE};
use values::events::Event;
use values::state::{Called, State, start, take};

#[tactic(auto, unfolding(lists::specs::Over::over))]
fn put_verb(verbs: &mut [u8], verb: u8)
    ensures { verbs.new ≡ over (verb ∷ []) verbs.old }
{
    if let [first, ..] = verbs {
        *first = verb;
    }
}

#[tactic(auto, unfolding(lists::specs::Over::over))]
fn put_point(coords: &mut [f32], x: f32, y: f32)
    ensures { coords.new ≡ over (x ∷ y ∷ []) coords.old }
{
    if let [first, ..] = coords {
        *first = x;
    }
    if let [_, second, ..] = coords {
        *second = y;
    }
}

// Puts an event's verb and its coordinates at the front of two lists.
#[tactic(auto, unfolding(lists::specs::Over::over))]
fn put_event(verbs: &mut [u8], coords: &mut [f32], e: Event)
    ensures verbs_after { verbs.new ≡ over (verb_of e) verbs.old }
    ensures coords_after { coords.new ≡ over (coords_at e) coords.old }
{
    match e {
        Event::Nothing | Event::Beyond(_) => {}
        Event::Begin(x, y, _) => {
            put_verb(verbs, BEGIN);
            put_point(coords, x, y);
        }
        Event::Line(x, y, _) => {
            put_verb(verbs, LINE);
            put_point(coords, x, y);
        }
        Event::EndOpen(_) => put_verb(verbs, END_OPEN),
        Event::EndClosed(_) => put_verb(verbs, END_CLOSED),
    }
}

// The same from a place of each list on.
fn put_at(verbs: &mut [u8], coords: &mut [f32], n: usize, m: usize, e: Event)
    ensures verbs_after { verbs.new ≡ put_at n (verb_of e) verbs.old }
    ensures coords_after { coords.new ≡ put_at m (coords_at e) coords.old }
{
    let i = n.min(verbs.len());
    let j = m.min(coords.len());
    put_event(&mut verbs[i..], &mut coords[j..], e);
}

// Puts an event behind what was counted, and counts it. Most bytes call for nothing: with no arm for that a byte cost the reader
// 55 to 75 instructions more.
fn put_next(verbs: &mut [u8], coords: &mut [f32], c: Counts, e: Event) -> Counts
    ensures { record { counts = result; verbs = verbs.new; coords = coords.new } ≡ event_put (record { counts = c; verbs = verbs.old; coords = coords.old }) e }
{
    match e {
        Event::Nothing => c,
        _ => {
            put_at(verbs, coords, c.verbs, c.coords, e);
            added(c, e)
        }
    }
}

// Puts what a byte calls for: by the number that ends before it, then by its letter, but for one that is out of form.
fn put_called(verbs: &mut [u8], coords: &mut [f32], c: Counts, called: Called, lost: bool) -> Counts
    ensures { record { counts = result; verbs = verbs.new; coords = coords.new } ≡ called_put (record { counts = c; verbs = verbs.old; coords = coords.old }) called lost }
{
    let d = put_next(verbs, coords, c, called.number);
    if lost {
        return d;
    }
    put_next(verbs, coords, d, called.letter)
}

// How far a text has come.
#[derive(Clone, Copy)]
pub struct Passage {
    pub state: State,
    pub counts: Counts,
    // The place of the next byte, or of the first byte with which the text so far begins no text of the form.
    pub place: usize,
}

// Before the first byte.
pub fn set_out() -> Passage
    ensures { result ≡ set_out }
{
    Passage {
        state: start(),
        counts: no_counts(),
        place: 0,
    }
}

// Whether no text of the form begins so.
pub fn is_over(p: Passage) -> bool
    ensures { result ≡ is_over p }
{
    is_lost(p.state.mode)
}

// One byte more.
#[tactic(auto, unfolding(crate::specs::Pass::stepped))]
fn step(p: Passage, b: u8, verbs: &mut [u8], coords: &mut [f32]) -> Passage
    requires { p.place < all_places }
    ensures { record { passage = result; verbs = verbs.new; coords = coords.new } ≡ stepped (record { passage = p; verbs = verbs.old; coords = coords.old }) b }
{
    let behind = p.place + 1;
    let t = take(p.state, b, p.place, behind);
    let lost = is_lost(t.state.mode);
    Passage {
        state: t.state,
        counts: put_called(verbs, coords, p.counts, t.called, lost),
        place: if lost { p.place } else { behind },
    }
}

// The bytes of a text or of a part of it, up to one that is out of form.
pub fn pass(p: Passage, text: &[u8], verbs: &mut [u8], coords: &mut [f32]) -> Passage
    requires { p.place + length text.now ≤ all_places }
    ensures { record { passage = result; verbs = verbs.new; coords = coords.new } ≡ pass_of (record { passage = p; verbs = verbs.old; coords = coords.old }) text.now }
{
    let mut q = p;
    for b in text {
        if is_over(q) {
            break;
        }
        q = step(q, *b, verbs, coords);
    }
    q
}
