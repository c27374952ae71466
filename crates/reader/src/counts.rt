// What the events of a text come to: verbs, coordinates, and the first number that is too large.
ghost use Rattle.std.specs.Prelude.{◌≡◌};
ghost use Rattle.reader.specs.Counts.{verb_count, coord_count, large_of, no_counts, added_of};

use values::events::Event;

// How many verbs and coordinates there are, which is where the next ones are put. Behind a number that is too large there is no such place.
#[derive(Clone, Copy)]
pub struct Counts {
    pub verbs: usize,
    pub coords: usize,
    pub large: Option<usize>,
}

// How many places an event takes. A number that is too large takes all that there are, so that nothing is put behind it.
fn verb_count(e: Event) -> usize
    ensures { result ≡ verb_count e }
{
    match e {
        Event::Nothing => 0,
        Event::Beyond(_) => usize::MAX,
        _ => 1,
    }
}

fn coord_count(e: Event) -> usize
    ensures { result ≡ coord_count e }
{
    match e {
        Event::Begin(..) | Event::Line(..) => 2,
        Event::Beyond(_) => usize::MAX,
        _ => 0,
    }
}

fn large(e: Event) -> Option<usize>
    ensures { result ≡ large_of e }
{
    match e {
        Event::Beyond(place) => Some(place),
        _ => None,
    }
}

pub(crate) fn no_counts() -> Counts
    ensures { result ≡ no_counts }
{
    Counts {
        verbs: 0,
        coords: 0,
        large: None,
    }
}

// The counts with one event more.
pub(crate) fn added(c: Counts, e: Event) -> Counts
    ensures { result ≡ added_of c e }
{
    Counts {
        verbs: c.verbs.saturating_add(verb_count(e)),
        coords: c.coords.saturating_add(coord_count(e)),
        large: c.large.or(large(e)),
    }
}
