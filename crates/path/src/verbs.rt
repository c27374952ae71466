// The verbs of a path, and where each may stand.
ghost use Rattle.std.specs.Prelude.{◌≡◌};
ghost use Rattle.path.specs.Verbs.{names, placed, Scanned};

// A run is a begin, lines and an end. A begin and a line have a point each.
// Numbers and no enum: C lends verbs as bytes, and `runs` asks of any byte whether it names a point.
pub const BEGIN: u8 = 0;

pub const LINE: u8 = 1;

pub const END_OPEN: u8 = 2;

pub const END_CLOSED: u8 = 3;

// No path has more verbs than this (refusal 2).
pub const VERB_LIMIT: usize = 65536;

// Whether a verb names a point. After one that does, the path is inside a run.
#[tactic(auto, unfolding(crate::specs::Verbs::names))]
pub fn names_point(verb: u8) -> bool
    ensures { result ≡ names verb }
{
    verb == BEGIN || verb == LINE
}

// Whether a verb is known and stands where it may.
#[tactic(auto, unfolding(crate::specs::Verbs::placed))]
fn is_placed(inside: bool, verb: u8) -> bool
    ensures { result ≡ placed inside verb }
{
    match verb {
        BEGIN => !inside,
        LINE | END_OPEN | END_CLOSED => inside,
        _ => false,
    }
}

// What one pass over the verbs finds: the first that is misplaced, or their number. In that case
// also whether they end inside a run, and how many points they name.
#[derive(Clone, Copy)]
pub struct Scan {
    pub place: usize,
    pub inside: bool,
    pub points: usize,
}

// It stops at the first misplaced verb, since that is the place of refusal 3.
pub fn scan_verbs(verbs: &[u8]) -> Scan
    ensures { Scanned verbs.now result }
{
    let mut inside = false;
    let mut points = 0;
    for (place, verb) in verbs.iter().enumerate() {
        if !is_placed(inside, *verb) {
            return Scan {
                place,
                inside,
                points,
            };
        }
        inside = names_point(*verb);
        points += usize::from(inside);
    }
    Scan {
        place: verbs.len(),
        inside,
        points,
    }
}
