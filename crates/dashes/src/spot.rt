// A place on an edge of a run, from which the next mark is read.
ghost use Rattle.std.specs.Prelude.{◌≡◌, ◌<◌};
ghost use Rattle.std.proofs.Math.ListN as lists;
ghost use Rattle.dashes.specs.Pattern.{index_limit};
ghost use Rattle.dashes.specs.Marks.{falls_on, cut_of, passed_of, spot_of, turned_of};

use crate::pattern::{Beat, next_cut};
use endpoint::Endpoint;
use plane::vector::{length, minus, plus, times};

// An edge with the advancements at its ends, and the next cut, which may lie on it or behind it.
#[derive(Clone, Copy)]
pub struct Spot {
    pub from: Endpoint,
    pub to: Endpoint,
    pub start: f32,
    pub end: f32,
    pub beat: Beat,
}

// What comes next on an edge: a cut, or its end.
#[derive(Clone, Copy)]
pub enum Mark {
    Cut(Endpoint),
    Corner(Endpoint),
}

// Whether the cut falls on the edge: at its end it is the next edge's.
#[tactic(auto, unfolding(crate::specs::Marks::falls_on))]
pub fn falls(s: Spot) -> bool
    ensures { result ≡ falls_on s }
{
    s.start <= s.beat.at && s.beat.at < s.end
}

// Where the cut falls. Its number is that of the edge's start.
#[tactic(auto, unfolding(crate::specs::Marks::cut_of))]
pub fn cut_of(s: Spot) -> Endpoint
    ensures { result ≡ cut_of s }
{
    let from = s.from.position;
    let share = (s.beat.at - s.start) / (s.end - s.start);
    Endpoint {
        position: plus(from, times(minus(s.to.position, from), share)),
        id: s.from.id,
    }
}

// Past the cut.
#[tactic(auto, unfolding(crate::specs::Marks::passed_of))]
pub fn passed(ds: &[f32], s: Spot) -> Spot
    requires { (0 < lists.length ds.now) × (s.beat.index < index_limit) }
    ensures { result ≡ passed_of ds.now s }
{
    Spot {
        beat: next_cut(ds, s.beat),
        ..s
    }
}

// On the edge from a, where the advancement is a0, to p.
#[tactic(auto, unfolding(crate::specs::Marks::spot_of))]
pub fn spot_of(a: Endpoint, a0: f32, p: Endpoint, b: Beat) -> Spot
    ensures { result ≡ spot_of a a0 p b }
{
    Spot {
        from: a,
        to: p,
        start: a0,
        end: a0 + length(minus(p.position, a.position)),
        beat: b,
    }
}

// Past the corner.
pub fn turned(s: Spot, p: Endpoint) -> Spot
    ensures { result ≡ turned_of s p }
{
    spot_of(s.to, s.end, p, s.beat)
}
