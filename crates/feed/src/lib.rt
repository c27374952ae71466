// W-213: the marks of a run, one by one, from its coordinates. Nothing is stored: a feed knows the edge that it is on and the next point to look at.
//
// p has the points of the run, of which none is dropped on closing; points whose squared distance is below near are near; ds holds the lengths of the pattern.
#![tactic(auto)]

pub mod trail;

ghost use Rattle.std.specs.Prelude.{◌≡◌, ◌+◌, ◌*◌, ◌/◌, ◌≤◌, ◌<◌, length, MatchOption};
ghost use Rattle.feed.specs.Feed.{NextFar, Turns, FeedFits, Feeds, first_feed};

use dashes::pattern::Beat;
use dashes::spot::{Mark, Spot, cut_of, falls, passed, spot_of, turned};
use endpoint::Endpoint;
use kept::near::is_near;
use kept::points::{Kept, Points};

// The edge that comes next, with the next cut; the index of the next point to look at; whether the way back to p0 is still to come.
#[derive(Clone, Copy)]
pub struct Feed {
    pub spot: Spot,
    pub next: usize,
    pub closes: bool,
}

// The next mark, and the feed behind it where any mark is still to come.
#[derive(Clone, Copy)]
pub struct Fed {
    pub mark: Mark,
    pub feed: Option<Feed>,
}

// The first point from the one at i on that is not near a.
fn next_far(near: f32, p: Points, a: Endpoint, i: usize) -> Option<usize>
    requires { 2 * i ≤ length p.coords.now }
    ensures { MatchOption result (NextFar near p.entry.coords.now p.entry.first.0 a i (length p.entry.coords.now / 2)) (λ j. NextFar near p.entry.coords.now p.entry.first.0 a i j × (j < length p.entry.coords.now / 2)) }
{
    for j in i..p.count() {
        if !is_near(near, a.position, p.at(j).position) {
            return Some(j);
        }
    }
    None
}

// Past a corner, onto the next edge.
fn turn(near: f32, p: Points, f: Feed) -> Option<Feed>
    requires { (2 ≤ length p.coords.now) × (2 * f.next ≤ length p.coords.now) }
    ensures { Turns near p.entry.coords.now p.entry.first.0 f result }
{
    match next_far(near, p, f.spot.to, f.next) {
        Some(i) => Some(Feed {
            spot: turned(f.spot, p.at(i)),
            next: i + 1,
            ..f
        }),
        None if f.closes => Some(Feed {
            spot: turned(f.spot, p.at(0)),
            next: p.count(),
            closes: false,
        }),
        None => None,
    }
}

pub fn next_fed(near: f32, p: Points, ds: &[f32], f: Feed) -> Fed
    requires { FeedFits near p.coords.now p.first.0 ds.now (Some f) }
    ensures { Feeds near p.entry.coords.now p.entry.first.0 ds.now f result }
{
    if falls(f.spot) {
        return Fed {
            mark: Mark::Cut(cut_of(f.spot)),
            feed: Some(Feed {
                spot: passed(ds, f.spot),
                ..f
            }),
        };
    }
    Fed {
        mark: Mark::Corner(f.spot.to),
        feed: turn(near, p, f),
    }
}

// At the first point of a run; b is the first cut.
pub fn first_feed(k: Kept, closed: bool, b: Beat) -> Feed
    ensures { result ≡ first_feed k.entry.points.coords.now k.entry.points.first.0 k.entry.second closed b }
{
    Feed {
        spot: spot_of(k.p0(), 0.0, k.p1(), b),
        next: k.second + 1,
        closes: closed,
    }
}
