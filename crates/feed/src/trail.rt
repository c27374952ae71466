// The kept points of a dash, one by one, and where the next dash begins.
ghost use Rattle.feed.specs.Feed.{FeedFits};
ghost use Rattle.feed.specs.Trail.{Follows, Begins};

use crate::{Feed, next_fed};
use dashes::spot::Mark;
use endpoint::Endpoint;
use kept::near::is_near;
use kept::points::Points;

// The last kept point of a dash, whether the dash goes on behind it, and the feed there.
// A flag and no Option of the feed: behind a dash's last point the feed is still needed, to look for the next dash.
#[derive(Clone, Copy)]
pub struct Trail {
    pub last: Endpoint,
    pub on: bool,
    pub feed: Option<Feed>,
}

// The next kept point of a dash, to which the trail goes on; where there is none, the trail's feed then stands behind the dash.
// Cut runs pass through rule 1 again: a point that is near the last kept one is dropped. A cut is the last point of a dash.
pub fn next_point(near: f32, p: Points, ds: &[f32], t: &mut Trail) -> Option<Endpoint>
    requires { FeedFits near p.coords.now p.first.0 ds.now t.old.feed }
    ensures { Follows near p.entry.coords.now p.entry.first.0 ds.now t.old result t.new }
{
    while t.on
        && let Some(f) = t.feed
    {
        let m = next_fed(near, p, ds, f);
        t.feed = m.feed;
        let q = match m.mark {
            Mark::Cut(q) => {
                t.on = false;
                q
            }
            Mark::Corner(q) => q,
        };
        if !is_near(near, t.last.position, q.position) {
            t.last = q;
            return Some(q);
        }
    }
    None
}

// Through a gap to the next dash, which begins at a cut.
pub fn next_dash(near: f32, p: Points, ds: &[f32], mut feed: Option<Feed>) -> Option<Trail>
    requires { FeedFits near p.coords.now p.first.0 ds.now feed }
    ensures { Begins near p.entry.coords.now p.entry.first.0 ds.now feed result }
{
    while let Some(f) = feed {
        let m = next_fed(near, p, ds, f);
        feed = m.feed;
        if let Mark::Cut(q) = m.mark {
            return Some(Trail {
                last: q,
                on: true,
                feed,
            });
        }
    }
    None
}
