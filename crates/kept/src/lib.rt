// Rule 1: the points of a run, read off its coordinates, and where its kept points begin and end.
//
// Points whose squared distance is below the limit are near.
#![tactic(auto)]

pub mod near;
pub mod points;

ghost use Rattle.std.specs.Prelude.{◌≡◌, ◌≤◌, ◌<◌, length};
ghost use Rattle.endpoint.specs.Endpoint.{id_limit};
ghost use Rattle.kept.specs.Held.{p0_of, p1_of};
ghost use Rattle.kept.specs.Looks.{FirstFar, looked_of, Ended};

use crate::near::is_near;
use crate::points::{Kept, Points};
use endpoint::Endpoint;

// The first point that is not near the run's first, or the number of points.
pub fn first_far(limit: f32, p: Points) -> usize
    requires { 2 ≤ length p.coords.now }
    ensures { FirstFar limit p.entry.coords.now p.entry.first.0 result }
{
    let p0 = p.at(0);
    let end = p.count();
    for i in 1..end {
        let c = p.at(i);
        if !is_near(limit, p0.position, c.position) {
            return i;
        }
    }
    end
}

// How far a look for the end of a closed run has come: the last kept point, and the number of points
// up to the last kept one that is not near p0.
#[derive(Clone, Copy)]
pub struct Look {
    pub last: Endpoint,
    pub end: usize,
}

#[tactic(auto, unfolding(crate::specs::Looks::looked_of))]
fn looked(limit: f32, l: Look, p0: Endpoint, c: Endpoint, i: usize) -> Look
    requires { i < id_limit }
    ensures { result ≡ looked_of limit l p0 c i }
{
    if is_near(limit, l.last.position, c.position) {
        l
    } else if is_near(limit, p0.position, c.position) {
        Look { last: c, ..l }
    } else {
        Look {
            last: c,
            end: i + 1,
        }
    }
}

// How many points of a closed run are left: behind the last kept one that is not near p0 all are dropped.
pub fn kept_end(limit: f32, p: Points) -> usize
    requires { 2 ≤ length p.coords.now }
    ensures { Ended limit p.entry.coords.now p.entry.first.0 result }
{
    let p0 = p.at(0);
    let mut l = Look { last: p0, end: 1 };
    for i in 1..p.count() {
        l = looked(limit, l, p0, p.at(i), i);
    }
    l.end
}

// The first two kept points.
impl<'a> Kept<'a> {
    pub fn p0(self) -> Endpoint
        ensures { result ≡ p0_of self.entry }
    {
        self.points.at(0)
    }

    pub fn p1(self) -> Endpoint
        ensures { result ≡ p1_of self.entry }
    {
        self.points.at(self.second)
    }
}
