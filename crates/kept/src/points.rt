// The points of a run, read off its coordinates.
ghost use Rattle.std.specs.Prelude.{◌≡◌, ◌+◌, ◌*◌, ◌/◌, ◌≤◌, ◌<◌, length, take};
ghost use Rattle.endpoint.specs.Endpoint.{id_limit};
ghost use Rattle.kept.specs.Points.{endpoint_at};

use endpoint::{Endpoint, EndpointId, endpoint_after};
use plane::vector::Point;

// Coordinates, two to a point, and the number of the first endpoint; a u32 holds the numbers of all.
#[derive(Clone, Copy)]
pub struct Points<'a> {
    pub coords: &'a [f32],
    pub first: EndpointId,
    ghost numbered: { first.0 + length coords.now < id_limit },
}

impl<'a> Points<'a> {
    pub fn count(self) -> usize
        ensures { result ≡ length self.entry.coords.now / 2 }
    {
        self.coords.len() / 2
    }

    pub fn at(self, i: usize) -> Endpoint
        requires { 2 * i + 2 ≤ length self.coords.now }
        ensures { result ≡ endpoint_at self.entry.coords.now self.entry.first.0 i }
    {
        Endpoint {
            position: Point {
                x: self.coords[2 * i],
                y: self.coords[2 * i + 1],
            },
            id: endpoint_after(self.first, i),
        }
    }

    // Those whose coordinates come before a place.
    pub fn up_to(self, to: usize) -> Points<'a>
        requires { to ≤ length self.coords.now }
        ensures coords_value { result.coords.now ≡ take to self.entry.coords.now }
        ensures first_value { result.first ≡ self.entry.first }
    {
        Points {
            coords: &self.coords[..to],
            first: self.first,
        }
    }
}

// A run of two kept points or more: its points, none of which is dropped on closing, and the index of the second that is kept.
#[derive(Clone, Copy)]
pub struct Kept<'a> {
    pub points: Points<'a>,
    pub second: usize,
    ghost within: { 2 * second + 2 ≤ length points.coords.now },
}
