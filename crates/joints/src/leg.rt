// Rule 3: an edge between kept points, with the advancements at its ends.
ghost use Rattle.std.specs.Prelude.{◌≡◌};
ghost use Rattle.joints.specs.Leg.{leg_of, next_leg_of};

use endpoint::Endpoint;
use join::edge::{Edge, edge_of};

#[derive(Clone, Copy)]
pub struct Leg {
    pub from: Endpoint,
    pub to: Endpoint,
    pub start: f32,
    pub end: f32,
    pub edge: Edge,
}

// h is the half width, start the advancement where the leg begins.
#[tactic(auto, unfolding(crate::specs::Leg::leg_of))]
pub fn leg_of(h: f32, start: f32, from: Endpoint, to: Endpoint) -> Leg
    ensures { result ≡ leg_of h start from to }
{
    let edge = edge_of(from.position, to.position, h);
    Leg {
        from,
        to,
        start,
        end: start + edge.length,
        edge,
    }
}

// The leg from where another ends.
#[tactic(auto, unfolding(crate::specs::Leg::next_leg_of))]
pub fn next_leg(h: f32, leg: Leg, p: Endpoint) -> Leg
    ensures { result ≡ next_leg_of h leg p }
{
    leg_of(h, leg.end, leg.to, p)
}
