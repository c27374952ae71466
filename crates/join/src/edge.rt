// Edges and their sides (rule 4). Both sides' directions belong to the edge, so they are had once
// and serve the joins at both its ends.
ghost use Rattle.std.specs.Prelude.{◌≡◌};
ghost use Rattle.join.specs.Edge.{edge_side_of, edge_of};

use plane::vector::{Point, length, normalize, turned};

// One side of an edge: the points beside its two ends, and the direction from one to the other.
#[derive(Clone, Copy)]
pub struct EdgeSide {
    pub from: Point,
    pub to: Point,
    pub v: Point,
}

#[derive(Clone, Copy)]
pub struct Edge {
    pub length: f32,
    pub t: Point,
    pub positive: EdgeSide,
    pub negative: EdgeSide,
}

#[tactic(auto, unfolding(crate::specs::Edge::edge_side_of))]
fn edge_side(from: Point, to: Point) -> EdgeSide
    ensures { result ≡ edge_side_of from to }
{
    EdgeSide {
        from,
        to,
        v: normalize(to - from),
    }
}

#[tactic(auto, unfolding(crate::specs::Edge::edge_of))]
pub fn edge_of(from: Point, to: Point, h: f32) -> Edge
    ensures { result ≡ edge_of from to h }
{
    let d = to - from;
    let length = length(d);
    let t = d / length;
    let offset = turned(t) * h;
    Edge {
        length,
        t,
        positive: edge_side(from + offset, to + offset),
        negative: edge_side(from - offset, to - offset),
    }
}
