// Where a pass over the verbs stands.
ghost use Rattle.std.specs.Prelude.{◌≡◌, ◌+◌, ◌<◌};
ghost use Rattle.endpoint.specs.Endpoint.{id_limit};
ghost use Rattle.runs.specs.Cursor.{start_of, moved_of};

use endpoint::{EndpointId, VertexId, endpoint_after};
use path::verbs::names_point;
use pieces::Place;

// The number of the current run's first endpoint, how many of its points are named, and what the runs before it drew.
#[derive(Clone, Copy)]
pub struct Cursor {
    pub first: EndpointId,
    pub size: usize,
    pub place: Place,
}

pub fn start() -> Cursor
    ensures { result ≡ start_of }
{
    Cursor {
        first: EndpointId(0),
        size: 0,
        place: Place {
            base: VertexId(0),
            vertices: 0,
            triangles: 0,
        },
    }
}

// Behind a verb, where so much is drawn: one point more, or where the next run begins.
pub fn moved(g: Cursor, verb: u8, place: Place) -> Cursor
    requires { g.first.0 + g.size < id_limit }
    ensures { result ≡ moved_of g verb place }
{
    if names_point(verb) {
        return Cursor {
            size: g.size + 1,
            place,
            ..g
        };
    }
    Cursor {
        first: endpoint_after(g.first, g.size),
        size: 0,
        place,
    }
}
