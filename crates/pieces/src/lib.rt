// What a pass writes, or only counts, and where it stands: pieces of a mesh, places in the lists that are lent, and their laws.
#![tactic(auto)]

ghost use Rattle.std.specs.Prelude.{◌≡◌, ◌<◌};
ghost use Rattle.endpoint.specs.Endpoint.{id_limit, vertex_after};
ghost use Rattle.pieces.specs.Piece.{next_vertex};

use endpoint::{VertexId, vertex_after};

// Three numbers of vertices to a triangle, each held as a `VertexId` holds it (W-205: "make the triangle list u32").
pub type Index = u32;

// Where a pass stands in the lists that it is lent: the number that the first vertex there has, and how many vertices and
// triangles stand before.
#[derive(Clone, Copy)]
pub struct Place {
    pub base: VertexId,
    pub vertices: usize,
    pub triangles: usize,
}

// The number that the next vertex has.
pub fn next_vertex(k: Place) -> VertexId
    requires { next_vertex k < id_limit }
    ensures { result ≡ vertex_after k.base k.vertices }
{
    vertex_after(k.base, k.vertices)
}
