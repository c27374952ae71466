// Rule 9: a section is the numbers of its negative and its positive vertex.
ghost use Rattle.std.specs.Prelude.{◌≡◌, ◌+◌, ◌<◌};
ghost use Rattle.endpoint.specs.Endpoint.{id_limit};
ghost use Rattle.strip.specs.Joint.{joint_count};
ghost use Rattle.strip.specs.Section.{before_of, after_of};

use crate::joint::{negative_count, positive_count};
use endpoint::{EndpointData, VertexId, vertex_after};

// The vertices N and P.
#[derive(Clone, Copy)]
pub struct Section {
    pub negative: VertexId,
    pub positive: VertexId,
}

// The section before a joint whose vertices are numbered from base: the first vertex of each side.
pub fn before(base: VertexId, j: EndpointData) -> Section
    requires { base.0 + joint_count j < id_limit }
    ensures { result ≡ before_of base.0 j }
{
    Section {
        negative: vertex_after(base, positive_count(j)),
        positive: base,
    }
}

// The section after it: the last vertex of each side.
pub fn after(base: VertexId, j: EndpointData) -> Section
    requires { base.0 + joint_count j < id_limit }
    ensures { result ≡ after_of base.0 j }
{
    let p = positive_count(j);
    let n = negative_count(j);
    Section {
        negative: vertex_after(base, p + n - 1),
        positive: vertex_after(base, p - 1),
    }
}
