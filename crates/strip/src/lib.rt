// A run's strip: its joints, one by one, become vertices, sections and triangles (rules 8 and 9 of
// document 01).
#![tactic(auto)]

ghost use Rattle.std.specs.Prelude.{true, cond, ◌≡◌, [], ◌∷◌, ◌+◌, ◌-◌, ◌*◌, ◌≤◌, ◌<◌, length};
ghost use Rattle.endpoint.specs.Endpoint.{id_limit};
ghost use Rattle.lists.specs.Over.{over};
ghost use Rattle.pieces.specs.Piece.{flat_t, lent, laid, Lays};
ghost use Rattle.strip.specs.Triangle.{between};
ghost use Rattle.strip.specs.Strip.{StripFits, StepFits, start_of, stepped_of, piece_of};

use crate::joint::put_vertices;
use crate::section::{Section, after, before};
use crate::triangle::{put_between, put_past};
use endpoint::{EndpointData, VertexId, vertex_after};
use pieces::{Index, Place, next_vertex};

pub mod joint;
pub mod section;
pub mod triangle;

// How far a run's strip has come: where the next vertex and the next triangle go, and its first and
// its last section once it has begun.
// A flag and no Option of the two: the start cap's fan and the way round a closed run take them with no test, and would need an arm that never comes.
#[derive(Clone, Copy)]
pub struct Strip {
    pub place: Place,
    pub begun: bool,
    pub first: Section,
    pub last: Section,
}

// A run that is written from the start of the lists on; its vertices are numbered from base.
pub fn start(base: VertexId) -> Strip
    ensures { result ≡ start_of base }
{
    let none = Section {
        negative: VertexId(0),
        positive: VertexId(0),
    };
    Strip {
        place: Place {
            base,
            vertices: 0,
            triangles: 0,
        },
        begun: false,
        first: none,
        last: none,
    }
}

// One joint more: from the last section to the one before it, and on to the one after it.
pub fn lay_joint(v: &mut [f32], src: &mut [u32], t: &mut [Index], s: Strip, j: EndpointData)
    requires { StripFits true s (j ∷ []) (lent v.old src.old t.old) }
    ensures { lent v.new src.new t.new ≡ laid s.place (piece_of s (j ∷ [])) (lent v.old src.old t.old) }
{
    let next = next_vertex(s.place);
    let b = before(next, j);
    let a = after(next, j);
    let from = s.place.vertices;
    put_vertices(&mut v[5 * from..], &mut src[from..], j);
    put_past(&mut t[3 * s.place.triangles..], s.begun, s.last, b, a);
}

// The same where a pass writes.
pub fn lay_joint_if(
    v: &mut [f32],
    src: &mut [u32],
    t: &mut [Index],
    s: Strip,
    j: EndpointData,
    write: bool,
)
    requires { StripFits write s (j ∷ []) (lent v.old src.old t.old) }
    ensures { Lays write s.place (piece_of s (j ∷ [])) (lent v.old src.old t.old) (lent v.new src.new t.new) }
{
    if write {
        lay_joint(v, src, t, s, j);
    }
}

// Each vertex brings a triangle, but for the first two of a run.
fn more_triangles(begun: bool, triangles: usize, vertices: usize) -> usize
    requires { (triangles < id_limit) × (2 ≤ vertices) × (vertices ≤ 4) }
    ensures { result ≡ cond begun (triangles + vertices) (triangles + vertices - 2) }
{
    if begun {
        triangles + vertices
    } else {
        triangles + vertices - 2
    }
}

// The state with one joint more, whose sides have so many vertices.
pub fn step(s: Strip, positive: usize, negative: usize) -> Strip
    requires { StepFits s positive negative }
    ensures { result ≡ stepped_of s positive negative }
{
    let next = next_vertex(s.place);
    let n = positive + negative;
    let before = Section {
        negative: vertex_after(next, positive),
        positive: next,
    };
    Strip {
        place: Place {
            vertices: s.place.vertices + n,
            triangles: more_triangles(s.begun, s.place.triangles, n),
            ..s.place
        },
        begun: true,
        first: if s.begun { s.first } else { before },
        last: Section {
            negative: vertex_after(next, n - 1),
            positive: vertex_after(next, positive - 1),
        },
    }
}

// A closed run goes round to its first section. The result is the number of triangles.
pub fn put_close(t: &mut [Index], s: Strip) -> usize
    requires { 3 * length (between s.last s.first) ≤ length t.old }
    ensures value { result ≡ length (between s.last s.first) }
    ensures t_after { t.new ≡ over (flat_t (between s.last s.first)) t.old }
{
    put_between(t, s.last, s.first)
}
