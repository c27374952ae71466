// What the mesh call answers.
ghost use Rattle.std.specs.Prelude.{true, ◌≡◌, ◌≤◌};
ghost use Rattle.mesh.specs.Answer.{mesh_answer_of, with_counts, roomed_of, Plenty};
ghost use Rattle.mesh.specs.declared.answer.MeshError.TheVariants.{Refused};

use pieces::Place;
use refusals::{Meaning, Refusal, Verdict};

// How many vertices and triangles a mesh has.
#[derive(Clone, Copy)]
pub struct MeshSize {
    pub vertices: usize,
    pub triangles: usize,
}

// Why a path gets no mesh: the first refusal by number. Those for want of room have both counts.
#[derive(Clone, Copy)]
pub enum MeshError {
    // Refusals 1 to 4, and 26.
    Refused(Refusal),
    // Refusal 6: too few vertex places.
    VertexRoom(MeshSize),
    // Refusal 7: too few triangle places.
    TriangleRoom(MeshSize),
}

// What the call says, in the terms of document 01's table, by number, as `mesh_answer_of` and C have it.
#[derive(Clone, Copy)]
pub struct MeshAnswer {
    pub number: u32,
    pub place: usize,
    pub vertices: usize,
    pub triangles: usize,
}

// How many vertices and triangles there is room for.
#[derive(Clone, Copy)]
pub struct Rooms {
    pub vertices: usize,
    pub triangles: usize,
}

impl From<Place> for MeshSize {
    ghost from_gives = { λ d size. size ≡ record { vertices = d.vertices; triangles = d.triangles } };

    fn from(d: Place) -> MeshSize {
        MeshSize {
            vertices: d.vertices,
            triangles: d.triangles,
        }
    }
}

impl From<Refusal> for MeshError {
    ghost from_gives = { λ r e. e ≡ Refused r };

    fn from(r: Refusal) -> MeshError {
        MeshError::Refused(r)
    }
}

// Whether there is room for the most that so many coordinates can need: four vertices and four triangles to a point, twice as many with each level of arcs.
pub fn is_plenty(r: Rooms, coords: usize, level: u32) -> bool
    requires { level ≤ 6 }
    ensures { result ≡ true → Plenty level r coords }
{
    coords <= (r.vertices >> level) / 2 && coords <= (r.triangles >> level) / 2
}

// Refusals 6 and 7, by what a path needs.
pub fn judged(d: Place, r: Rooms) -> Result<MeshSize, MeshError>
    ensures { mesh_answer_of result ≡ roomed_of d.vertices d.triangles r.vertices r.triangles }
{
    let size = MeshSize::from(d);
    if r.vertices < size.vertices {
        return Err(MeshError::VertexRoom(size));
    }
    if r.triangles < size.triangles {
        return Err(MeshError::TriangleRoom(size));
    }
    Ok(size)
}

// The number, the place and both counts that an answer stands for.
impl From<Result<MeshSize, MeshError>> for MeshAnswer {
    ghost from_gives = { λ r a. a ≡ mesh_answer_of r };

    fn from(r: Result<MeshSize, MeshError>) -> MeshAnswer {
        match r {
            Ok(size) => with_counts(Meaning::Accepted as u32, size),
            Err(MeshError::Refused(refusal)) => {
                let verdict = Verdict::from(refusal);
                MeshAnswer {
                    number: verdict.number,
                    place: verdict.place,
                    vertices: 0,
                    triangles: 0,
                }
            }
            Err(MeshError::VertexRoom(size)) => with_counts(Meaning::VertexRoom as u32, size),
            Err(MeshError::TriangleRoom(size)) => with_counts(Meaning::TriangleRoom as u32, size),
        }
    }
}

fn with_counts(number: u32, size: MeshSize) -> MeshAnswer
    ensures { result ≡ with_counts number size.vertices size.triangles }
{
    MeshAnswer {
        number,
        place: 0,
        vertices: size.vertices,
        triangles: size.triangles,
    }
}
