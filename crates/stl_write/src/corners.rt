// The mesh's triangles by their corners, and which may be written.
ghost use Rattle.std.specs.Prelude.{not, ◌≡◌, ◌/◌, ◌<◌, T, length, position};
ghost use Rattle.std.specs.List.{range_with_len};
ghost use Rattle.stl.specs.Corner.{finite_corner};
ghost use Rattle.stl.specs.Write.{corner_of, fine_vertex, fine_triangle, facet_of};

use pieces::Index;
use plane::vector::Point;
use stl::facet::Facet;

fn corner_of(vertices: &[f32], i: usize) -> Point
    requires { i < length vertices.now / 5 }
    ensures { result ≡ corner_of vertices.now i }
{
    Point {
        x: vertices[5 * i],
        y: vertices[5 * i + 1],
    }
}

#[tactic(auto, using(stl::proofs::Corner::finite_same), unfolding(stl::specs::Corner::finite_corner))]
fn is_finite_corner(p: Point) -> bool
    ensures { result ≡ finite_corner p }
{
    p.x.is_finite() && p.y.is_finite()
}

#[tactic(auto, unfolding(stl::specs::Write::fine_vertex))]
fn is_fine_vertex(vertices: &[f32], i: usize) -> bool
    ensures { result ≡ fine_vertex vertices.now i }
{
    i < vertices.len() / 5 && is_finite_corner(corner_of(vertices, i))
}

#[tactic(auto, unfolding(stl::specs::Write::fine_triangle))]
fn is_fine_triangle(vertices: &[f32], triangles: &[Index], k: usize) -> bool
    requires { k < length triangles.now / 3 }
    ensures { result ≡ fine_triangle vertices.now triangles.now k }
{
    is_fine_vertex(vertices, triangles[3 * k] as usize)
        && is_fine_vertex(vertices, triangles[3 * k + 1] as usize)
        && is_fine_vertex(vertices, triangles[3 * k + 2] as usize)
}

// The first triangle that is not fine.
pub(crate) fn first_refused(vertices: &[f32], triangles: &[Index]) -> Option<usize>
    ensures { result ≡ position (λ k. not (fine_triangle vertices.now triangles.now k)) (range_with_len 0 (length triangles.now / 3)) }
{
    (0..triangles.len() / 3).position(|k| !is_fine_triangle(vertices, triangles, k))
}

// A triangle that is fine.
pub(crate) fn facet_of(vertices: &[f32], triangles: &[Index], k: usize) -> Facet
    requires { (k < length triangles.now / 3) × T (fine_triangle vertices.now triangles.now k) }
    ensures { result ≡ facet_of vertices.now triangles.now k }
{
    Facet {
        a: corner_of(vertices, triangles[3 * k] as usize),
        b: corner_of(vertices, triangles[3 * k + 1] as usize),
        c: corner_of(vertices, triangles[3 * k + 2] as usize),
    }
}
