// The page of a mesh: `v N` and a line to each vertex, `t N` and a line to each triangle.
ghost use Rattle.std.specs.Prelude.{ℕ, List, [], ◌∷◌, ◌++◌, ◌+◌, ◌*◌, ◌/◌, ◌≤◌, ◌<◌, length};
ghost use Rattle.lines.specs.Digits.{decimal_of};
ghost use Rattle.lines.specs.Placed.{Puts};
ghost use Rattle.page.specs.Page.{AreShort, line, vertex_line, triangle_line, lines_to, mesh_page};

use crate::Page;
use crate::line::{put_count, put_triangle, put_vertex};

// Five floats to a vertex, of which the first two are its place, and three numbers to a triangle.
pub(crate) fn put_mesh(out: &mut Page, vertices: &[f32], triangles: &[u32]) -> usize
    requires n_bound { length vertices.now ≤ 5120 }
    requires m_bound { length triangles.now ≤ 4608 }
    requires are_short { AreShort triangles.now }
    ensures puts { Puts (mesh_page (length vertices.now / 5) (length triangles.now / 3) vertices.now triangles.now) 0 out.old result out.new }
    ensures upper_bound { result ≤ 65536 }
{
    let n = vertices.len() / 5;
    let m = triangles.len() / 3;
    let drawn = put_list(
        out,
        0,
        b'v',
        n,
        |out: &mut Page, at: usize, i: usize| -> usize
            requires { (at ≤ 65472) × (5 * i + 5 ≤ length vertices.now) }
            ensures puts { Puts (vertex_line vertices.entry.now i) at out.old result out.new }
            ensures upper_bound { result ≤ at + 18 }
        { put_vertex(out, at, vertices[5 * i], vertices[5 * i + 1]) },
    );
    put_list(
        out,
        drawn,
        b't',
        m,
        |out: &mut Page, at: usize, i: usize| -> usize
            requires { (at ≤ 65472) × (3 * i + 3 ≤ length triangles.now) × AreShort triangles.now }
            ensures puts { Puts (triangle_line triangles.entry.now i) at out.old result out.new }
            ensures upper_bound { result ≤ at + 18 }
        {
            let k = 3 * i;
            put_triangle(out, at, triangles[k], triangles[k + 1], triangles[k + 2])
        },
    )
}

// Puts `L N`, and N lines behind it, each by a call. 18 bytes are room for each of these.
fn put_list<F: Fn(&mut Page, usize, usize) -> usize>(
    out: &mut Page,
    at: usize,
    letter: u8,
    n: usize,
    put: F,
) -> usize
    ghost line_of: { ℕ → List ℕ }
    requires room { at + 23 + 18 * n ≤ 65472 }
    requires callable { (o : _) (k i : ℕ) → k ≤ 65472 → i < n → F.pre put o k i }
    requires each { (o : _) (k i j : ℕ) (p : _) → F.post put o k i j p → Puts (line_of i) k o.now j p.now × (j ≤ k + 18) }
    ensures puts { Puts (line (letter ∷ []) (decimal_of n ∷ []) ++ lines_to line_of n) at out.old result out.new }
    ensures upper_bound { result ≤ at + 23 + 18 * n }
{
    let mut next = put_count(out, at, letter, n);
    for i in 0..n {
        next = put(out, next, i);
    }
    next
}
