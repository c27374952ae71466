// Rule 9: the triangles from one section to the next.
ghost use Rattle.std.specs.Prelude.{true, cond, ◌≡◌, ◌*◌, ◌≤◌, length};
ghost use Rattle.lists.specs.Over.{over};
ghost use Rattle.pieces.specs.Piece.{flat_t};
ghost use Rattle.strip.specs.Triangle.{different, tri_of, between, both_of, past};

use crate::section::Section;
use endpoint::VertexId;
use pieces::Index;
use vertices::list::put_triangle;

// Whether no two of the vertices are the same.
fn different(a: VertexId, b: VertexId, c: VertexId) -> bool
    ensures { result ≡ different a.0 b.0 c.0 }
{
    a.0 != b.0 && b.0 != c.0 && a.0 != c.0
}

// A triangle, left out if two of its numbers are equal. The result is the number of triangles.
fn put_different(t: &mut [Index], a: VertexId, b: VertexId, c: VertexId) -> usize
    requires { 3 * length (tri_of a.0 b.0 c.0) ≤ length t.old }
    ensures value { result ≡ length (tri_of a.0 b.0 c.0) }
    ensures t_after { t.new ≡ over (flat_t (tri_of a.0 b.0 c.0)) t.old }
{
    if different(a, b, c) {
        put_triangle(t, a, b, c);
        1
    } else {
        0
    }
}

// (N, P, P') and (N, P', N'). The result is the number of triangles.
pub fn put_between(t: &mut [Index], s: Section, e: Section) -> usize
    requires { 3 * length (between s e) ≤ length t.old }
    ensures value { result ≡ length (between s e) }
    ensures t_after { t.new ≡ over (flat_t (between s e)) t.old }
{
    let n = put_different(t, s.negative, s.positive, e.positive);
    let m = put_different(&mut t[3 * n..], s.negative, e.positive, e.negative);
    n + m
}

// Both triangles, where none is left out.
fn put_both(t: &mut [Index], s: Section, e: Section)
    requires { 6 ≤ length t.old }
    ensures { t.new ≡ over (flat_t (both_of s e)) t.old }
{
    put_triangle(t, s.negative, s.positive, e.positive);
    put_triangle(&mut t[3..], s.negative, e.positive, e.negative);
}

// From the last section of a run that has begun to the one before a joint, whose numbers are new: no test is needed. The result is the number
// of triangles.
fn put_to(t: &mut [Index], begun: bool, last: Section, b: Section) -> usize
    requires b_in_bounds { 3 * length (between (cond begun last b) b) ≤ length t.old }
    requires b_value { begun ≡ true → between last b ≡ both_of last b }
    ensures value { result ≡ length (between (cond begun last b) b) }
    ensures t_after { t.new ≡ over (flat_t (between (cond begun last b) b)) t.old }
{
    if begun {
        put_both(t, last, b);
        2
    } else {
        0
    }
}

// To the section before a joint, and on to the one after it. The result is the number of triangles.
pub fn put_past(t: &mut [Index], begun: bool, last: Section, b: Section, a: Section) -> usize
    requires a_in_bounds { 3 * length (past (cond begun last b) b a) ≤ length t.old }
    requires b_value { begun ≡ true → between last b ≡ both_of last b }
    ensures value { result ≡ length (past (cond begun last b) b a) }
    ensures t_after { t.new ≡ over (flat_t (past (cond begun last b) b a)) t.old }
{
    let n = put_to(t, begun, last, b);
    let m = put_between(&mut t[3 * n..], b, a);
    n + m
}
