// The triangles of a file, and which may be read.
ghost use Rattle.std.specs.Prelude.{not, ◌≡◌, ◌+◌, ◌≤◌, T, length, position};
ghost use Rattle.std.specs.List.{range_with_len};
ghost use Rattle.lists.specs.Over.{over};
ghost use Rattle.stl.specs.File.{size_of, corner_at, facet_at, corners_of};
ghost use Rattle.stl.specs.Read.{fine_corner, fine_facet};

use crate::words::word;
use plane::vector::Point;
use stl::facet::Facet;
use stl::finite::{is_finite_pattern, is_zero_pattern};

// `&` and no `&&`, here and for a facet: all nine words are asked at once, in 21 instructions to a triangle where one by one they take 37.
#[tactic(auto, unfolding(stl::specs::Read::fine_corner, stl::specs::Corner::finite_corner))]
fn is_fine_corner(bytes: &[u8], i: usize) -> bool
    requires { i + 12 ≤ length bytes.now }
    ensures { result ≡ fine_corner bytes.now i }
{
    is_finite_pattern(word(bytes, i))
        & is_finite_pattern(word(bytes, i + 4))
        & is_zero_pattern(word(bytes, i + 8))
}

#[tactic(auto, unfolding(stl::specs::Read::fine_facet))]
fn is_fine_facet(bytes: &[u8], k: usize) -> bool
    requires { size_of (k + 1) ≤ length bytes.now }
    ensures { result ≡ fine_facet bytes.now k }
{
    let at = 84 + 50 * k;
    is_fine_corner(bytes, at + 12) & is_fine_corner(bytes, at + 24) & is_fine_corner(bytes, at + 36)
}

// The first of n triangles that is not fine.
pub(crate) fn first_damaged(bytes: &[u8], n: usize) -> Option<usize>
    requires { size_of n ≤ length bytes.now }
    ensures { result ≡ position (λ k. not (fine_facet bytes.now k)) (range_with_len 0 n) }
{
    (0..n).position(|k| !is_fine_facet(bytes, k))
}

fn corner_at(bytes: &[u8], i: usize) -> Point
    requires { (i + 12 ≤ length bytes.now) × T (fine_corner bytes.now i) }
    ensures { result ≡ corner_at bytes.now i }
{
    Point {
        x: f32::from_bits(word(bytes, i)),
        y: f32::from_bits(word(bytes, i + 4)),
    }
}

// A triangle that is fine.
pub(crate) fn facet_at(bytes: &[u8], k: usize) -> Facet
    requires { (size_of (k + 1) ≤ length bytes.now) × T (fine_facet bytes.now k) }
    ensures { result ≡ facet_at bytes.now k }
{
    let at = 84 + 50 * k;
    Facet {
        a: corner_at(bytes, at + 12),
        b: corner_at(bytes, at + 24),
        c: corner_at(bytes, at + 36),
    }
}

// Six floats at the start of a list. One by one: copied from an array they take 22 instructions and not 8, since it is asked whether the two overlap.
pub(crate) fn put_corners(corners: &mut [f32], f: Facet)
    requires { 6 ≤ length corners.old }
    ensures { corners.new ≡ over (corners_of f) corners.old }
{
    corners[0] = f.a.x;
    corners[1] = f.a.y;
    corners[2] = f.b.x;
    corners[3] = f.b.y;
    corners[4] = f.c.x;
    corners[5] = f.c.y;
}
