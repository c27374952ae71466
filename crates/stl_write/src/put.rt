// The parts of a file, each put at the start of a byte list.
ghost use Rattle.std.specs.Prelude.{◌≡◌, ◌++◌, ◌≤◌, T, length};
ghost use Rattle.lists.specs.Over.{over};
ghost use Rattle.stl.specs.Bytes.{zeros, le32};
ghost use Rattle.stl.specs.Corner.{finite_corner};
ghost use Rattle.stl.specs.File.{corner_bytes, facet_bytes};
ghost use Rattle.stl_write.specs.Fine.{finite_facet};

use plane::vector::Point;
use stl::facet::Facet;

fn put_zeros(bytes: &mut [u8], n: usize)
    requires { n ≤ length bytes.old }
    ensures { bytes.new ≡ over (zeros n) bytes.old }
{
    bytes[..n].fill(0);
}

// The lowest byte first.
fn put_word(bytes: &mut [u8], n: u32)
    requires { 4 ≤ length bytes.old }
    ensures { bytes.new ≡ over (le32 n) bytes.old }
{
    let word = n.to_le_bytes();
    bytes[0] = word[0];
    bytes[1] = word[1];
    bytes[2] = word[2];
    bytes[3] = word[3];
}

// x, y, and a z of zero bytes.
fn put_corner(bytes: &mut [u8], p: Point)
    requires { (12 ≤ length bytes.old) × T (finite_corner p) }
    ensures { bytes.new ≡ over (corner_bytes p) bytes.old }
{
    put_word(bytes, p.x.to_bits());
    put_word(&mut bytes[4..], p.y.to_bits());
    put_zeros(&mut bytes[8..], 4);
}

// Header and count.
pub(crate) fn put_head(bytes: &mut [u8], count: u32)
    requires { 84 ≤ length bytes.old }
    ensures { bytes.new ≡ over (zeros 80 ++ le32 count) bytes.old }
{
    put_zeros(bytes, 80);
    put_word(&mut bytes[80..], count);
}

// The 50 bytes of a triangle.
pub(crate) fn put_facet(bytes: &mut [u8], f: Facet)
    requires { (50 ≤ length bytes.old) × T (finite_facet f) }
    ensures { bytes.new ≡ over (facet_bytes f) bytes.old }
{
    put_zeros(bytes, 12);
    put_corner(&mut bytes[12..], f.a);
    put_corner(&mut bytes[24..], f.b);
    put_corner(&mut bytes[36..], f.c);
    put_zeros(&mut bytes[48..], 2);
}
