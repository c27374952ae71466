// Writing binary STL: a mesh into a lent byte list, or one refusal.
#![tactic(auto)]

mod corners;
mod put;

ghost use Rattle.std.specs.Prelude.{◌≡◌, ◌*◌, ◌/◌, ◌≤◌, length};
ghost use Rattle.lists.specs.Over.{over, flat};
ghost use Rattle.stl.specs.Answer.{written_answer_of};
ghost use Rattle.stl.specs.File.{facet_bytes, file_bytes};
ghost use Rattle.stl.specs.Write.{facets_of, too_short, write_of};
ghost use Rattle.stl_write.specs.Fine.{AllFine, PutsFile};

use crate::corners::{facet_of, first_refused};
use crate::put::{put_facet, put_head};
use pieces::Index;
use stl::answer::WriteError;

// The most triangles that the file's u32 counts.
const COUNT_LIMIT: usize = 4294967295;

// Refusal 14, of n triangles. The first test keeps the product in range.
fn is_too_short(n: usize, room: usize) -> bool
    ensures { result ≡ too_short n room }
{
    COUNT_LIMIT < n || room < 84 + 50 * n
}

fn put_facets(bytes: &mut [u8], vertices: &[f32], triangles: &[Index])
    requires triangles_in_bounds { 50 * (length triangles.now / 3) ≤ length bytes.old }
    requires all_fine { AllFine vertices.now triangles.now }
    ensures { bytes.new ≡ over (flat facet_bytes (facets_of vertices.now triangles.now)) bytes.old }
{
    for k in 0..triangles.len() / 3 {
        put_facet(&mut bytes[50 * k..], facet_of(vertices, triangles, k));
    }
}

fn put_file(bytes: &mut [u8], vertices: &[f32], triangles: &[Index])
    requires { PutsFile bytes.old vertices.now triangles.now }
    ensures { bytes.new ≡ over (file_bytes (facets_of vertices.now triangles.now)) bytes.old }
{
    put_head(bytes, (triangles.len() / 3) as u32);
    put_facets(&mut bytes[84..], vertices, triangles);
}

// Writes a mesh, five floats to a vertex and three numbers to a triangle, as a file at the start of `bytes`. A refusal changes nothing.
pub fn stl_write(
    vertices: &[f32],
    triangles: &[Index],
    bytes: &mut [u8],
) -> Result<usize, WriteError>
    ensures { record { answer = written_answer_of result; bytes = bytes.new } ≡ write_of vertices.now triangles.now bytes.old }
{
    let n = triangles.len() / 3;
    if is_too_short(n, bytes.len()) {
        return Err(WriteError::FileRoom);
    }
    if let Some(k) = first_refused(vertices, triangles) {
        return Err(WriteError::Corner(k));
    }
    put_file(bytes, vertices, triangles);
    Ok(84 + 50 * n)
}
