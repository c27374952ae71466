// Document 01's program, but for its input and output: what it prints of a path text, put into a list.
#![tactic(auto)]

mod line;
mod mesh_lines;

ghost use Rattle.std.specs.Prelude.{[], ◌≡◌, ◌≤◌};
ghost use Rattle.lines.specs.Placed.{Puts};
ghost use Rattle.pieces.specs.Piece.{lent};
ghost use Rattle.mesh.specs.Mesh as mesh;
ghost use Rattle.page.specs.Page.{options_of, vertex_room, source_room, triangle_room, mesh_page_of, PutsPage};

use crate::line::put_refused;
use crate::mesh_lines::put_mesh;
use mesh::answer::MeshAnswer;
use mesh::tessellate;
use options::Options;
use reader::answer::ReadAnswer;
use reader::read;
use refusals::Meaning;

// Room for any page: two lines that count, and 18 bytes at most to each of 1,024 vertices and 1,536 triangles.
pub const PAGE_ROOM: usize = 65536;

pub type Page = [u8; PAGE_ROOM];

// The longest text that the program takes. The reader takes longer ones.
pub const TEXT_ROOM: usize = 16384;

const VERB_ROOM: usize = 1024;

const COORD_ROOM: usize = 2048;

// Five floats to each of 1,024 vertices.
const VERTEX_ROOM: usize = 5120;

// A record of each.
const SOURCE_ROOM: usize = 1024;

// Three numbers to each of 1,536 triangles.
const TRIANGLE_ROOM: usize = 4608;

// Puts the page of a path text over the start of the list, and answers its length.
pub fn put_page(text: &[u8], out: &mut Page) -> usize
    ensures puts_page { PutsPage text.now out.old result out.new }
    ensures upper_bound { result ≤ 65536 }
{
    if TEXT_ROOM < text.len() {
        return put_refused(out, Meaning::LongText as u32, 0);
    }
    let mut verbs = [0u8; VERB_ROOM];
    let mut coords = [0.0f32; COORD_ROOM];
    let a = ReadAnswer::from(read(text, &mut verbs, &mut coords));
    if a.number != 0 {
        return put_refused(out, a.number, a.place);
    }
    put_stroked(&verbs[..a.verbs], &coords[..a.coords], out)
}

// The page of a path.
fn put_stroked(verbs: &[u8], coords: &[f32], out: &mut Page) -> usize
    ensures puts { Puts (mesh_page_of (mesh.outcome_of verbs.now coords.now options_of [] (lent vertex_room source_room triangle_room))) 0 out.old result out.new }
    ensures upper_bound { result ≤ 65536 }
{
    let mut vertices = [0.0f32; VERTEX_ROOM];
    let mut sources = [0u32; SOURCE_ROOM];
    let mut triangles = [0u32; TRIANGLE_ROOM];
    let a = MeshAnswer::from(tessellate(
        verbs,
        coords,
        options(),
        &[],
        &mut vertices,
        &mut sources,
        &mut triangles,
    ));
    if a.number != 0 {
        return put_refused(out, a.number, a.place);
    }
    put_mesh(
        out,
        &vertices[..5 * a.vertices],
        &triangles[..3 * a.triangles],
    )
}

// The least merge range, 1/128, is 0.0078125.
fn options() -> Options
    ensures { result ≡ options_of }
{
    Options {
        width: 2.0,
        miter_limit: 4.0,
        line_join: 0,
        cap: 0,
        merge_range: 0.0078125,
        detail: 0,
        offset: 0.0,
    }
}
