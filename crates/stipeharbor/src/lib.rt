// The library as C and Rust link it: calls over numbers and slices, ten here, two that measure in `measuring` and the radio's three in `fragments`, each answering document 01's number. What a number stands for is written over
// the start of a list that the caller lends, as far as that list goes, so no call has a `requires`.
#![tactic(auto)]

pub mod fragments;
mod measuring;

ghost use Rattle.std.specs.Prelude.{◌≡◌};
ghost use Rattle.inspect.specs.Answer.{check_of, check_attached_of};
ghost use Rattle.pieces.specs.Piece.{lent};
ghost use Rattle.stipeharbor.specs.Calls.{options_of, tessellated, tessellate_out_of, normal_out_of, ReadsOut, RootsOut, stl_write_out_of, stl_read_out_of, widen_out_of, narrow_out_of, check_out_of};

use inspect::answer::verdict_of;
use inspect::{check, check_attached};
use lists::put_over;
use mesh::answer::MeshAnswer;
use mesh::tessellate;
use options::Options;
use pieces::Index;
use plane::normal::{NormalAnswer, compute_normal};
use plane::vector::Point;
use reader::answer::ReadAnswer;
use reader::read;
use root::{Answer, root};
use stl::answer::StlAnswer;
use stl_read::stl_read;
use stl_write::stl_write;
use widths::answer::ListedAnswer;
use widths::{narrow, widen};

// The mesh call. `answer` gets the place, the number of vertices and the number of triangles.
#[unsafe(no_mangle)]
pub extern "C" fn stipeharbor_tessellate(
    verbs: &[u8],
    coords: &[f32],
    width: f32,
    miter_limit: f32,
    line_join: u32,
    line_cap: u32,
    merge_range: f32,
    detail: u32,
    dash_offset: f32,
    dashes: &[f32],
    vertices: &mut [f32],
    sources: &mut [u32],
    triangles: &mut [Index],
    answer: &mut [usize],
) -> u32
    ensures { tessellated result answer.new vertices.new sources.new triangles.new ≡ tessellate_out_of verbs.now coords.now (options_of width miter_limit line_join line_cap merge_range detail dash_offset) dashes.now (lent vertices.old sources.old triangles.old) answer.old }
{
    let options = Options {
        width,
        miter_limit,
        line_join,
        cap: line_cap,
        merge_range,
        detail,
        offset: dash_offset,
    };
    let a = MeshAnswer::from(tessellate(
        verbs, coords, options, dashes, vertices, sources, triangles,
    ));
    put_over(answer, &[a.place, a.vertices, a.triangles]);
    a.number
}

// The reader. `answer` gets the place, the number of verbs and the number of coordinates.
#[unsafe(no_mangle)]
pub extern "C" fn stipeharbor_read(
    text: &[u8],
    verbs: &mut [u8],
    coords: &mut [f32],
    answer: &mut [usize],
) -> u32
    ensures { ReadsOut text.now verbs.old coords.old answer.old (record { number = result; answer = answer.new; verbs = verbs.new; coords = coords.new }) }
{
    let a = ReadAnswer::from(read(text, verbs, coords));
    put_over(answer, &[a.place, a.verbs, a.coords]);
    a.number
}

// The root. `value` gets it, or +0 with refusal 13.
#[unsafe(no_mangle)]
pub extern "C" fn stipeharbor_root(x: f32, value: &mut [f32]) -> u32
    ensures { RootsOut x value.old (record { number = result; floats = value.new }) }
{
    let rooted = Answer::from(root(x));
    put_over(value, &[rooted.value]);
    rooted.number
}

// lyon's `compute_normal` of (x1, y1) and (x2, y2). `normal` gets its x and y, or zeros with refusal 4.
#[unsafe(no_mangle)]
pub extern "C" fn stipeharbor_compute_normal(
    x1: f32,
    y1: f32,
    x2: f32,
    y2: f32,
    normal: &mut [f32],
) -> u32
    ensures { record { number = result; floats = normal.new } ≡ normal_out_of x1 y1 x2 y2 normal.old }
{
    let v1 = Point { x: x1, y: y1 };
    let v2 = Point { x: x2, y: y2 };
    let a = NormalAnswer::from(compute_normal(v1, v2));
    put_over(normal, &[a.x, a.y]);
    a.number
}

// Writes a mesh as binary STL. `answer` gets the place and the number of bytes.
#[unsafe(no_mangle)]
pub extern "C" fn stipeharbor_stl_write(
    vertices: &[f32],
    triangles: &[Index],
    bytes: &mut [u8],
    answer: &mut [usize],
) -> u32
    ensures { record { number = result; answer = answer.new; bytes = bytes.new } ≡ stl_write_out_of vertices.now triangles.now bytes.old answer.old }
{
    let w = StlAnswer::from(stl_write(vertices, triangles, bytes));
    put_over(answer, &[w.place, w.count]);
    w.number
}

// Reads the corners of a binary STL file. `answer` gets the place and the number of floats.
#[unsafe(no_mangle)]
pub extern "C" fn stipeharbor_stl_read(
    bytes: &[u8],
    corners: &mut [f32],
    answer: &mut [usize],
) -> u32
    ensures { record { number = result; answer = answer.new; corners = corners.new } ≡ stl_read_out_of bytes.now corners.old answer.old }
{
    let c = StlAnswer::from(stl_read(bytes, corners));
    put_over(answer, &[c.place, c.count]);
    c.number
}

// Widens a stored list. `answer` gets the place and how many numbers were put there.
#[unsafe(no_mangle)]
pub extern "C" fn stipeharbor_widen(numbers: &[u16], wide: &mut [u32], answer: &mut [usize]) -> u32
    ensures { record { number = result; answer = answer.new; list = wide.new } ≡ widen_out_of numbers.now wide.old answer.old }
{
    let l = ListedAnswer::from(widen(numbers, wide));
    put_over(answer, &[l.place, l.count]);
    l.number
}

// Narrows a list to be stored. `answer` gets the place and how many numbers were put there.
#[unsafe(no_mangle)]
pub extern "C" fn stipeharbor_narrow(
    numbers: &[u32],
    narrowed: &mut [u16],
    answer: &mut [usize],
) -> u32
    ensures { record { number = result; answer = answer.new; list = narrowed.new } ≡ narrow_out_of numbers.now narrowed.old answer.old }
{
    let l = ListedAnswer::from(narrow(numbers, narrowed));
    put_over(answer, &[l.place, l.count]);
    l.number
}

// Whether an index list is one of triangles over all of `count` vertices. `answer` gets the place of its first fault.
#[unsafe(no_mangle)]
pub extern "C" fn stipeharbor_check(count: usize, list: &[u32], answer: &mut [usize]) -> u32
    ensures { record { number = result; answer = answer.new } ≡ check_out_of (check_of count list.now) answer.old }
{
    let v = verdict_of(check(count, list));
    put_over(answer, &[v.place]);
    v.number
}

// The same, and whether each triangle but the first shares exactly two vertices with some earlier one.
#[unsafe(no_mangle)]
pub extern "C" fn stipeharbor_check_attached(
    count: usize,
    list: &[u32],
    answer: &mut [usize],
) -> u32
    ensures { record { number = result; answer = answer.new } ≡ check_out_of (check_attached_of count list.now) answer.old }
{
    let v = verdict_of(check_attached(count, list));
    put_over(answer, &[v.place]);
    v.number
}
