// One vertex and one triangle at the start of the parts that are lent.
ghost use Rattle.std.specs.Prelude.{◌≡◌, ◌≤◌, length};
ghost use Rattle.lists.specs.Over.{over};
ghost use Rattle.pieces.specs.Piece.{floats_of, sources_of};
ghost use Rattle.triangles.specs.Tri.{numbers_of};
ghost use Rattle.vertices.specs.Vertex.{vertex_of, triangle_of};

use endpoint::VertexId;
use pieces::Index;
use plane::vector::Point;

// Five floats: place, normal, advancement; and its record.
pub fn put_vertex(v: &mut [f32], src: &mut [u32], place: Point, normal: Point, a: f32, source: u32)
    requires { (5 ≤ length v.old) × (1 ≤ length src.old) }
    ensures v_after { v.new ≡ over (floats_of (vertex_of place normal a source)) v.old }
    ensures src_after { src.new ≡ over (sources_of (vertex_of place normal a source)) src.old }
{
    v[0] = place.x;
    v[1] = place.y;
    v[2] = normal.x;
    v[3] = normal.y;
    v[4] = a;
    src[0] = source;
}

// Three numbers of vertices.
pub fn put_triangle(t: &mut [Index], a: VertexId, b: VertexId, c: VertexId)
    requires { 3 ≤ length t.old }
    ensures { t.new ≡ over (numbers_of (triangle_of a b c)) t.old }
{
    t[0] = a.0;
    t[1] = b.0;
    t[2] = c.0;
}
