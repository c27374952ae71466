// A run of one kept point (rule 2): the empty cap there, or nothing.
ghost use Rattle.std.specs.Prelude.{true, false, ◌≡◌, [], ◌∷◌, ◌<◌};
ghost use Rattle.endpoint.specs.Endpoint.{id_limit};
ghost use Rattle.pieces.specs.Piece.{lent, from, Fits, Lays};
ghost use Rattle.run.specs.Run.{draws_cap, cap_shape, cap_size, shape_of_kept, shape_piece, DrawFits, Draws};

use crate::Ends;
use along::Pass;
use endpoint::{Endpoint, VertexId};
use options::{LineCap, Stroke, level_of, rounds_caps};
use pieces::{Index, Place};
use round_cap::tessellate_empty_round_cap;
use vertices::cap::tessellate_empty_square_cap;

// Whether a run of one kept point draws the empty cap.
fn draws_cap(o: Stroke, ends: Ends) -> bool
    ensures { result ≡ draws_cap o.cap ends.closed ends.lines }
{
    !matches!(o.cap, LineCap::Butt) && (ends.closed || ends.lines)
}

// How many vertices the empty cap has; its triangles are two fewer.
fn cap_size(o: Stroke) -> usize
    ensures { result ≡ cap_size o }
{
    if rounds_caps(o.cap) {
        4 << level_of(o)
    } else {
        4
    }
}

// The empty cap at a point.
fn put_empty_cap(
    v: &mut [f32],
    src: &mut [u32],
    t: &mut [Index],
    o: Stroke,
    p: Endpoint,
    base: VertexId,
)
    requires id_lt_id_limit { p.id.0 < id_limit }
    requires fits { Fits true (from base) (shape_piece o false base (cap_shape o p)) (lent v.old src.old t.old) }
    ensures { Lays true (from base) (shape_piece o false base (cap_shape o p)) (lent v.old src.old t.old) (lent v.new src.new t.new) }
{
    if rounds_caps(o.cap) {
        tessellate_empty_round_cap(v, src, t, base, p, o.half_width, level_of(o));
    } else {
        tessellate_empty_square_cap(v, src, t, base, p, o.half_width, 0.0);
    }
}

// The same, where the pass writes.
fn lay_empty_cap(
    v: &mut [f32],
    src: &mut [u32],
    t: &mut [Index],
    pass: Pass,
    p: Endpoint,
    base: VertexId,
)
    requires id_lt_id_limit { p.id.0 < id_limit }
    requires draw_fits { DrawFits pass false base (cap_shape pass.stroke p) (lent v.old src.old t.old) }
    ensures { Lays pass.write (from base) (shape_piece pass.stroke false base (cap_shape pass.stroke p)) (lent v.old src.old t.old) (lent v.new src.new t.new) }
{
    if pass.write {
        put_empty_cap(v, src, t, pass.stroke, p, base);
    }
}

// A run of one kept point.
pub fn draw_alone(
    v: &mut [f32],
    src: &mut [u32],
    t: &mut [Index],
    pass: Pass,
    p: Endpoint,
    base: VertexId,
    ends: Ends,
) -> Place
    requires id_lt_id_limit { p.id.0 < id_limit }
    requires draw_fits { DrawFits pass ends.closed base (shape_of_kept pass.stroke ends.closed ends.lines (p ∷ [])) (lent v.old src.old t.old) }
    ensures { Draws pass ends.closed base (shape_of_kept pass.stroke ends.closed ends.lines (p ∷ [])) (lent v.old src.old t.old) (lent v.new src.new t.new) result }
{
    if draws_cap(pass.stroke, ends) {
        lay_empty_cap(v, src, t, pass, p, base);
        let n = cap_size(pass.stroke);
        return Place {
            base,
            vertices: n,
            triangles: n - 2,
        };
    }
    Place {
        base,
        vertices: 0,
        triangles: 0,
    }
}
