// Refusal 24: whether each triangle but the first has two vertices of an earlier one.
ghost use Rattle.std.specs.Prelude.{◌≡◌, ◌/◌, ◌<◌, length, position};
ghost use Rattle.std.specs.List.{range_with_len};
ghost use Rattle.inspect.specs.Faults.{loose};

use crate::three::{shared, triangle_at};

// The first triangle that no earlier one holds.
pub(crate) fn first_loose(list: &[u32]) -> Option<usize>
    ensures { result ≡ position (loose list.now) (range_with_len 0 (length list.now / 3)) }
{
    (0..list.len() / 3).position(|t| is_loose(list, t))
}

// The latest triangle is asked first: in a mesh of this library it is the one.
fn is_loose(list: &[u32], t: usize) -> bool
    requires { t < length list.now / 3 }
    ensures { result ≡ loose list.now t }
{
    let u = triangle_at(list, t);
    for s in (0..t).rev() {
        if shared(triangle_at(list, s), u) == 2 {
            return false;
        }
    }
    t > 0
}
