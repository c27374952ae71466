// Refusals 21 and 22: the numbers one by one, and triangle by triangle.
ghost use Rattle.std.specs.Prelude.{◌≡◌, ◌/◌, ◌<◌, leb, length, position};
ghost use Rattle.std.specs.List.{range_with_len};
ghost use Rattle.inspect.specs.Faults.{alike};

use crate::three::{triangle_at, two_alike};

// The index of the first number that is not below the count.
pub(crate) fn first_large(count: usize, list: &[u32]) -> Option<usize>
    ensures { result ≡ position (leb count) list.now }
{
    // A loop: std's search over a list answers a reference or none, whose layout hangs on the size of a pointer.
    for i in 0..list.len() {
        if list[i] as usize >= count {
            return Some(i);
        }
    }
    None
}

// The first triangle that names a vertex twice.
pub(crate) fn first_alike(list: &[u32]) -> Option<usize>
    ensures { result ≡ position (alike list.now) (range_with_len 0 (length list.now / 3)) }
{
    (0..list.len() / 3).position(|t| is_alike(list, t))
}

#[tactic(auto, unfolding(crate::specs::Faults::alike))]
fn is_alike(list: &[u32], t: usize) -> bool
    requires { t < length list.now / 3 }
    ensures { result ≡ alike list.now t }
{
    two_alike(triangle_at(list, t))
}
