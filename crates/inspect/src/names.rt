// Refusal 23: which vertices a list names, without memory that grows with it. Marks of 262,144 vertices, and a pass over the list to each so many.
ghost use Rattle.std.specs.Prelude.{◌≡◌, ◌*◌, ◌≤◌, length, position};
ghost use Rattle.std.specs.List.{range_with_len};
ghost use Rattle.inspect.specs.Faults.{unnamed};
ghost use Rattle.inspect.specs.Marks.{Marked, unnamed_from};

use crate::marks::{FEW_MARKS, FEW_WORDS, MARKS, WORDS, first_blank, mark_one};

// The smallest vertex that the list does not name. The first part that lacks one ends the search, so there are no more passes than the list has
// numbers for.
pub(crate) fn first_unnamed(count: usize, list: &[u32]) -> Option<usize>
    ensures { result ≡ position (unnamed list.now) (range_with_len 0 count) }
{
    // A loop by hand: over `(0..count).step_by(MARKS)` each mark takes four instructions more, and a check 99 to a triangle in place of 84.
    let mut base = 0;
    while base < count {
        let n = MARKS.min(count - base);
        if let Some(k) = first_unnamed_from(base, n, list) {
            return Some(base + k);
        }
        base += n;
    }
    None
}

// The first of n vertices from `base` on that the list does not name, counted from `base`.
fn first_unnamed_from(base: usize, n: usize, list: &[u32]) -> Option<usize>
    requires { n ≤ 262144 }
    ensures { result ≡ position (unnamed_from base list.now) (range_with_len 0 n) }
{
    if n <= FEW_MARKS {
        first_unmarked::<FEW_WORDS>(base, n, list)
    } else {
        first_unmarked::<WORDS>(base, n, list)
    }
}

// The same with marks in so many words.
fn first_unmarked<const N: usize>(base: usize, n: usize, list: &[u32]) -> Option<usize>
    requires words_in_bounds { N ≤ 8192 }
    requires n_in_bounds { n ≤ 32 * N }
    ensures { result ≡ position (unnamed_from base list.now) (range_with_len 0 n) }
{
    let mut marks = [0u32; N];
    mark(base, list, &mut marks);
    first_blank(&marks, n)
}

// Marks each vertex from `base` on that the list names.
fn mark(base: usize, list: &[u32], marks: &mut [u32])
    ensures { Marked base list.now (length list.now) marks.old marks.new }
{
    for x in list {
        mark_one(base, *x as usize, marks);
    }
}
