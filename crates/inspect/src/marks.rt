// Marks of vertices, 32 to a word.
ghost use Rattle.std.specs.Prelude.{◌≡◌, ◌*◌, ◌≤◌, ◌<◌, length, position};
ghost use Rattle.std.specs.List.{range_with_len};
ghost use Rattle.inspect.specs.Marks.{MarkedOne, blank};

// Of a list of many vertices: as many as a path of 65,536 points can have, four to a point.
pub(crate) const MARKS: usize = 262144;

pub(crate) const WORDS: usize = 8192;

// Of a list of few, which need not wait until so many words are cleared.
pub(crate) const FEW_MARKS: usize = 8192;

pub(crate) const FEW_WORDS: usize = 256;

// Marks the vertex x, where it is one of those from `base` on.
pub(crate) fn mark_one(base: usize, x: usize, marks: &mut [u32])
    ensures { MarkedOne base x marks.old marks.new }
{
    if x < base {
        return;
    }
    let k = x - base;
    let word = k / 32;
    if word < marks.len() {
        marks[word] |= 1 << (k % 32);
    }
}

// The first of n marks that is not there.
pub(crate) fn first_blank(marks: &[u32], n: usize) -> Option<usize>
    requires { n ≤ 32 * length marks.now }
    ensures { result ≡ position (blank marks.now) (range_with_len 0 n) }
{
    (0..n).position(|i| is_blank(marks, i))
}

#[tactic(auto, using(crate::proofs::Marking::is_blank_lem))]
fn is_blank(marks: &[u32], i: usize) -> bool
    requires { i < 32 * length marks.now }
    ensures { result ≡ blank marks.now i }
{
    (marks[i / 32] >> (i % 32)) % 2 == 0
}
