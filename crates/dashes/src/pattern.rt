// The lengths of a dash pattern, and its cuts as advancements.
ghost use Rattle.std.specs.Prelude.{◌≡◌, ◌<◌, length};
ghost use Rattle.dashes.specs.Pattern.{length_in, offset_in, lengths_in, pattern_in, length_at, Dash, worn_of, first_cut, next_cut, index_limit};

// What wearing the offset down leaves: the number of the first length that is not used up, and what is taken of it.
#[derive(Clone, Copy)]
pub struct Wear {
    pub index: usize,
    pub rest: f32,
}

// A cut b: its advancement, and the number of the length that ends there.
#[derive(Clone, Copy)]
pub struct Beat {
    pub index: usize,
    pub at: f32,
}

// Two ranges, a line each, as their definitions are: one function that takes the least value would need a definition of its own.
#[tactic(auto, unfolding(crate::specs::Pattern::length_in))]
fn is_length(d: f32) -> bool
    ensures { result ≡ length_in d }
{
    0.25 <= d && d <= 32768.0
}

#[tactic(auto, unfolding(crate::specs::Pattern::offset_in))]
fn is_offset(o: f32) -> bool
    ensures { result ≡ offset_in o }
{
    0.0 <= o && o <= 32768.0
}

// A loop: std's `all` asks a list for a reference or none, which is laid out as each machine's pointers are.
fn are_lengths(ds: &[f32]) -> bool
    ensures { result ≡ lengths_in ds.now }
{
    for d in ds {
        if !is_length(*d) {
            return false;
        }
    }
    true
}

// Refusal 1 where it is false. An empty list means no dashes, and its offset has the same range.
pub fn is_pattern(ds: &[f32], offset: f32) -> bool
    ensures { result ≡ pattern_in ds.now offset }
{
    ds.len() <= 16 && is_offset(offset) && are_lengths(ds)
}

// Length number i, the list taken over and over: twice over is the same again.
#[tactic(auto, using(crate::proofs::Turns::length_at_lem))]
pub fn length_at(ds: &[f32], i: usize) -> f32
    requires { 0 < length ds.now }
    ensures { result ≡ length_at ds.now i }
{
    ds[i % ds.len()]
}

// Whether length number i is a dash, and not a gap: an odd list is taken twice over, so no list's length matters.
#[tactic(auto, using(crate::proofs::Turns::is_dash_lem))]
pub fn is_dash(i: usize) -> bool
    ensures { Dash i result }
{
    i % 2 == 0
}

// The offset worn down. The loop's limit never ends it: no accepted offset has so many lengths in it.
pub fn worn(ds: &[f32], offset: f32) -> Wear
    requires { 0 < length ds.now }
    ensures { result ≡ worn_of ds.now offset }
{
    let mut rest = offset;
    for index in 0..131072 {
        let d = length_at(ds, index);
        if !(d <= rest) {
            return Wear { index, rest };
        }
        rest -= d;
    }
    Wear {
        index: 131072,
        rest,
    }
}

// What is left of the length that the offset does not use up.
#[tactic(auto, unfolding(crate::specs::Pattern::first_cut))]
pub fn first_cut(ds: &[f32], w: Wear) -> Beat
    requires { 0 < length ds.now }
    ensures { result ≡ first_cut ds.now w }
{
    Beat {
        index: w.index,
        at: length_at(ds, w.index) - w.rest,
    }
}

// The last cut plus its length.
#[tactic(auto, unfolding(crate::specs::Pattern::next_cut))]
pub fn next_cut(ds: &[f32], b: Beat) -> Beat
    requires { (0 < length ds.now) × (b.index < index_limit) }
    ensures { result ≡ next_cut ds.now b }
{
    let index = b.index + 1;
    Beat {
        index,
        at: b.at + length_at(ds, index),
    }
}
