// The coordinates of a path, and how large each may be.
ghost use Rattle.std.specs.Prelude.{◌≡◌, ◌<◌, ◌&&◌, true, not, length, position, MatchOption};
ghost use Rattle.std.specs.List.{fold};
ghost use Rattle.path.specs.Coordinates.{coordinate_in, first_outside};

// No NaN is at most 32,768 in size, nor is an infinity.
#[tactic(auto, unfolding(crate::specs::Coordinates::coordinate_in))]
fn is_in_limits(x: f32) -> bool
    ensures { result ≡ coordinate_in x }
{
    -32768.0 <= x && x <= 32768.0
}

// Whether all are. The loop does not end early, so that the compiler takes several coordinates at a time.
// A loop: std's `fold` asks a list for a reference or none, which is laid out as each machine's pointers are.
fn are_in_limits(coords: &[f32]) -> bool
    ensures { result ≡ fold (λ t x. t && coordinate_in x) true coords.now }
{
    let mut all = true;
    for x in coords {
        all = all & is_in_limits(*x);
    }
    all
}

// The index of the first that is not.
// A loop: std's `position` asks a list for a reference or none too.
fn search(coords: &[f32]) -> Option<usize>
    ensures { result ≡ position (λ x. not (coordinate_in x)) coords.now }
{
    for i in 0..coords.len() {
        if !is_in_limits(coords[i]) {
            return Some(i);
        }
    }
    None
}

// The index of the first coordinate that is not finite or too large.
pub fn first_outside(coords: &[f32]) -> Option<usize>
    ensures { MatchOption result (length coords.now ≡ first_outside coords.now) (λ i. (i ≡ first_outside coords.now) × (i < length coords.now)) }
{
    if are_in_limits(coords) {
        return None;
    }
    search(coords)
}
