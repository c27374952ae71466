// A checker of index lists from elsewhere, W-211: what is wrong with one first, and whether its triangles hang together.
#![tactic(auto)]

pub mod answer;
mod attached;
mod marks;
mod names;
mod numbers;
mod three;

ghost use Rattle.std.specs.Prelude.{◌≡◌};
ghost use Rattle.inspect.specs.Answer.{checked_of, check_of, check_attached_of};

use crate::answer::Fault;
use crate::attached::first_loose;
use crate::names::first_unnamed;
use crate::numbers::{first_alike, first_large};

// Whether the list is one of triangles over all of `count` vertices, else its first fault.
pub fn check(count: usize, list: &[u32]) -> Result<(), Fault>
    ensures { checked_of result ≡ check_of count list.now }
{
    if list.len() % 3 != 0 {
        return Err(Fault::Length);
    }
    if let Some(i) = first_large(count, list) {
        return Err(Fault::TooLarge(i));
    }
    if let Some(t) = first_alike(list) {
        return Err(Fault::Alike(t));
    }
    if let Some(v) = first_unnamed(count, list) {
        return Err(Fault::Unnamed(v));
    }
    Ok(())
}

// The same, then whether each triangle but the first has exactly two vertices of some earlier one.
pub fn check_attached(count: usize, list: &[u32]) -> Result<(), Fault>
    ensures { checked_of result ≡ check_attached_of count list.now }
{
    check(count, list)?;
    match first_loose(list) {
        Some(t) => Err(Fault::NotAttached(t)),
        None => Ok(()),
    }
}
