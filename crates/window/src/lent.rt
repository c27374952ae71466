// The window lent and altered where it stands: each call is the one by value on what it holds. Both forms are
// public (README.md), and document 01 asks for both.
ghost use Rattle.std.specs.Prelude.{◌≡◌, [], ◌∷◌, ◌++◌};
ghost use Rattle.window.specs.Window.{items, last_three, ReplacesLast};

use crate::answer::Empty;
use crate::buffer::PointBuffer;
use endpoint::EndpointData;

pub fn push_in(w: &mut PointBuffer, e: EndpointData)
    ensures { items w.new ≡ last_three (items w.old ++ (e ∷ [])) }
{
    *w = w.push(e);
}

pub fn replace_last_in(w: &mut PointBuffer, e: EndpointData) -> Result<(), Empty>
    ensures { ReplacesLast w.old e (record { change = result; window = w.new }) }
{
    let r = w.replace_last(e);
    *w = r.window;
    r.change
}

pub fn clear_in(w: &mut PointBuffer)
    ensures { items w.new ≡ [] }
{
    *w = w.clear();
}
