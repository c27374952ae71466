// The window's lent calls, on a window that is handed over: its slot is lent, and what the call left
// there is handed back.
#![tactic(auto)]

ghost use Rattle.std.specs.Prelude.{◌≡◌, [], ◌∷◌, ◌++◌};
ghost use Rattle.window.specs.Window.{items, last_three, ReplacesLast};

use endpoint::EndpointData;
use window::buffer::{PointBuffer, Replaced};
use window::lent::{clear_in, push_in, replace_last_in};

pub fn pushed(mut w: PointBuffer, e: EndpointData) -> PointBuffer
    ensures { items result ≡ last_three (items w ++ (e ∷ [])) }
{
    push_in(&mut w, e);
    w
}

pub fn replaced(mut w: PointBuffer, e: EndpointData) -> Replaced
    ensures { ReplacesLast w e result }
{
    let change = replace_last_in(&mut w, e);
    Replaced { change, window: w }
}

pub fn cleared(mut w: PointBuffer) -> PointBuffer
    ensures { items result ≡ [] }
{
    clear_in(&mut w);
    w
}
