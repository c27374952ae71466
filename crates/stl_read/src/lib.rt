// Reading binary STL: a file's corners into a lent list, or one refusal.
#![tactic(auto)]

mod facets;
mod words;

ghost use Rattle.std.specs.Prelude.{◌≡◌};
ghost use Rattle.lists.specs.Over.{over, flat};
ghost use Rattle.stl.specs.Answer.{corners_answer_of};
ghost use Rattle.stl.specs.Each.{each};
ghost use Rattle.stl.specs.File.{facet_at, corners_of};
ghost use Rattle.stl.specs.Read.{read_of};
ghost use Rattle.stl_read.specs.Fine.{PutsAll};

use crate::facets::{facet_at, first_damaged, put_corners};
use crate::words::word;
use stl::answer::ReadError;

fn put_all(corners: &mut [f32], bytes: &[u8], n: usize)
    requires { PutsAll corners.old bytes.now n }
    ensures { corners.new ≡ over (flat corners_of (each (facet_at bytes.now) 0 n)) corners.old }
{
    for k in 0..n {
        put_corners(&mut corners[6 * k..], facet_at(bytes, k));
    }
}

// Reads a file's triangles, x and y of each corner, into the start of `corners`. A refusal changes nothing.
pub fn stl_read(bytes: &[u8], corners: &mut [f32]) -> Result<usize, ReadError>
    ensures { record { answer = corners_answer_of result; corners = corners.new } ≡ read_of bytes.now corners.old }
{
    if bytes.len() < 84 {
        return Err(ReadError::FileLength);
    }
    let n = word(bytes, 80) as usize;
    if bytes.len() != 84 + 50 * n {
        return Err(ReadError::FileLength);
    }
    if let Some(k) = first_damaged(bytes, n) {
        return Err(ReadError::Corner(k));
    }
    let floats = 6 * n;
    if corners.len() < floats {
        return Err(ReadError::ListRoom);
    }
    put_all(corners, bytes, n);
    Ok(floats)
}
