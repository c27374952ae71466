// Lists that a case lends to a call: filled before it, so that a place which it leaves alone shows.
ghost use Rattle.std.specs.Prelude.{◌≤◌, length, IfOk};

use crate::list_words::part_of;
use lines::words::{BadLine, Words};
use std::num::nearest_usize_to_f32;

// What place i of a lent list holds.
pub trait Held: Copy {
    fn held_at(i: usize) -> Self;
}

// i + 0.25
impl Held for f32 {
    fn held_at(i: usize) -> f32 {
        nearest_usize_to_f32(i) + 0.25
    }
}

// (i * 7 + 3) % 251: the rest of i comes to the same, and its product fits whatever i is.
fn number_at(i: usize) -> u8 {
    ((i % 251 * 7 + 3) % 251) as u8
}

impl Held for u8 {
    fn held_at(i: usize) -> u8 {
        number_at(i)
    }
}

impl Held for u16 {
    fn held_at(i: usize) -> u16 {
        u16::from(number_at(i))
    }
}

impl Held for u32 {
    fn held_at(i: usize) -> u32 {
        u32::from(number_at(i))
    }
}

pub fn fill<T: Held>(list: &mut [T]) {
    for (i, x) in list.iter_mut().enumerate() {
        *x = T::held_at(i);
    }
}

// As much of a room as a line's next number says, filled.
pub fn lend<'a, T: Held>(words: &mut Words, room: &'a mut [T]) -> Result<&'a mut [T], BadLine>
    ensures { IfOk result (λ list. length list.now ≤ length room.old) }
{
    let list = part_of(words, room)?;
    fill(list);
    Ok(list)
}
