// A list: how many there are, then each of them, put over the start of a room. Where there is no room for them the line is bad.
ghost use Rattle.std.specs.Prelude.{◌≤◌, length, IfOk};

use lines::words::{BadLine, Words};

// As much of a room as a line's next number says.
pub(crate) fn part_of<'a, T>(words: &mut Words, room: &'a mut [T]) -> Result<&'a mut [T], BadLine>
    ensures { IfOk result (λ list. length list.now ≤ length room.old) }
{
    let count = words.number_up_to(room.len() as u64)? as usize;
    Ok(&mut room[..count])
}

fn read_list<'a, T: Copy, F: Fn(&mut Words) -> Result<T, BadLine>>(
    words: &mut Words,
    room: &'a mut [T],
    read: F,
) -> Result<&'a [T], BadLine>
    requires { F.IsAlwaysCallable read }
    ensures { IfOk result (λ list. length list.now ≤ length room.old) }
{
    let list = part_of(words, room)?;
    for x in list.iter_mut() {
        *x = read(words)?;
    }
    Ok(list)
}

pub fn read_float_list<'a>(words: &mut Words, room: &'a mut [f32]) -> Result<&'a [f32], BadLine>
    ensures { IfOk result (λ list. length list.now ≤ length room.old) }
{
    read_list(words, room, |w| w.float())
}

// A list of numbers up to `most`.
pub fn read_number_list<'a>(
    words: &mut Words,
    most: u32,
    room: &'a mut [u32],
) -> Result<&'a [u32], BadLine>
    ensures { IfOk result (λ list. length list.now ≤ length room.old) }
{
    read_list(words, room, |w| Ok(w.number_up_to(u64::from(most))? as u32))
}

// A byte list, by one word.
pub fn read_byte_list<'a>(words: &mut Words, room: &'a mut [u8]) -> Result<&'a [u8], BadLine>
    ensures { IfOk result (λ list. length list.now ≤ length room.old) }
{
    let count = words.bytes(room)?;
    Ok(&room[..count])
}
