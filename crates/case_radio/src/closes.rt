// The numbers that the closing calls of a line have answered: an array and a length, since nothing here is on the heap.
ghost use Rattle.std.specs.Prelude.{◌≤◌};

// A line has no more words than this.
const ROOM: usize = 131072;

#[derive(Drop)]
pub struct Closes {
    numbers: [u32; ROOM],
    count: usize,
    ghost in_room: { count ≤ 131072 },
}

impl Closes {
    pub fn new() -> Closes {
        Closes {
            numbers: [0; ROOM],
            count: 0,
        }
    }

    // One that there is no room for is left out.
    pub fn push(&mut self, number: u32) {
        if self.count < ROOM {
            self.numbers[self.count] = number;
            self.count += 1;
        }
    }

    pub fn all(&self) -> &[u32] {
        &self.numbers[..self.count]
    }
}
