// What is printed waits in a buffer, and is written out when little room is left there. So an answer
// may be longer than the buffer, and many short ones are one write.
ghost use Rattle.std.specs.Prelude.{◌≡◌, ◌≤◌, length};

use lines::at::{decimal_at, float_at, hex_byte_at, text_at};
use std::io::{Stdout, Write};

const SIZE: usize = 65536;

// The buffer, an array since nothing here is on the heap, how many bytes wait there, whether more may be printed (not after a write that failed), and the leave to write
// them, which takes no room.
#[derive(Drop)]
pub struct Printer {
    out: [u8; SIZE],
    waiting: usize,
    open: bool,
    to: Stdout,
    ghost in_buffer: { waiting ≤ 65536 },
}

impl Printer {
    pub fn new(to: Stdout) -> Printer {
        Printer {
            out: [0; SIZE],
            waiting: 0,
            open: true,
            to,
        }
    }

    // Whether more may be printed.
    pub fn is_open(&self) -> bool {
        self.open
    }

    // Writes out what waits.
    pub fn flush(&mut self)
        ensures { self.new.waiting ≡ 0 }
    {
        if self.open {
            self.open = self.to.write_all(&self.out[..self.waiting]).is_ok();
        }
        self.waiting = 0;
    }

    // Leaves 32 bytes of room behind what waits: enough for any word.
    fn make_room(&mut self)
        ensures { self.new.waiting ≤ 65504 }
    {
        if self.waiting > SIZE - 32 {
            self.flush();
        }
    }

    // Prints a text, in pieces that the room is made for.
    pub fn text(&mut self, bytes: &[u8]) {
        for piece in bytes.chunks(32) {
            self.piece(piece);
        }
    }

    // Prints a short text.
    fn piece(&mut self, bytes: &[u8])
        requires { length bytes.now ≤ 32 }
    {
        self.make_room();
        self.waiting = text_at(&mut self.out, self.waiting, bytes);
    }

    // Prints a number in decimal.
    pub fn decimal(&mut self, n: u64) {
        self.make_room();
        self.waiting = decimal_at(&mut self.out, self.waiting, n);
    }

    // Prints the eight hex digits of a float's bits.
    pub fn hex(&mut self, x: f32) {
        self.make_room();
        self.waiting = float_at(&mut self.out, self.waiting, x);
    }

    // Prints the two hex digits of a byte.
    #[tactic(auto, using(lines::proofs::Placing::digits_length))]
    pub fn hex_byte(&mut self, b: u8) {
        self.make_room();
        self.waiting = hex_byte_at(&mut self.out, self.waiting, b);
    }
}
