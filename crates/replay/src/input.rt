// Standard input, read by chunks and taken apart into lines, of any number and any length.
use crate::cases::answer;
use lines::words::BadLine;
use printing::Printer;
use std::io::{Read, Stdin, Stdout};

// The room for a line: a longer one is a bad line.
const ROOM: usize = 262144;

// What one read takes at most.
const CHUNK: usize = 65536;

// The line that is being read, an array since nothing here is on the heap, and how many bytes of it are held, or one more than its room where it is longer than that.
#[derive(Drop)]
struct Line {
    bytes: [u8; ROOM],
    held: usize,
}

// A proved loop has to end, and nothing says that the input does: so the loop counts its turns, up to
// a number that no run uses up. A read that fails ends the input, and nothing is answered after a write that failed.
pub fn answer_all(mut from: Stdin, to: Stdout) {
    let mut line = Line {
        bytes: [0; ROOM],
        held: 0,
    };
    let mut out = Printer::new(to);
    let mut chunk = [0u8; CHUNK];
    for _ in 0..u64::MAX {
        match from.read(&mut chunk) {
            Ok(n) if n > 0 => line.take(&chunk[..n], &mut out),
            _ => break,
        }
        if !out.is_open() {
            return;
        }
    }
    line.end_input(&mut out);
    out.flush();
}

impl Line {
    // Takes the bytes of a chunk. A line feed ends the line.
    fn take(&mut self, chunk: &[u8], out: &mut Printer) {
        for b in chunk {
            match *b {
                b'\n' => self.end(out),
                b => self.hold(b),
            }
        }
    }

    // Holds a byte, as far as there is room.
    fn hold(&mut self, b: u8) {
        if self.held < ROOM {
            self.bytes[self.held] = b;
            self.held += 1;
        } else {
            self.held = ROOM + 1;
        }
    }

    // Answers the line of the bytes that are held.
    fn end(&mut self, out: &mut Printer) {
        let line = self.bytes.get(..self.held).ok_or(BadLine);
        if line.and_then(|line| answer(line, out)).is_err() {
            out.text(b"bad line\n");
        }
        self.held = 0;
    }

    // At the end of the input: what is held is a line too, though no line feed ends it.
    fn end_input(&mut self, out: &mut Printer) {
        if self.held > 0 {
            self.end(out);
        }
    }
}
