// Document 01's program: path text on standard input; its mesh, or one refusal, on standard output.
#![tactic(auto)]

mod input;

use crate::input::read_text;
use page::{PAGE_ROOM, TEXT_ROOM, put_page};
use std::io::{Stdout, Write};

// One byte more than a text may have: what comes after it changes nothing.
const INPUT_ROOM: usize = TEXT_ROOM + 1;

// Where a read failed nothing is printed: it would be the page of another text.
fn main(rt: HostRuntime) {
    let mut text = [0u8; INPUT_ROOM];
    if let Ok(n) = read_text(rt.stdin(), &mut text) {
        print(rt.stdout(), &text[..n]);
    }
}

// A write that fails ends the program: there is nobody to tell.
fn print(mut to: Stdout, text: &[u8]) {
    let mut out = [0u8; PAGE_ROOM];
    let n = put_page(text, &mut out);
    let _ = to.write_all(&out[..n]);
}
