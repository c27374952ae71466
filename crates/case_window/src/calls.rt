// The calls of a window, each with its answer: `p`, `r` and `c` by the lent calls, so that these are run too.
use crate::op::Op;
use endpoint::{EndpointData, EndpointId, blank};
use lent_window::{cleared, pushed, replaced};
use plane::vector::Point;
use printing::Printer;
use std::num::nearest_u32_to_f32;
use window::answer::{ChangeAnswer, GetAnswer};
use window::buffer::PointBuffer;

// Makes a call, and prints its number, and for `g` an x beside it.
pub fn call(window: &mut PointBuffer, op: Op, out: &mut Printer) {
    match op {
        Op::Push(k) => {
            *window = pushed(*window, numbered(k));
            out.number(0);
        }
        Op::Replace(k) => {
            let r = replaced(*window, numbered(k));
            *window = r.window;
            out.number(u64::from(ChangeAnswer::from(r.change).number));
        }
        Op::Clear => {
            *window = cleared(*window);
            out.number(0);
        }
        Op::Get(i) => {
            let a = GetAnswer::from(window.get(i as usize));
            out.number(u64::from(a.number));
            out.text(b":");
            out.hex(a.endpoint.position.x);
        }
        Op::Count => out.number(window.count() as u64),
    }
}

// Endpoint K: at (K, 0), with K for its advancement and its number.
fn numbered(k: u32) -> EndpointData {
    let x = nearest_u32_to_f32(k);
    EndpointData {
        position: Point { x, y: 0.0 },
        advancement: x,
        id: EndpointId(k),
        ..blank()
    }
}
