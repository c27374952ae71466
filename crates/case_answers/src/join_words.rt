// The words of a join: `POSITIVE NEGATIVE FOLDPOS FOLDNEG INNER`.
use endpoint::{EndpointData, InnerJoin, SidePoints};
use printing::Printer;

// Prints the answer of a join that is worked.
pub fn joined(out: &mut Printer, e: EndpointData) {
    out.text(b"join");
    side(out, e.positive);
    side(out, e.negative);
    let flags = [
        b' ',
        bit(e.fold_positive),
        b' ',
        bit(e.fold_negative),
        b' ',
        inner_side(e.inner_join),
        b'\n',
    ];
    out.text(&flags);
}

// `S X Y` or `P X0 Y0 X1 Y1`.
fn side(out: &mut Printer, points: SidePoints) {
    match points {
        SidePoints::Single(x, y) => out.named_row(b" S", &[x, y]),
        SidePoints::Pair(x0, y0, x1, y1) => out.named_row(b" P", &[x0, y0, x1, y1]),
    }
}

fn bit(b: bool) -> u8 {
    if b { b'1' } else { b'0' }
}

// The source's one field has no word for both sides: it keeps the last, the negative one.
fn inner_side(i: InnerJoin) -> u8 {
    match i {
        InnerJoin::Neither => b'-',
        InnerJoin::Positive => b'0',
        InnerJoin::Negative | InnerJoin::Both => b'1',
    }
}
