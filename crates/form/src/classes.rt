// The bytes of a path text.
ghost use Rattle.std.specs.Prelude.{◌≡◌};
ghost use Rattle.form.specs.Bytes.{class_of};

// The commands, in either case of their letters: in lower case numbers are relative.
#[derive(Clone, Copy)]
pub enum Letter {
    // M and m.
    Move,
    // L and l.
    Line,
    // H, h, V and v: lines along one axis.
    Along,
    // Z and z.
    Close,
}

// What a byte is to a path text.
#[derive(Clone, Copy)]
pub enum Class {
    Blank,
    Comma,
    Sign,
    Digit,
    Dot,
    Command(Letter),
    Other,
}

// A digit first, since most bytes are one. 0x0C is the form feed.
#[tactic(auto, unfolding(crate::specs::Bytes::class_of))]
pub fn class_of(b: u8) -> Class
    ensures { result ≡ class_of b }
{
    // No arm of the match, which would try the range behind all other bytes.
    if b'0' <= b && b <= b'9' {
        return Class::Digit;
    }
    match b {
        b' ' | b'\t' | b'\n' | 0x0C | b'\r' => Class::Blank,
        b',' => Class::Comma,
        b'+' | b'-' => Class::Sign,
        b'.' => Class::Dot,
        b'M' | b'm' => Class::Command(Letter::Move),
        b'L' | b'l' => Class::Command(Letter::Line),
        b'H' | b'h' | b'V' | b'v' => Class::Command(Letter::Along),
        b'Z' | b'z' => Class::Command(Letter::Close),
        _ => Class::Other,
    }
}
