// The form, byte by byte: where a text stands, and what that allows.
ghost use Rattle.std.specs.Prelude.{◌≡◌};
ghost use Rattle.form.specs.Machine.{at, start, cells_of, row_of, after, begins_point, ends_point, ends_here, second_dot, ends_before, axis_at, deep, deeper, digit_by, digit_of, any_letter, first_letter, lettered_of, stage_after, next_at, next_of, is_lost, is_inside};

use crate::classes::{Class, Letter};
use crate::machine::Axis::{Alone, X, Y};
use crate::machine::Going::{AtPoint, Fresh, InFraction, InWhole, Opened};
use crate::machine::Stage::{Closed, Fraction, Gap, Lost, Pointed, Signed, Start, Want, Whole};
use crate::machine::Stand::{Amid, Before, Behind, Between, Nowhere};

// Which number of a command a text is at: x or y of a pair, or the one of H and V.
#[derive(Clone, Copy)]
pub enum Axis {
    X,
    Y,
    Alone,
}

// How far a text has come between two bytes.
#[derive(Clone, Copy)]
pub enum Stage {
    // Before the first command.
    Start,
    // After a Z.
    Closed,
    // A number must follow, after white space or without.
    Want,
    // A digit or a point must follow the sign.
    Signed,
    // In a number, before its point; it may end here.
    Whole,
    // A digit must follow the point.
    Pointed,
    // In a number, after its point; it may end here.
    Fraction,
    // After a number and white space.
    Gap,
    // No text of the form begins so.
    Lost,
}

// Where a text stands between two bytes: how far it has come, in or before the number of which axis, with how many digits after its
// point.
#[derive(Clone, Copy)]
pub struct Mode {
    pub stage: Stage,
    pub axis: Axis,
    pub places: u8,
}

// The number that a text is in, with which a digit or a point goes on: none, one behind its sign, before its point, at once behind
// it, or later.
#[derive(Clone, Copy)]
pub enum Going {
    Fresh,
    Opened,
    InWhole,
    AtPoint,
    InFraction,
}

// How a text stands to its commands: which letters may follow.
#[derive(Clone, Copy)]
pub enum Stand {
    // No text of the form begins so.
    Nowhere,
    // None, in the numbers of a command, more of which must follow.
    Amid,
    // Before the first command, which is an M.
    Before,
    // Any, after a Z.
    Behind,
    // Any after a number, where no pair is half read.
    Between,
}

// All that is to be known of a stage.
#[derive(Clone, Copy)]
pub struct Row {
    // The stages after white space, a comma, a sign, a digit and a point.
    pub blank: Stage,
    pub comma: Stage,
    pub sign: Stage,
    pub digit: Stage,
    pub dot: Stage,
    pub stand: Stand,
    pub going: Going,
}

// A function, and no literal at each row: so a row of the table stands on one line.
fn cells(
    blank: Stage,
    comma: Stage,
    sign: Stage,
    digit: Stage,
    dot: Stage,
    stand: Stand,
    going: Going,
) -> Row
    ensures { result ≡ cells_of blank comma sign digit dot stand going }
{
    Row {
        blank,
        comma,
        sign,
        digit,
        dot,
        stand,
        going,
    }
}

// The table. By columns: white space, comma, sign, digit, point; commands; the number that a text is in.
pub fn row_of(g: Stage) -> Row
    ensures { result ≡ row_of g }
{
    match g {
        Stage::Start => cells(Start, Lost, Lost, Lost, Lost, Before, Fresh),
        Stage::Closed => cells(Closed, Lost, Lost, Lost, Lost, Behind, Fresh),
        Stage::Want => cells(Want, Lost, Signed, Whole, Pointed, Amid, Fresh),
        Stage::Signed => cells(Lost, Lost, Lost, Whole, Pointed, Amid, Opened),
        Stage::Whole => cells(Gap, Want, Signed, Whole, Pointed, Between, InWhole),
        Stage::Pointed => cells(Lost, Lost, Lost, Fraction, Lost, Amid, AtPoint),
        Stage::Fraction => cells(Gap, Want, Signed, Fraction, Pointed, Between, InFraction),
        Stage::Gap => cells(Gap, Want, Signed, Whole, Pointed, Between, Fresh),
        Stage::Lost => cells(Lost, Lost, Lost, Lost, Lost, Nowhere, Fresh),
    }
}

// The axis of the number that follows one.
fn axis_after(a: Axis) -> Axis
    ensures { result ≡ after a }
{
    match a {
        Axis::X => Y,
        Axis::Y => X,
        Axis::Alone => Alone,
    }
}

// Whether a number of an axis is the first of a point.
fn begins_point(a: Axis) -> bool
    ensures { result ≡ begins_point a }
{
    matches!(a, X | Alone)
}

// Whether it completes a point.
pub fn ends_point(a: Axis) -> bool
    ensures { result ≡ ends_point a }
{
    begins_point(axis_after(a))
}

// Whether a number may end here.
fn ends_here(g: Going) -> bool
    ensures { result ≡ ends_here g }
{
    matches!(g, InWhole | InFraction)
}

// A second point ends a number, the first goes on with it.
fn second_dot(g: Going) -> bool
    ensures { result ≡ second_dot g }
{
    matches!(g, InFraction)
}

// Whether a number ends before a byte of a class: it goes on with a digit, and with its first point. An arm to each class: arms put
// together were tried, and cost the reader 8 instructions a byte.
pub fn ends_before(g: Going, k: Class) -> bool
    ensures { result ≡ ends_before g k }
{
    match k {
        Class::Blank => ends_here(g),
        Class::Comma => ends_here(g),
        Class::Sign => ends_here(g),
        Class::Digit => false,
        Class::Dot => second_dot(g),
        Class::Command(_) => ends_here(g),
        Class::Other => ends_here(g),
    }
}

// The axis once a number has ended, or has not.
pub fn axis_at(ended: bool, a: Axis) -> Axis
    ensures { result ≡ axis_at ended a }
{
    if ended { axis_after(a) } else { a }
}

fn at(stage: Stage, axis: Axis) -> Mode
    ensures { result ≡ at stage axis }
{
    Mode {
        stage,
        axis,
        places: 0,
    }
}

// So many digits after the point.
fn deep(axis: Axis, places: u8) -> Mode
    ensures { result ≡ deep axis places }
{
    Mode {
        stage: Fraction,
        axis,
        places,
    }
}

// One more of them, of which there are at most six.
fn deeper(a: Axis, places: u8) -> Mode
    ensures { result ≡ deeper a places }
{
    if places < 6 {
        deep(a, places + 1)
    } else {
        at(Lost, a)
    }
}

// After a digit, which leads to a stage where it begins a number or goes on before its point.
fn digit_by(going: Going, g: Stage, a: Axis, places: u8) -> Mode
    ensures { result ≡ digit_by going g a places }
{
    match going {
        Fresh | Opened | InWhole => at(g, a),
        AtPoint => deep(a, 1),
        InFraction => deeper(a, places),
    }
}

fn digit(m: Mode) -> Mode
    ensures { result ≡ digit_of m }
{
    let g = m.stage;
    digit_by(row_of(g).going, row_of(g).digit, m.axis, m.places)
}

fn any_letter(l: Letter) -> Mode
    ensures { result ≡ any_letter l }
{
    match l {
        Letter::Move | Letter::Line => at(Want, X),
        Letter::Along => at(Want, Alone),
        Letter::Close => at(Closed, X),
    }
}

fn first_letter(l: Letter) -> Mode
    ensures { result ≡ first_letter l }
{
    match l {
        Letter::Move => at(Want, X),
        _ => at(Lost, X),
    }
}

fn lettered(stand: Stand, a: Axis, l: Letter) -> Mode
    ensures { result ≡ lettered_of stand a l }
{
    match stand {
        Before => first_letter(l),
        Behind => any_letter(l),
        Between if begins_point(a) => any_letter(l),
        _ => at(Lost, X),
    }
}

// The stage after a byte that is no digit and no letter. A column of the row is looked up where it is used: a row that is kept
// for all of them is slower.
fn stage_after(g: Stage, k: Class) -> Stage
    ensures { result ≡ stage_after g k }
{
    match k {
        Class::Blank => row_of(g).blank,
        Class::Comma => row_of(g).comma,
        Class::Sign => row_of(g).sign,
        Class::Digit => row_of(g).digit,
        Class::Dot => row_of(g).dot,
        _ => Lost,
    }
}

// The mode after a byte of a class, where the axis is n once a number has ended.
fn next_at(m: Mode, n: Axis, stand: Stand, stage: Stage, k: Class) -> Mode
    ensures { result ≡ next_at m n stand stage k }
{
    match k {
        Class::Digit => digit(m),
        Class::Command(l) => lettered(stand, n, l),
        _ => at(stage, n),
    }
}

pub fn next(m: Mode, k: Class) -> Mode
    ensures { result ≡ next_of m k }
{
    let g = m.stage;
    let n = axis_at(ends_before(row_of(g).going, k), m.axis);
    next_at(m, n, row_of(g).stand, stage_after(g, k), k)
}

// No text of the form begins so.
pub fn is_lost(m: Mode) -> bool
    ensures { result ≡ is_lost m }
{
    matches!(row_of(m.stage).stand, Nowhere)
}

// Whether a run is open where a letter may follow, before a number of an axis.
pub fn is_inside(g: Stage, a: Axis) -> bool
    ensures { result ≡ is_inside g a }
{
    matches!(row_of(g).stand, Between) && begins_point(a)
}

// Before the first byte.
pub fn first_mode() -> Mode
    ensures { result ≡ start }
{
    at(Start, X)
}
