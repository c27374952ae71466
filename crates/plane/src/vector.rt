// Points and vectors, with euclid's order of operations.
ghost use Rattle.std.specs.Prelude.{◌≡◌};
ghost use Rattle.root.specs.Compute.{root_of};
ghost use Rattle.plane.specs.Vector.{plus_of, minus_of, times_of, divided_of, negated_of, turned_of, dot_of, cross_of, square_length_of, length_of, normalize_of};

use root::root;
use std::ops::{Add, Div, Mul, Neg, Sub};

// A point, or a vector from one to another.
#[derive(Clone, Copy)]
pub struct Point {
    pub x: f32,
    pub y: f32,
}

#[tactic(auto, unfolding(crate::specs::Vector::plus_of))]
impl Add for Point {
    type Output = Point;

    ghost add_gives = { λ a b r. r ≡ plus_of a b };

    fn add(self, b: Point) -> Point {
        Point {
            x: self.x + b.x,
            y: self.y + b.y,
        }
    }
}

#[tactic(auto, unfolding(crate::specs::Vector::minus_of))]
impl Sub for Point {
    type Output = Point;

    ghost sub_gives = { λ a b r. r ≡ minus_of a b };

    fn sub(self, b: Point) -> Point {
        Point {
            x: self.x - b.x,
            y: self.y - b.y,
        }
    }
}

#[tactic(auto, unfolding(crate::specs::Vector::times_of))]
impl Mul<f32> for Point {
    type Output = Point;

    ghost mul_gives = { λ a k r. r ≡ times_of a k };

    fn mul(self, k: f32) -> Point {
        Point {
            x: self.x * k,
            y: self.y * k,
        }
    }
}

#[tactic(auto, unfolding(crate::specs::Vector::divided_of))]
impl Div<f32> for Point {
    type Output = Point;

    ghost div_gives = { λ a k r. r ≡ divided_of a k };

    fn div(self, k: f32) -> Point {
        Point {
            x: self.x / k,
            y: self.y / k,
        }
    }
}

#[tactic(auto, unfolding(crate::specs::Vector::negated_of))]
impl Neg for Point {
    type Output = Point;

    ghost neg_gives = { λ a r. r ≡ negated_of a };

    fn neg(self) -> Point {
        Point {
            x: -self.x,
            y: -self.y,
        }
    }
}

// The operators by name, for the crates above that call them so.
pub fn plus(a: Point, b: Point) -> Point
    ensures { result ≡ plus_of a b }
{
    a + b
}

pub fn minus(a: Point, b: Point) -> Point
    ensures { result ≡ minus_of a b }
{
    a - b
}

pub fn times(a: Point, k: f32) -> Point
    ensures { result ≡ times_of a k }
{
    a * k
}

pub fn negated(a: Point) -> Point
    ensures { result ≡ negated_of a }
{
    -a
}

// A quarter turn, from the x axis to the y axis.
#[tactic(auto, unfolding(crate::specs::Vector::turned_of))]
pub fn turned(a: Point) -> Point
    ensures { result ≡ turned_of a }
{
    Point { x: -a.y, y: a.x }
}

#[tactic(auto, unfolding(crate::specs::Vector::dot_of))]
pub fn dot(a: Point, b: Point) -> f32
    ensures { result ≡ dot_of a b }
{
    a.x * b.x + a.y * b.y
}

#[tactic(auto, unfolding(crate::specs::Vector::cross_of))]
pub fn cross(a: Point, b: Point) -> f32
    ensures { result ≡ cross_of a b }
{
    a.x * b.y - a.y * b.x
}

#[tactic(auto, unfolding(crate::specs::Vector::square_length_of))]
pub fn square_length(a: Point) -> f32
    ensures { result ≡ square_length_of a }
{
    a.x * a.x + a.y * a.y
}

// The root, or +0 where there is none.
fn root_value(x: f32) -> f32
    ensures { result ≡ root_of x }
{
    root(x).unwrap_or(0.0)
}

#[tactic(auto, unfolding(crate::specs::Vector::length_of))]
pub fn length(a: Point) -> f32
    ensures { result ≡ length_of a }
{
    root_value(square_length(a))
}

// Not by way of `length`: so the quotients are inlined at the caller, and the root is a call.
#[tactic(auto, unfolding(crate::specs::Vector::length_of, crate::specs::Vector::normalize_of))]
pub fn normalize(a: Point) -> Point
    ensures { result ≡ normalize_of a }
{
    a / root_value(square_length(a))
}
