// Each field of a state as a word, and back. What is no field's word comes back as one whose word is another.
ghost use Rattle.std.specs.Prelude.{◌≡◌};
ghost use Rattle.std.specs.Float.{binary32};
ghost use Rattle.std.specs.Float.Ieee.{to_bits};
ghost use Rattle.radio_words.specs.Fields.{stage_word, stage_at, axis_word, axis_at, flag_word, flag_at, float_at, found_word, found_place, found_at};

use form::machine::{Axis, Stage};
use std::num::{f32_from_bits_with_nan, f32_to_bits_with_nan};

// In the order in which the stages are declared.
pub(crate) fn stage_word(g: Stage) -> usize
    ensures { result ≡ stage_word g }
{
    g as usize
}

#[tactic(auto, unfolding(crate::specs::Fields::stage_at))]
pub(crate) fn stage_at(word: usize) -> Stage
    ensures { result ≡ stage_at word }
{
    match word {
        0 => Stage::Start,
        1 => Stage::Closed,
        2 => Stage::Want,
        3 => Stage::Signed,
        4 => Stage::Whole,
        5 => Stage::Pointed,
        6 => Stage::Fraction,
        7 => Stage::Gap,
        _ => Stage::Lost,
    }
}

// In the order in which the axes are declared.
pub(crate) fn axis_word(a: Axis) -> usize
    ensures { result ≡ axis_word a }
{
    a as usize
}

#[tactic(auto, unfolding(crate::specs::Fields::axis_at))]
pub(crate) fn axis_at(word: usize) -> Axis
    ensures { result ≡ axis_at word }
{
    match word {
        0 => Axis::X,
        1 => Axis::Y,
        _ => Axis::Alone,
    }
}

pub(crate) fn flag_word(b: bool) -> usize
    ensures { result ≡ flag_word b }
{
    usize::from(b)
}

pub(crate) fn flag_at(word: usize) -> bool
    ensures { result ≡ flag_at word }
{
    word == 1
}

pub(crate) fn float_word(x: f32) -> usize
    ensures { result ≡ to_bits binary32 x }
{
    f32_to_bits_with_nan(x) as usize
}

pub(crate) fn float_at(word: usize) -> f32
    ensures { result ≡ float_at word }
{
    f32_from_bits_with_nan(u32::try_from(word).unwrap_or(0))
}

pub(crate) fn found_word(f: Option<usize>) -> usize
    ensures { result ≡ found_word f }
{
    usize::from(f.is_some())
}

pub(crate) fn found_place(f: Option<usize>) -> usize
    ensures { result ≡ found_place f }
{
    f.unwrap_or(0)
}

pub(crate) fn found_at(word: usize, place: usize) -> Option<usize>
    ensures { result ≡ found_at word place }
{
    if word == 1 { Some(place) } else { None }
}
