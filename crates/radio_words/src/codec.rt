// A state as words, and back.
ghost use Rattle.std.specs.Prelude.{◌≡◌, get_or};
ghost use Rattle.radio_words.specs.Words.{words_of, mode_in, pen_in, known_in, state_in, counts_in, radio_in, held_in};

use crate::WORDS;
use crate::fields::{
    axis_at, axis_word, flag_at, flag_word, float_at, float_word, found_at, found_place,
    found_word, stage_at, stage_word,
};
use form::machine::Mode;
use radio::Radio;
use reader::counts::Counts;
use reader::pass::Passage;
use values::known::Known;
use values::pen::Pen;
use values::state::State;

pub(crate) fn words_of(r: Radio) -> [usize; WORDS]
    ensures { result ≡ words_of r }
{
    let p = r.passage;
    let m = p.state.mode;
    let v = p.state.known;
    let n = v.pen;
    let c = p.counts;
    [
        stage_word(m.stage),
        axis_word(m.axis),
        usize::from(m.places),
        flag_word(n.fresh),
        flag_word(n.relative),
        flag_word(n.upright),
        float_word(n.x),
        float_word(n.y),
        float_word(n.first_x),
        float_word(n.first_y),
        flag_word(v.minus),
        usize::from(v.whole),
        v.fraction as usize,
        v.place,
        c.verbs,
        c.coords,
        found_word(c.large),
        found_place(c.large),
        p.place,
        r.length,
        flag_word(r.closed),
    ]
}

// A word, 0 where there is none.
fn word(words: &[usize], i: usize) -> usize
    ensures { result ≡ get_or words.now i 0 }
{
    if i < words.len() { words[i] } else { 0 }
}

fn mode_in(words: &[usize]) -> Mode
    ensures { result ≡ mode_in words.now }
{
    Mode {
        stage: stage_at(word(words, 0)),
        axis: axis_at(word(words, 1)),
        places: u8::try_from(word(words, 2)).unwrap_or(0),
    }
}

fn pen_in(words: &[usize]) -> Pen
    ensures { result ≡ pen_in words.now }
{
    Pen {
        fresh: flag_at(word(words, 3)),
        relative: flag_at(word(words, 4)),
        upright: flag_at(word(words, 5)),
        x: float_at(word(words, 6)),
        y: float_at(word(words, 7)),
        first_x: float_at(word(words, 8)),
        first_y: float_at(word(words, 9)),
    }
}

fn known_in(words: &[usize]) -> Known
    ensures { result ≡ known_in words.now }
{
    Known {
        pen: pen_in(words),
        minus: flag_at(word(words, 10)),
        whole: u16::try_from(word(words, 11)).unwrap_or(0),
        fraction: u32::try_from(word(words, 12)).unwrap_or(0),
        place: word(words, 13),
    }
}

fn state_in(words: &[usize]) -> State
    ensures { result ≡ state_in words.now }
{
    State {
        mode: mode_in(words),
        known: known_in(words),
    }
}

fn counts_in(words: &[usize]) -> Counts
    ensures { result ≡ counts_in words.now }
{
    Counts {
        verbs: word(words, 14),
        coords: word(words, 15),
        large: found_at(word(words, 16), word(words, 17)),
    }
}

fn passage_in(words: &[usize]) -> Passage
    ensures { result ≡ (radio_in words.now).passage }
{
    Passage {
        state: state_in(words),
        counts: counts_in(words),
        place: word(words, 18),
    }
}

fn radio_in(words: &[usize]) -> Radio
    ensures { result ≡ radio_in words.now }
{
    Radio {
        passage: passage_in(words),
        length: word(words, 19),
        closed: flag_at(word(words, 20)),
    }
}

// The state that words are, or one that is closed where they are none's.
pub(crate) fn held(list: &[usize]) -> Radio
    ensures { result ≡ held_in list.now }
{
    let r = radio_in(list);
    if list.starts_with(&words_of(r)) {
        return r;
    }
    Radio { closed: true, ..r }
}
