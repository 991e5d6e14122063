// The test of soundness: whether queues, words in use and recorded lengths of a book agree.
// Promises: the answer is `sound_book` of document 01, "The book and the release", for every book; nothing but the scratch set is changed.
// It counts instead of comparing (specs/Spent.antt): the words in use are counted, each descriptor of each queue takes four of them
// away, and nothing may be left.
// The parts of a book stay lent apart, as in crate book.

#![tactic(auto)]

ghost use Rattle.std.specs.Prelude.{◌≡◌, ◌≤◌, ◌<◌};
ghost use Rattle.layout.specs.Layout.{desc_words};
ghost use Rattle.words.specs.Word.{word};
ghost use Rattle.words.specs.WordSet.{words_in_use};
ghost use Rattle.registers.specs.Table.{heads_of};
ghost use Rattle.book.specs.World.{sound_book};
ghost use Rattle.soundness.specs.Spent.{ask_length, ask_of, spend_step, spent_from, words_to_meet, left_of};
ghost use Rattle.soundness.specs.Hops.{spent};

use layout::{CHANNELS, LENGTH_MAX, Lengths, Memory, Side, Slot, Words, queue_of, slot_at};
use registers::{State, are_flags};
use std::ops::ControlFlow;

// Left where a walk is not as it should be: walks take away by fours, so no multiple of four is ever left from there. A number and no
// Option: the definition counts so, and the last tests ask the count anyway.
const LOST: u32 = 1;

// How many words are in use, or lost where an entry is over 1. The loop keeps the highest entry and has one way out, so that it is
// compiled to many entries a turn.
fn count_words(used: &Words) -> u32
    ensures { result ≡ words_to_meet used.now }
{
    let mut top: u8 = 0;
    let mut n: u16 = 0;
    for entry in used {
        top = top.max(*entry);
        n += u16::from(*entry != 0);
    }
    if top <= 1 { u32::from(n) } else { LOST }
}

// How many lengths are recorded. A loop with a small counter: `filter(..).count()` is compiled to one entry a turn.
fn count_lengths(lens: &Lengths) -> u32
    ensures { (result ≡ words_in_use lens.now) × (result ≤ desc_words) }
{
    let mut n: u16 = 0;
    for length in lens {
        n += u16::from(*length != 0);
    }
    u32::from(n)
}

// Whether a length is recorded at d, and in order.
fn is_recorded(lens: &Lengths, d: Slot) -> bool
    ensures { result ≡ ask_length lens.now d.word }
{
    let length = u32::from(lens[d.word]);
    1 <= length && length <= LENGTH_MAX
}

// Whether a descriptor at d is as its queue asks: it is over words that are in use and not met before, and a receive descriptor has a
// length recorded.
fn is_owed(side: Side, used: &Words, lens: &Lengths, met: &Words, d: Slot) -> bool
    ensures { result ≡ ask_of side used.now lens.now met.now d.word }
{
    let words_owed = words::four_free(met, d.word) && words::four_used(used, d.word);
    match side {
        Side::Transmit => words_owed,
        Side::Receive => words_owed && is_recorded(lens, d),
    }
}

// The descriptor at p is met: the walk goes on at the next pointer with four fewer left, or it is over with so many left.
#[tactic(auto, using(book::proofs::SoundLaws::good_not_zero), unfolding(crate::specs::Spent::spend_step))]
fn meet_at(
    m: &Memory,
    side: Side,
    used: &Words,
    lens: &Lengths,
    met: &mut Words,
    p: u32,
    left: u32,
) -> ControlFlow<u32, (u32, u32)>
    ensures { spent result met.new
        ≡ spend_step (word m.now) (ask_of side used.now lens.now) (met.old, p, left) }
{
    match slot_at(p) {
        Some(d) if 4 <= left && is_owed(side, used, lens, met, d) => {
            words::take_four(met, d);
            ControlFlow::Continue((words::word_of(m, d.word), left - 4))
        }
        None if p == 0 => ControlFlow::Break(left),
        _ => ControlFlow::Break(LOST),
    }
}

// What the queue from p leaves of the words in use.
fn walk_from(
    m: &Memory,
    side: Side,
    used: &Words,
    lens: &Lengths,
    met: &mut Words,
    mut p: u32,
    mut left: u32,
) -> u32
    ensures { (result, met.new)
        ≡ spent_from (word m.now) (ask_of side used.now lens.now) met.old p left }
{
    loop {
        match meet_at(m, side, used, lens, met, p, left) {
            ControlFlow::Continue((next, rest)) => {
                p = next;
                left = rest;
            }
            ControlFlow::Break(rest) => return rest,
        }
    }
}

// What all queues of a side leave of them.
fn walk_heads(
    m: &Memory,
    t: &State,
    side: Side,
    used: &Words,
    lens: &Lengths,
    met: &mut Words,
    left: u32,
) -> u32
    ensures { (result, met.new)
        ≡ left_of side (word m.now) (heads_of t.now) used.now lens.now met.old left }
{
    let mut rest = left;
    for c in 0..CHANNELS {
        rest = walk_from(m, side, used, lens, met, t[queue_of(side, c)], rest);
    }
    rest
}

// Whether the book is sound. The scratch set is lent, and nothing is promised of what it holds afterwards. The clause is that of
// `book::is_sound`, a public promise that stays beside this one.
pub fn is_sound(m: &Memory, t: &State, used: &Words, lens: &Lengths, scratch: &mut Words) -> bool
    ensures { result ≡ sound_book (word m.now) t.now used.now lens.now }
{
    if !are_flags(t) {
        return false;
    }
    let words = count_words(used);
    let lengths = count_lengths(lens);
    words::clear_all(scratch);
    let received = walk_heads(m, t, Side::Transmit, used, lens, scratch, words);
    received == 4 * lengths && walk_heads(m, t, Side::Receive, used, lens, scratch, received) == 0
}
