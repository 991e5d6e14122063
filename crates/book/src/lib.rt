// The book: the small state, the words in use and the recorded lengths, all lent. It is found sound or not, what the controller
// is done with is released from it, and an accepted chain is handed over to it.
// Promises: each function's answer, and what it leaves of the small state, of the words in use and of the lengths, are those of the
// definitions in specs/; descriptors are taken and dropped one at a time, and no walk grows the stack with the chain.
// Document 01, "The book and the release".

#![tactic(auto)]

ghost use Rattle.std.specs.Prelude.{◌≡◌};
ghost use Rattle.words.specs.Word.{word};
ghost use Rattle.registers.specs.Table.{heads_of, cps_of, tearings_of};
ghost use Rattle.book.specs.HandOver.{recorded_length, take_one, drop_one, hand_over_step, taken_from};
ghost use Rattle.book.specs.Release.{through, plan, release_step, released_from, reset_over, settled, released_flags};
ghost use Rattle.book.specs.Release.{release_mode, released_heads, released_book};
ghost use Rattle.book.specs.Sound.{walk_step, walk_from, walk_all, first_step, firsts_from, firsts_all, length_fits, lengths_fit};
ghost use Rattle.book.specs.World.{sound_book};
ghost use Rattle.book.specs.Quiet.{held, held_all, quiet};
ghost use Rattle.book.specs.Hops.{turned, taken, walked, noted};

use descriptor::{Flag, has_flag};
use layout::{
    CHANNELS, LENGTH_MAX, Lengths, Memory, QUEUES, Side, Slot, TEARDOWN_DONE, Words, clear_bit,
    queue_of, slot_at,
};
use registers::{
    CP_AT, MARKS_AT, RESET_AT, State, TEARING_AT, are_flags, has_reset_bit, is_any_tearing,
    is_resetting,
};

// The parts of a book stay lent apart, as C lends them: of a struct of three `&mut`, each function would have to promise each loan's name.

// Where the release stands: at a queue's head, in a packet that goes, or in the rest of a queue that goes.
#[derive(Clone, Copy)]
pub enum Mode {
    Head,
    Packet,
    All,
}

// The chain walk at p: its descriptor's words are met, and the next pointer is told. A pointer that names none, or one met before, ends
// the walk.
#[tactic(auto, using(crate::proofs::SoundLaws::good_not_zero), unfolding(crate::specs::Sound::walk_step))]
fn meet_at(m: &Memory, met: &mut Words, p: u32) -> Option<u32>
    ensures { walked result p met.new ≡ walk_step (word m.now) (met.old, p) }
{
    let d = slot_at(p)?;
    if !words::four_free(met, d.word) {
        return None;
    }
    words::take_four(met, d);
    Some(words::word_of(m, d.word))
}

// Whether the chain from p ends at 0 over good pointers, no word met twice. The three loops along a queue stay three: each does another
// thing at a descriptor, with other tables lent.
fn walk_from(m: &Memory, met: &mut Words, mut p: u32) -> bool
    ensures { (result, met.new) ≡ walk_from (word m.now) met.old p }
{
    while let Some(next) = meet_at(m, met, p) {
        p = next;
    }
    p == 0
}

// The first word of the descriptor at p is noted. A pointer that names none, or one noted before, ends the walk.
#[tactic(auto, unfolding(crate::specs::Sound::first_step))]
fn note_at(m: &Memory, firsts: &mut Words, p: u32) -> Option<u32>
    ensures { noted result firsts.new ≡ first_step (word m.now) (firsts.old, p) }
{
    let d = slot_at(p)?.word;
    if firsts[d] != 0 {
        return None;
    }
    firsts[d] = 1;
    Some(words::word_of(m, d))
}

// The first words of the descriptors from p on are noted.
fn note_from(m: &Memory, firsts: &mut Words, mut p: u32)
    ensures { firsts.new ≡ firsts_from (word m.now) firsts.old p }
{
    while let Some(next) = note_at(m, firsts, p) {
        p = next;
    }
}

// Whether a recorded length fits, by whether a receive descriptor begins at its word.
fn length_fits(first: u8, len: u16) -> bool
    ensures { result ≡ length_fits first len }
{
    (first == 0) == (len == 0) && u32::from(len) <= LENGTH_MAX
}

// Whether each recorded length fits. All are asked, and none ends it early, so that it is compiled to many entries a turn.
fn lengths_fit(firsts: &Words, lens: &Lengths) -> bool
    ensures { result ≡ lengths_fit firsts.now lens.now }
{
    firsts
        .iter()
        .zip(lens)
        .fold(true, |fit, (first, len)| fit & length_fits(*first, *len))
}

// Each chain from the heads in turn: whether all of them end at 0 over good pointers, no word met twice.
fn walk_heads(m: &Memory, t: &State, met: &mut Words) -> bool
    ensures { (result, met.new)
        ≡ walk_all (word m.now) (heads_of t.now) met.old }
{
    let mut good = true;
    for head in &t[..QUEUES] {
        good &= walk_from(m, met, *head);
    }
    good
}

// The first words of the descriptors of each receive queue are noted: those of odd number. A turn of its own, as the two over all heads
// are: each takes other tables along.
fn note_heads(m: &Memory, t: &State, firsts: &mut Words)
    ensures { firsts.new ≡ firsts_all (word m.now) (heads_of t.now) firsts.old }
{
    for c in 0..CHANNELS {
        note_from(m, firsts, t[queue_of(Side::Receive, c)]);
    }
}

// Whether the book is sound. The scratch set is lent, and nothing is promised of what it holds afterwards.
pub fn is_sound(m: &Memory, t: &State, used: &Words, lens: &Lengths, scratch: &mut Words) -> bool
    ensures { result ≡ sound_book (word m.now) t.now used.now lens.now }
{
    if !are_flags(t) {
        return false;
    }
    words::clear_all(scratch);
    if !walk_heads(m, t, scratch) {
        return false;
    }
    if *scratch != *used {
        return false;
    }
    words::clear_all(scratch);
    note_heads(m, t, scratch);
    lengths_fit(scratch, lens)
}

// A descriptor of a packet that goes: it goes, and the walk goes on in a mode.
fn plan_through(x3: u32) -> Option<Mode>
    ensures { result ≡ through x3 }
{
    if !has_flag(x3, Flag::Eop) {
        Some(Mode::Packet)
    } else if has_flag(x3, Flag::Eoq) {
        Some(Mode::All)
    } else {
        Some(Mode::Head)
    }
}

// What becomes of a descriptor, by where the release stands and by its word 3: dropped, and the walk goes on in a mode, or kept, with all
// behind it.
#[tactic(auto, unfolding(crate::specs::Release::plan))]
fn plan_of(mode: Mode, x3: u32) -> Option<Mode>
    ensures { result ≡ plan mode x3 }
{
    match mode {
        Mode::All => Some(Mode::All),
        Mode::Packet => plan_through(x3),
        Mode::Head if has_flag(x3, Flag::Td) => Some(Mode::All),
        Mode::Head if has_flag(x3, Flag::Owner) => None,
        Mode::Head => plan_through(x3),
    }
}

// The descriptor at d goes: its words are out of use, and its recorded length is 0.
#[tactic(auto, unfolding(crate::specs::HandOver::drop_one))]
fn drop_one(used: &mut Words, lens: &mut Lengths, d: Slot)
    ensures { (used.new, lens.new) ≡ drop_one (used.old, lens.old) d.word }
{
    words::drop_four(used, d);
    lens[d.word] = 0;
}

// The release at p: its descriptor is kept, or it is dropped, and the next pointer is told, and the mode there. A pointer that names no
// descriptor in use ends the queue.
#[tactic(auto, unfolding(crate::specs::Release::release_step))]
fn release_at(
    m: &Memory,
    used: &mut Words,
    lens: &mut Lengths,
    p: u32,
    mode: Mode,
) -> Option<(u32, Mode)>
    ensures { turned result p (used.new, lens.new)
        ≡ release_step (word m.now) ((used.old, lens.old), p, mode) }
{
    let d = slot_at(p)?;
    if !words::is_used(used, d.word) {
        return None;
    }
    let rest = plan_of(mode, words::word_of(m, d.word + 3))?;
    drop_one(used, lens, d);
    Some((words::word_of(m, d.word), rest))
}

// One queue from p on: what goes, goes descriptor by descriptor, and the head that is left is the answer.
// A recursion, as document 01 names it.
fn release_from(m: &Memory, used: &mut Words, lens: &mut Lengths, p: u32, mode: Mode) -> u32
    ensures { (result, (used.new, lens.new))
        ≡ released_from (word m.now) (used.old, lens.old) p mode }
{
    match release_at(m, used, lens, p, mode) {
        None => p,
        Some((next, rest)) => release_from(m, used, lens, next, rest),
    }
}

// Each queue in turn, from its head on: the heads that are left.
fn release_queues(m: &Memory, t: &mut State, used: &mut Words, lens: &mut Lengths, mode: Mode)
    ensures { (t.new, (used.new, lens.new))
        ≡ released_heads (word m.now) mode t.old (used.old, lens.old) }
{
    for head in &mut t[..QUEUES] {
        *head = release_from(m, used, lens, *head, mode);
    }
}

// Whether a reset is over that the book still has as pending.
fn is_over(t: &State) -> bool
    ensures { result ≡ reset_over t.now }
{
    is_resetting(t) && !has_reset_bit(t)
}

// The teardowns that are still pending: those that the controller has finished are not.
fn settle(t: &State) -> u32
    ensures { result ≡ settled (tearings_of t.now) 0 (cps_of t.now) }
{
    let mut mask = t[TEARING_AT];
    for q in 0..QUEUES {
        if t[CP_AT + q] == TEARDOWN_DONE {
            mask = clear_bit(mask, q as u32);
        }
    }
    mask
}

// The flags after what is over has been seen.
#[tactic(auto, unfolding(crate::specs::Release::released_flags))]
fn release_flags(t: &mut State)
    ensures { t.new ≡ released_flags t.old }
{
    let over = is_over(t);
    t[TEARING_AT] = settle(t);
    if over {
        t[MARKS_AT] = 0;
        t[RESET_AT] = 0;
    }
}

// Where the release of a queue begins: after a reset all of it goes.
fn mode_of(t: &State) -> Mode
    ensures { result ≡ release_mode t.now }
{
    if is_over(t) { Mode::All } else { Mode::Head }
}

// The release of the whole book. Where nothing goes, no more is read than word 3 at each head.
#[tactic(auto, unfolding(crate::specs::Release::released_book))]
pub fn release_book(m: &Memory, t: &mut State, used: &mut Words, lens: &mut Lengths)
    ensures { (t.new, (used.new, lens.new))
        ≡ released_book (word m.now) t.old (used.old, lens.old) }
{
    let mode = mode_of(t);
    release_queues(m, t, used, lens, mode);
    release_flags(t);
}

// Whether the queue with the head p keeps all its descriptors: it is empty, or p names one that is still the controller's.
#[tactic(auto, unfolding(crate::specs::Quiet::held))]
fn is_held(m: &Memory, p: u32) -> bool
    ensures { result ≡ held (word m.now) p }
{
    if p == 0 {
        return true;
    }
    let Some(d) = slot_at(p) else {
        return false;
    };
    let x3 = words::word_of(m, d.word + 3);
    !has_flag(x3, Flag::Td) && has_flag(x3, Flag::Owner)
}

// Whether each queue does.
fn are_held(m: &Memory, t: &State) -> bool
    ensures { result ≡ held_all (word m.now) (heads_of t.now) }
{
    t[..QUEUES].iter().all(|head| is_held(m, *head))
}

// Whether the release finds nothing to do.
#[tactic(auto, unfolding(crate::specs::Quiet::quiet))]
pub fn is_quiet(m: &Memory, t: &State) -> bool
    ensures { result ≡ quiet (word m.now) t.now }
{
    !is_resetting(t) && !is_any_tearing(t) && are_held(m, t)
}

// What is recorded for a descriptor: a receive length as handed over, else 0.
fn record_of(side: Side, x2: u32) -> u16
    ensures { result ≡ recorded_length side x2 }
{
    match side {
        Side::Transmit => 0,
        Side::Receive => descriptor::length_of(side, x2) as u16,
    }
}

// The descriptor at d, whose word 2 is x2, is taken: its words are in use, and its length is recorded.
#[tactic(auto, unfolding(crate::specs::HandOver::take_one))]
fn take_one(side: Side, x2: u32, used: &mut Words, lens: &mut Lengths, d: Slot)
    ensures { (used.new, lens.new) ≡ take_one side x2 (used.old, lens.old) d.word }
{
    words::take_four(used, d);
    lens[d.word] = record_of(side, x2);
}

// The hand-over at p: its descriptor is taken, and the next pointer is told. A pointer that names no free descriptor ends the chain.
#[tactic(auto, unfolding(crate::specs::HandOver::hand_over_step))]
fn take_at(m: &Memory, side: Side, used: &mut Words, lens: &mut Lengths, p: u32) -> Option<u32>
    ensures { taken result (used.new, lens.new)
        ≡ hand_over_step (word m.now) side ((used.old, lens.old), p) }
{
    let d = slot_at(p)?;
    if !words::four_free(used, d.word) {
        return None;
    }
    take_one(side, words::word_of(m, d.word + 2), used, lens, d);
    Some(words::word_of(m, d.word))
}

// The hand-over of an accepted chain: every descriptor from `at` on is taken.
pub fn take_chain(m: &Memory, side: Side, used: &mut Words, lens: &mut Lengths, at: u32)
    ensures { (used.new, lens.new)
        ≡ taken_from (word m.now) side (used.old, lens.old) at }
{
    let mut p = at;
    while let Some(next) = take_at(m, side, used, lens, p) {
        p = next;
    }
}
