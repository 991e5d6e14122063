// The guard's answers, and the guest write: may this write of Linux pass?
// Promises: for every input the answer and everything left behind (small state, words in use, lengths, descriptor memory) are those of the
// definition `guest_write`. `guest_write` refuses an unfit or unsound state with 1 and 2; `guest_write_sound` asks the caller for a fit and
// sound one, and answers the same. The small state is lent and changed where it lies. The change of a block's kind is the crate above.
// Document 01, "Answers by number", "The book and the release", "Judging".

#![tactic(auto)]

ghost use Rattle.std.specs.Prelude.{◌≡◌, ◌==◌, ℕ, ◌-◌, ◌/◌, ◌%◌, ◌<◌, true, false, List, Some, None, IfSome, MatchOption};
ghost use Rattle.layout.specs.Choice.{pick, both};
ghost use Rattle.layout.specs.Layout.{desc_first, desc_words, queues, addr, in_descriptors};
ghost use Rattle.layout.specs.Refusals.{fault};
ghost use Rattle.words.specs.Word.{word};
ghost use Rattle.registers.specs.Table.{awaiting, set_tearing, heads_of};
ghost use Rattle.registers.specs.Rules.{ack_fault, ack_written, teardown_number, reset_number, reset_written, zero_fault};
ghost use Rattle.chain.specs.Chain.{place_of, chain_of, told, verdict_number};
ghost use Rattle.book.specs.Quiet.{quiet};
ghost use Rattle.book.specs.World.{fit_parts, sound_book, unfit, sound_world, release};
ghost use Rattle.guard.specs.Answers.{world_at, Gives, answer_to, answer_of, number_of};
ghost use Rattle.guard.specs.Judges.{last_of, is_last, tail_in, judge_start, judge_head, judge_last, judge_word, judge_class, judge};
ghost use Rattle.guard.specs.Rulings.{handed_over, appended, ruled, plain_store, cp_address};
ghost use Rattle.guard.specs.Guard.{state_fault, guest_write};

use blocks::kinds_fit;
use book::{is_quiet, is_sound, release_book, take_chain};
use chain::{Fault, check_chain, check_single, is_single};
use layout::{
    CONTROL, CP, DESC_BYTES, DESC_FIRST, DESC_WORDS, HDP, Lengths, Memory, PASSED, QUEUES, RESET,
    Refusal, Side, Slot, TEARDOWN, UNOFFERED, Words, class_at, is_descriptor, side_of, slot_at,
};
use registers::{
    CP_LAST, HDP_AT, HDP_LAST, PASSED_LAST, State, TEARDOWN_LAST, UNOFFERED_LAST, ZERO_LAST,
    ack_fault, begin_reset, begin_teardown, head_number, is_awaiting, reset_number, tear_queue,
    teardown_number, write_ack, write_head, zero_fault,
};
use words::{copy_set, is_used, put_at, word_of};

// Descriptor memory, kinds, small state, words in use and lengths always go together, and are no struct: C lends them one by one, and a
// struct of loans would need a clause on each of its loans in every function. Queues and words stay numbers, as they index these tables,
// and address and value are two, as C hands them.

// Where the CPs begin: those that transmit, by channel, and so many bytes behind them those that receive.
const CP_FIRST: u32 = 0x4A10_0A40;

const CP_SIDE: u32 = 0x20;

// What an accepted write did, with the side and the channel.
#[derive(Clone, Copy)]
pub enum Effect {
    Plain,
    Started(Side, u8),
    Appended(Side, u8),
}

// The answer to a guard call. It is no `Result` of a refusal, since it is read and made of every number: document 01 names this enum.
#[derive(Clone, Copy)]
pub enum Answer {
    Accepted(Effect),
    Refused(u8),
}

impl From<Result<Effect, Refusal>> for Answer {
    ghost from_gives = { λ r a. a ≡ answer_of r };

    fn from(r: Result<Effect, Refusal>) -> Answer {
        match r {
            Ok(e) => Answer::Accepted(e),
            Err(f) => Answer::Refused(f.into()),
        }
    }
}

// The paper's number of an answer: 0 for an accepted one.
pub fn answer_number(a: Answer) -> u8
    ensures { result ≡ number_of a }
{
    match a {
        Answer::Accepted(_) => 0,
        Answer::Refused(n) => n,
    }
}

// A number as an answer, with what the accepted write did. No crate calls it any more: a public promise that stays.
pub fn answer_to(e: Effect, n: u8) -> Answer
    ensures { result ≡ answer_to e n }
{
    if n == 0 {
        Answer::Accepted(e)
    } else {
        Answer::Refused(n)
    }
}

// What the chain check says, by its refusal alone.
fn refusal(c: Result<(), Fault>) -> Result<(), Refusal>
    ensures { fault result ≡ verdict_number (told c) }
{
    c.map_err(|f| f.refusal)
}

// What is said of the chain from p, over the words in use. Only a chain of more than one descriptor needs the set of words met.
fn check_used(s: Side, p: u32, m: &Memory, kinds: &[u8], used: &Words) -> Result<(), Refusal>
    ensures { fault result ≡ (chain_of kinds.now (word m.now) (place_of s) used.now p).0 }
{
    if is_single(m, p) {
        return refusal(check_single(s, m, kinds, used, p));
    }
    let mut met = [0u8; DESC_WORDS];
    copy_set(used, &mut met);
    refusal(check_chain(s, m, kinds, &mut met, p))
}

// The HDP judge's chain, from p: refused, or handed over. Taken apart by `let .. else`, here and below, as document 01 names it.
fn hand_over(
    s: Side,
    p: u32,
    m: &Memory,
    kinds: &[u8],
    used: &mut Words,
    lens: &mut Lengths,
) -> Result<(), Refusal>
    ensures { (fault result, (used.new, lens.new))
        ≡ handed_over s kinds.now (word m.now) (used.old, lens.old) p }
{
    let c = check_used(s, p, m, kinds, used);
    let Ok(()) = c else {
        return c;
    };
    take_chain(m, s, used, lens, p);
    Ok(())
}

// The append judge's chain, from p, whose address goes into word k.
fn judge_append(
    s: Side,
    k: usize,
    p: u32,
    m: &mut Memory,
    kinds: &[u8],
    used: &mut Words,
    lens: &mut Lengths,
) -> Result<(), Refusal>
    requires { k < desc_words }
    ensures { (fault result, (used.new, lens.new), m.new)
        ≡ appended s kinds.now k m.old (used.old, lens.old) p }
{
    let c = check_used(s, p, m, kinds, used);
    let Ok(()) = c else {
        return c;
    };
    take_chain(m, s, used, lens, p);
    put_at(m, k, p);
    Ok(())
}

// The start of queue q at p: HDP and the book's head, once its chain is accepted.
fn judge_start(
    q: usize,
    p: u32,
    m: &Memory,
    kinds: &[u8],
    t: &mut State,
    used: &mut Words,
    lens: &mut Lengths,
) -> Result<Effect, Refusal>
    requires { q < queues }
    ensures { Gives
        (judge_start q p (world_at m.now kinds.now t.old used.old lens.old)) (answer_of result)
        m.now kinds.now t.new used.new lens.new }
{
    let s = side_of(q);
    hand_over(s, p, m, kinds, used, lens)?;
    t[q] = p;
    t[HDP_AT + q] = p;
    Ok(Effect::Started(s, (q / 2) as u8))
}

// HDP of queue q.
fn judge_head(
    q: usize,
    v: u32,
    m: &Memory,
    kinds: &[u8],
    t: &mut State,
    used: &mut Words,
    lens: &mut Lengths,
) -> Result<Effect, Refusal>
    requires { q < queues }
    ensures { Gives
        (judge_head q v (world_at m.now kinds.now t.old used.old lens.old)) (answer_of result)
        m.now kinds.now t.new used.new lens.new }
{
    head_number(t, q, v)?;
    if is_awaiting(t) {
        write_head(t, q, v);
        return Ok(Effect::Plain);
    }
    if t[q] != 0 {
        return Err(Refusal::Busy);
    }
    judge_start(q, v, m, kinds, t, used, lens)
}

// CP of queue q.
fn judge_ack(q: usize, v: u32, t: &mut State) -> Result<Effect, Refusal>
    requires { q < queues }
    ensures { (answer_of result, t.new)
        ≡ ruled (ack_fault (awaiting t.old) v) (ack_written t.old q v) t.old }
{
    ack_fault(is_awaiting(t), v)?;
    write_ack(t, q, v);
    Ok(Effect::Plain)
}

// The teardown of queue q.
fn judge_teardown(q: usize, v: u32, t: &mut State) -> Result<Effect, Refusal>
    requires { q < queues }
    ensures { (answer_of result, t.new)
        ≡ ruled (teardown_number t.old q v) (set_tearing q t.old) t.old }
{
    teardown_number(t, q, v)?;
    begin_teardown(t, q);
    Ok(Effect::Plain)
}

// CPDMA_SOFT_RESET.
fn judge_reset(v: u32, t: &mut State) -> Result<Effect, Refusal>
    ensures { (answer_of result, t.new)
        ≡ ruled (reset_number t.old v) (reset_written t.old) t.old }
{
    reset_number(t, v)?;
    begin_reset(t);
    Ok(Effect::Plain)
}

// DMACONTROL and RX_BUFFER_OFFSET.
fn judge_zero(v: u32) -> Result<Effect, Refusal>
    ensures { answer_of result ≡ answer_to Effect.Plain (zero_fault v) }
{
    zero_fault(v)?;
    Ok(Effect::Plain)
}

// A register of class n: one arm for each judge.
fn judge_class(
    n: u8,
    v: u32,
    m: &Memory,
    kinds: &[u8],
    t: &mut State,
    used: &mut Words,
    lens: &mut Lengths,
) -> Result<Effect, Refusal>
    ensures { Gives
        (judge_class n v (world_at m.now kinds.now t.old used.old lens.old)) (answer_of result)
        m.now kinds.now t.new used.new lens.new }
{
    match n {
        HDP..=HDP_LAST => judge_head((n - HDP) as usize, v, m, kinds, t, used, lens),
        CP..=CP_LAST => judge_ack((n - CP) as usize, v, t),
        TEARDOWN..=TEARDOWN_LAST => {
            judge_teardown(tear_queue(side_of((n - TEARDOWN) as usize), v), v, t)
        }
        RESET => judge_reset(v, t),
        CONTROL..=ZERO_LAST => judge_zero(v),
        PASSED..=PASSED_LAST => Ok(Effect::Plain),
        UNOFFERED..=UNOFFERED_LAST => Err(Refusal::NotOffered),
        _ => Err(Refusal::NotGuarded),
    }
}

// The last descriptor from the one at a slot on. So many turns at most: in a book that is not sound the pointers may run in a ring.
fn last_from(m: &Memory, first: Slot) -> Slot
    ensures { addr result.word ≡ last_of (word m.now) (addr first.word) }
{
    let mut at = first;
    for _ in 0..DESC_WORDS {
        let Some(next) = slot_at(word_of(m, at.word)) else {
            return at;
        };
        at = next;
    }
    at
}

// Whether word k is word 0 of the last descriptor of the queue with this head.
fn is_last(m: &Memory, head: u32, k: usize) -> bool
    ensures { result ≡ is_last (word m.now) head k }
{
    match slot_at(head) {
        Some(first) => last_from(m, first).word == k,
        None => false,
    }
}

// The queue whose last descriptor begins at word k, by its number over the heads.
fn tail_at(m: &Memory, t: &State, k: usize) -> Option<usize>
    ensures { result ≡ tail_in (word m.now) k 0 (heads_of t.now) }
{
    t[..QUEUES].iter().position(|head| is_last(m, *head, k))
}

// A word in use, now 0 and written nonzero: an append to the queue whose last descriptor it ends, else 11.
fn judge_last(
    k: usize,
    v: u32,
    m: &mut Memory,
    kinds: &[u8],
    t: &State,
    used: &mut Words,
    lens: &mut Lengths,
) -> Result<Effect, Refusal>
    requires { k < desc_words }
    ensures { Gives
        (judge_last k v (world_at m.old kinds.now t.now used.old lens.old)) (answer_of result)
        m.new kinds.now t.now used.new lens.new }
{
    let Some(q) = tail_at(m, t, k) else {
        return Err(Refusal::WordInUse);
    };
    let s = side_of(q);
    judge_append(s, k, v, m, kinds, used, lens)?;
    Ok(Effect::Appended(s, (q / 2) as u8))
}

// Word k of descriptor memory.
fn judge_word(
    k: usize,
    v: u32,
    m: &mut Memory,
    kinds: &[u8],
    t: &State,
    used: &mut Words,
    lens: &mut Lengths,
) -> Result<Effect, Refusal>
    requires { k < desc_words }
    ensures { Gives
        (judge_word k v (world_at m.old kinds.now t.now used.old lens.old)) (answer_of result)
        m.new kinds.now t.now used.new lens.new }
{
    if !is_used(used, k) {
        put_at(m, k, v);
        return Ok(Effect::Plain);
    }
    if word_of(m, k) != 0 || v == 0 {
        return Err(Refusal::WordInUse);
    }
    judge_last(k, v, m, kinds, t, used, lens)
}

// The word of descriptor memory whose address is a, if it is one's. The sum is layout's `word_number`, which asks for a good pointer.
fn word_at(a: u32) -> Option<usize>
    ensures { result
        ≡ pick (both (in_descriptors a) (a % 4 == 0)) (Some ((a - desc_first) / 4)) None }
{
    if is_descriptor(a) && a % 4 == 0 {
        Some(((a - DESC_FIRST) / 4) as usize)
    } else {
        None
    }
}

// Any address, on a released world.
fn judge_address(
    a: u32,
    v: u32,
    m: &mut Memory,
    kinds: &[u8],
    t: &mut State,
    used: &mut Words,
    lens: &mut Lengths,
) -> Result<Effect, Refusal>
    ensures { Gives
        (judge a v (world_at m.old kinds.now t.old used.old lens.old)) (answer_of result)
        m.new kinds.now t.new used.new lens.new }
{
    if a % 4 != 0 {
        return Err(Refusal::Misaligned);
    }
    match word_at(a) {
        Some(k) => judge_word(k, v, m, kinds, t, used, lens),
        None => judge_class(class_at(a), v, m, kinds, t, used, lens),
    }
}

// The release. Where there is nothing to release, as before most writes of a driver, the book is only looked at.
fn release_any(m: &Memory, t: &mut State, used: &mut Words, lens: &mut Lengths)
    ensures { (k : List ℕ) → release (world_at m.now k t.old used.old lens.old)
        ≡ world_at m.now k t.new used.new lens.new }
{
    if !is_quiet(m, t) {
        release_book(m, t, used, lens);
    }
}

// The release, then the judge.
fn write_released(
    a: u32,
    v: u32,
    m: &mut Memory,
    kinds: &[u8],
    t: &mut State,
    used: &mut Words,
    lens: &mut Lengths,
) -> Result<Effect, Refusal>
    ensures { Gives
        (judge a v (release (world_at m.old kinds.now t.old used.old lens.old))) (answer_of result)
        m.new kinds.now t.new used.new lens.new }
{
    release_any(m, t, used, lens);
    judge_address(a, v, m, kinds, t, used, lens)
}

// Whether descriptor memory and kind table are fit: 1 where not.
fn is_fit(m: &[u8], kinds: &[u8]) -> bool
    ensures { result ≡ fit_parts m.now kinds.now }
{
    m.len() == DESC_BYTES && kinds_fit(kinds)
}

// Whether the book is sound: 2 where not. The scratch set lives as long as the test.
fn is_sound_book(m: &Memory, t: &State, used: &Words, lens: &Lengths) -> bool
    ensures { result ≡ sound_book (word m.now) t.now used.now lens.now }
{
    let mut met = [0u8; DESC_WORDS];
    is_sound(m, t, used, lens, &mut met)
}

// 1 or 2, by which every call on this state is refused.
pub fn state_fault(
    m: &[u8],
    kinds: &[u8],
    t: &State,
    used: &Words,
    lens: &Lengths,
) -> Result<(), Refusal>
    ensures { fault result ≡ state_fault m.now kinds.now t.now used.now lens.now }
{
    if !is_fit(m, kinds) {
        return Err(Refusal::Unfit);
    }
    if !is_sound_book(m.as_array().unwrap(), t, used, lens) {
        return Err(Refusal::Unsound);
    }
    Ok(())
}

// The word at a, if a write there is a store and nothing else; none where it is not.
fn stored_word(a: u32, m: &Memory, t: &State, used: &Words) -> Option<usize>
    ensures { MatchOption result (plain_store a (word m.now) t.now used.now ≡ false)
        (λ k. (k ≡ (a - desc_first) / 4) × (k < desc_words) × (plain_store a (word m.now) t.now used.now ≡ true)) }
{
    let k = word_at(a)?;
    if is_used(used, k) {
        return None;
    }
    if is_quiet(m, t) { Some(k) } else { None }
}

// The queue whose CP stands at a, if one does. The list of classes is not asked.
fn cp_queue(a: u32) -> Option<usize>
    ensures { IfSome result (λ q. (q < queues) × (a ≡ cp_address q)) }
{
    let d = a.wrapping_sub(CP_FIRST);
    if 2 * CP_SIDE <= d || d % 4 != 0 {
        return None;
    }
    let q = (2 * (d % CP_SIDE / 4) + d / CP_SIDE) as usize;
    if q < QUEUES { Some(q) } else { None }
}

// The queue whose CP stands at a, where there is nothing to release either.
fn quiet_cp(a: u32, m: &Memory, t: &State) -> Option<usize>
    ensures { IfSome result (λ q. (q < queues) × (a ≡ cp_address q) × (quiet (word m.now) t.now ≡ true)) }
{
    let q = cp_queue(a)?;
    if is_quiet(m, t) { Some(q) } else { None }
}

// A guest write on a state that is known to be fit and sound: what a caller has who started fresh and changed the book through the guard
// alone. It costs what the write itself needs;
// a store to a free word and an acknowledgement, which most writes of a driver are, are done here.
pub fn guest_write_sound(
    a: u32,
    v: u32,
    m: &mut [u8],
    kinds: &[u8],
    t: &mut State,
    used: &mut Words,
    lens: &mut Lengths,
) -> Answer
    requires { (unfit (world_at m.old kinds.now t.old used.old lens.old) ≡ false)
        × (sound_world (world_at m.old kinds.now t.old used.old lens.old) ≡ true) }
    ensures { Gives
        (guest_write a v (world_at m.old kinds.now t.old used.old lens.old)) result
        m.new kinds.now t.new used.new lens.new }
{
    let Some(m) = m.as_mut_array() else {
        unreachable!()
    };
    if let Some(free) = stored_word(a, m, t, used) {
        put_at(m, free, v);
        return Answer::Accepted(Effect::Plain);
    }
    if let Some(q) = quiet_cp(a, m, t) {
        return judge_ack(q, v, t).into();
    }
    write_released(a, v, m, kinds, t, used, lens).into()
}

// A guest write of v to address a, on any state: unfit 1, unsound 2.
pub fn guest_write(
    a: u32,
    v: u32,
    m: &mut [u8],
    kinds: &[u8],
    t: &mut State,
    used: &mut Words,
    lens: &mut Lengths,
) -> Answer
    ensures { Gives
        (guest_write a v (world_at m.old kinds.now t.old used.old lens.old)) result
        m.new kinds.now t.new used.new lens.new }
{
    if let Err(f) = state_fault(m, kinds, t, used, lens) {
        return Answer::Refused(f.into());
    }
    write_released(a, v, m.as_mut_array().unwrap(), kinds, t, used, lens).into()
}
