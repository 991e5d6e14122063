// The chain check: the rules 12 to 17 along a chain of descriptors.
// Promises: a chain is called good exactly where document 01 accepts it. Otherwise the answer has the refusal and the place of the
// first faulty descriptor and, with 16, the block that bars its buffer. Either way the words met grow by those of the descriptors
// before the fault. A chain of one descriptor has a way of its own, which asks the words in use and makes no set of words met.
// Document 01, "Judging" and "Answers by number".
// The start of a packet has one rule and its middle another, each handing on to the other, as document 01 names it. What they hand on is
// thin and what they answer is a number, so that the call of a rule by a rule is compiled to a jump and no chain makes the stack grow.
// Memory and kinds go side by side: a struct of both, made in this crate alone, would stand before either name in every clause.

#![tactic(auto)]

ghost use Rattle.std.specs.Prelude.{◌≡◌, ◌+◌, ◌/◌, ◌%◌, true, [], ◌≤◌};
ghost use Rattle.layout.specs.Refusals.{refusal_number, fault};
ghost use Rattle.words.specs.Word.{word};
ghost use Rattle.words.specs.WordSet.{view};
ghost use Rattle.blocks.specs.Room.{room_of};
ghost use Rattle.descriptor.specs.Fields.{length_of, first_byte};
ghost use Rattle.descriptor.specs.Rules.{length_fault};
ghost use Rattle.chain.specs.Chain.{block_fault, judge_step, chain_of, place_of, told, said, verdict_of};
ghost use Rattle.chain.specs.Hands.{unpacked, fault_of, fault_at, judged, IsNumber, Measured, single};

use blocks::Room;
use descriptor::{Descriptor, Flag, Place, descriptor_at, has_flag};
use layout::{Memory, Refusal, Side, Words, slot_at};

// What is wrong with a chain: the refusal, the descriptor (or the bad pointer), and what the blocks say to the buffer there: `Free` too
// where they were not asked, as the definition `said` has it.
#[derive(Drop)]
pub struct Fault {
    pub refusal: Refusal,
    pub place: u32,
    pub room: Room,
}

// What the blocks say to a buffer whose length is in order.
fn buffer_room(kinds: &[u8], side: Side, d: Descriptor) -> Room
    requires { length_fault side d.buffer d.word2 d.word3 ≡ 0 }
    ensures { result ≡ room_of side kinds.now (first_byte side d.buffer d.word2 d.word3) (length_of side d.word2) }
{
    let len = descriptor::length_of(side, d.word2) as u64;
    blocks::room_of(side, kinds, d.first_byte(side), len)
}

// Rule 16: buffer not permitted.
#[tactic(auto, unfolding(crate::specs::Chain::block_fault))]
fn block_fault(kinds: &[u8], side: Side, d: Descriptor) -> Result<(), Refusal>
    requires { length_fault side d.buffer d.word2 d.word3 ≡ 0 }
    ensures { fault result ≡ block_fault kinds.now side d.buffer d.word2 d.word3 }
{
    match buffer_room(kinds, side, d) {
        Room::Free => Ok(()),
        Room::Barred(_) | Room::Outside => Err(Refusal::NotPermitted),
    }
}

// Rules 14 to 17 of a descriptor: the lowest number.
// As judge, it is compiled into each rule, where the place is known: that halves the instructions of a long chain.
#[inline(always)]
#[tactic(auto, unfolding(crate::specs::Hands::fault_of))]
fn descriptor_fault(kinds: &[u8], pl: Place, d: Descriptor) -> Result<(), Refusal>
    ensures { fault result ≡ fault_of kinds.now pl d }
{
    let side = pl.side();
    d.flags_fault(pl)?;
    d.length_fault(side)?;
    block_fault(kinds, side, d)?;
    d.sum_fault(pl)?;
    d.next_fault(pl.behind(d))
}

// Rules 12 and 13, then the rest, of the descriptor that a pointer names. Without fault it is met.
#[inline(always)]
#[tactic(auto, using(crate::proofs::HandLaws::leaves), unfolding(crate::specs::Hands::fault_at))]
fn judge(
    m: &Memory,
    kinds: &[u8],
    met: &mut Words,
    pl: Place,
    at: u32,
) -> Result<Descriptor, Refusal>
    ensures { judged pl at result (view met.new) ≡ judge_step kinds.now (word m.now) (pl, view met.old, at) }
{
    let slot = slot_at(at).ok_or(Refusal::BadPointer)?;
    if !words::is_free(met, slot) {
        return Err(Refusal::Overlap);
    }
    let d = descriptor_at(m, slot);
    descriptor_fault(kinds, pl, d)?;
    words::add_four(met, slot);
    Ok(d)
}

// A refusal and its place travel as one number, with the refusal's number in the low byte, and 0 where there is none.
// In place of a Result, which is handed back through memory: with it no call of a rule by a rule is a jump (tried).
const LOW_BYTE: u64 = 256;

// A refusal as the rules answer it.
fn refused(r: Refusal, at: u32) -> u64
    ensures { (result % 256 ≡ refusal_number r) × (result / 256 ≡ at) }
{
    u8::from(r) as u64 + LOW_BYTE * at as u64
}

// The transmit chain from at, where a packet starts. The kinds come by a thin reference: all that a rule hands on fits in registers.
#[cycle(middle_rule_start_rule)]
#[tactic(auto, using(crate::proofs::HandLaws::hands))]
fn start_rule(m: &Memory, kinds: &&[u8], met: &mut Words, at: u32) -> u64
    ensures { unpacked result (view met.new) ≡ chain_of kinds.now.now (word m.now) Place.Start (view met.old) at }
{
    match judge(m, *kinds, met, Place::Start, at) {
        Err(r) => refused(r, at),
        Ok(d) if d.next == 0 => 0,
        Ok(d) if has_flag(d.word3, Flag::Eop) => start_rule(m, kinds, met, d.next),
        Ok(d) => middle_rule(m, kinds, met, d.next, d.word3, Place::Start.sum_at(d)),
    }
}

// The transmit chain from at, in the middle of a packet: sop is word 3 of its first descriptor, sum the lengths so far.
#[cycle(middle_rule_start_rule)]
#[tactic(auto, using(crate::proofs::HandLaws::hands))]
fn middle_rule(m: &Memory, kinds: &&[u8], met: &mut Words, at: u32, sop: u32, sum: u32) -> u64
    ensures { unpacked result (view met.new) ≡ chain_of kinds.now.now (word m.now) (Place.Middle sop sum) (view met.old) at }
{
    let here = Place::Middle(sop, sum);
    match judge(m, *kinds, met, here, at) {
        Err(r) => refused(r, at),
        Ok(d) if d.next == 0 => 0,
        Ok(d) if has_flag(d.word3, Flag::Eop) => start_rule(m, kinds, met, d.next),
        Ok(d) => middle_rule(m, kinds, met, d.next, sop, here.sum_at(d)),
    }
}

// The receive chain from at. A recursion like the transmit rules, though 01 names none here: the same laws then hold of it as they stand.
#[tactic(auto, using(crate::proofs::HandLaws::hands))]
fn receive_rule(m: &Memory, kinds: &&[u8], met: &mut Words, at: u32) -> u64
    ensures { unpacked result (view met.new) ≡ chain_of kinds.now.now (word m.now) Place.Buffer (view met.old) at }
{
    match judge(m, *kinds, met, Place::Buffer, at) {
        Err(r) => refused(r, at),
        Ok(d) if d.next == 0 => 0,
        Ok(d) => receive_rule(m, kinds, met, d.next),
    }
}

// The chain of a side by its rules.
fn follow(side: Side, m: &Memory, kinds: &[u8], met: &mut Words, at: u32) -> u64
    ensures { unpacked result (view met.new) ≡ chain_of kinds.now (word m.now) (place_of side) (view met.old) at }
{
    match side {
        Side::Transmit => start_rule(m, &kinds, met, at),
        Side::Receive => receive_rule(m, &kinds, met, at),
    }
}

// The refusal of a number that the rules answer, or none for 0.
fn numbered(n: u8) -> Result<(), Refusal>
    requires { IsNumber n }
    ensures { fault result ≡ n }
{
    match n {
        12 => Err(Refusal::BadPointer),
        13 => Err(Refusal::Overlap),
        14 => Err(Refusal::Flags),
        15 => Err(Refusal::BadLength),
        16 => Err(Refusal::NotPermitted),
        17 => Err(Refusal::Unfinished),
        _ => Ok(()),
    }
}

// The answer with its place: with 16 the buffer there is asked once more, for the block.
#[tactic(auto, using(crate::proofs::HandLaws::measured_words, crate::proofs::HandLaws::said_barred))]
fn verdict_at(
    side: Side,
    m: &Memory,
    kinds: &[u8],
    found: Result<(), Refusal>,
    place: u32,
) -> Result<(), Fault>
    requires { fault found ≡ 16 → Measured (word m.now) side place }
    ensures { told result ≡ said kinds.now (word m.now) side (fault found, place, []) }
{
    let Err(refusal) = found else {
        return Ok(());
    };
    let room = match (refusal, slot_at(place)) {
        (Refusal::NotPermitted, Some(slot)) => buffer_room(kinds, side, descriptor_at(m, slot)),
        _ => Room::Free,
    };
    Err(Fault {
        refusal,
        place,
        room,
    })
}

// What is said of a chain. met comes in with the words in use, so that 13 is one test, and goes out with the words met added.
pub fn check_chain(
    side: Side,
    m: &Memory,
    kinds: &[u8],
    met: &mut Words,
    at: u32,
) -> Result<(), Fault>
    ensures { (told result, view met.new) ≡ verdict_of side kinds.now (word m.now) (view met.old) at }
{
    let v = follow(side, m, kinds, met, at);
    let found = numbered((v % LOW_BYTE) as u8);
    verdict_at(side, m, kinds, found, (v / LOW_BYTE) as u32)
}

// Where a chain of a side begins.
fn first_place(side: Side) -> Place
    ensures { result ≡ place_of side }
{
    match side {
        Side::Transmit => Place::Start,
        Side::Receive => Place::Buffer,
    }
}

// As judge, but 13 is asked of the words in use, and nothing is met: how the words met are stored is seen in crate words alone.
#[tactic(auto, using(crate::proofs::HandLaws::fault_of_at), unfolding(crate::specs::Hands::fault_at))]
fn fault_in_use(m: &Memory, kinds: &[u8], used: &Words, pl: Place, at: u32) -> Result<(), Refusal>
    ensures { fault result ≡ fault_at kinds.now (word m.now) pl used.now at }
{
    let slot = slot_at(at).ok_or(Refusal::BadPointer)?;
    if !words::four_free(used, slot.word) {
        return Err(Refusal::Overlap);
    }
    descriptor_fault(kinds, pl, descriptor_at(m, slot))
}

// Whether the chain from at is one descriptor, as most are that a driver hands over.
#[tactic(auto, unfolding(crate::specs::Hands::single))]
pub fn is_single(m: &Memory, at: u32) -> bool
    ensures { result ≡ single (word m.now) at }
{
    slot_at(at).is_some_and(|slot| words::word_of(m, slot.word) == 0)
}

// What is said of such a chain. It meets no word twice, and no set of words met is made.
#[tactic(auto, using(crate::proofs::HandLaws::verdict_single))]
pub fn check_single(
    side: Side,
    m: &Memory,
    kinds: &[u8],
    used: &Words,
    at: u32,
) -> Result<(), Fault>
    requires { single (word m.now) at ≡ true }
    ensures { told result ≡ (verdict_of side kinds.now (word m.now) used.now at).0 }
{
    let found = fault_in_use(m, kinds, used, first_place(side), at);
    verdict_at(side, m, kinds, found, at)
}
