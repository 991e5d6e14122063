// The change of a block's kind: a whole guard call beside the guest write.
// Promises: for every input the answer and everything left behind (small state, words in use, lengths, kinds) are those of the definition
// `kind_change`. `kind_change` refuses an unfit or unsound state with 1 and 2; `kind_change_sound` asks the caller for a fit and sound one,
// and answers the same. Document 01, "Judging", "Kind change".

#![tactic(auto)]

ghost use Rattle.std.specs.Prelude.{◌≡◌, true, false, ◌+◌};
ghost use Rattle.layout.specs.Refusals.{fault};
ghost use Rattle.words.specs.Word.{word};
ghost use Rattle.blocks.specs.Room.{touches};
ghost use Rattle.book.specs.World.{unfit, sound_world, release};
ghost use Rattle.guard.specs.Answers.{world_at, Gives, answer_of};
ghost use Rattle.kinds.specs.Kinds.{in_reception, kind_number, judge_kind, kind_change};
ghost use Rattle.kinds.specs.Parts.{kind_outcome};

use blocks::touches_block;
use book::release_book;
use guard::{Answer, Effect, state_fault};
use layout::{DESC_WORDS, Lengths, Memory, Refusal, Words};
use registers::State;
use words::word_of;

// The largest kind, as blocks has it of a byte. Kinds are numbers: an enum of them would be made of one only to be turned into a byte of
// the table.
const KIND_MAX: u32 = 4;

// The last word of descriptor memory, at which no descriptor begins.
const LAST_WORD: usize = DESC_WORDS - 1;

// Whether a receive buffer of the recorded length n, whose descriptor begins at word i, touches block b. The test of i is its bound.
fn is_touching(m: &Memory, i: usize, n: u16, b: u32) -> bool
    ensures { result ≡ touches b (word m.now (i + 1)) n }
{
    if n == 0 || LAST_WORD <= i {
        return false;
    }
    touches_block(b, word_of(m, i + 1), u32::from(n))
}

// Whether a receive buffer in the book, at its handed-over length, touches block b. The last word begins no descriptor, and is
// not asked.
fn in_reception(m: &Memory, lens: &Lengths, b: u32) -> bool
    ensures { result ≡ in_reception (word m.now) lens.now b }
{
    lens[..LAST_WORD]
        .iter()
        .enumerate()
        .any(|(i, n)| is_touching(m, i, *n, b))
}

// 18 to 21 for the change of block b to kind k.
#[tactic(auto, unfolding(crate::specs::Kinds::kind_number))]
fn kind_fault(b: u32, k: u32, m: &Memory, kinds: &[u8], lens: &Lengths) -> Result<(), Refusal>
    ensures { fault result ≡ kind_number b k (word m.now) lens.now kinds.now }
{
    let Some(&now) = kinds.get(b as usize) else {
        return Err(Refusal::NoBlock);
    };
    if k < 1 || KIND_MAX < k {
        return Err(Refusal::BadKind);
    }
    if now == 0 {
        return Err(Refusal::NotLinux);
    }
    if k != 1 && in_reception(m, lens, b) {
        return Err(Refusal::InReception);
    }
    Ok(())
}

// The change of block b to kind k: refused, or made.
fn change_block(b: u32, k: u32, m: &Memory, kinds: &mut [u8], lens: &Lengths) -> Result<(), Refusal>
    ensures { (fault result, kinds.new) ≡ kind_outcome b k (word m.now) lens.now kinds.old }
{
    kind_fault(b, k, m, kinds, lens)?;
    kinds[b as usize] = k as u8;
    Ok(())
}

// The release, then the change.
fn change_released(
    block: u32,
    kind: u32,
    m: &Memory,
    kinds: &mut [u8],
    t: &mut State,
    used: &mut Words,
    lens: &mut Lengths,
) -> Result<Effect, Refusal>
    ensures { Gives
        (judge_kind block kind
        (release (world_at m.now kinds.old t.old used.old lens.old))) (answer_of result)
        m.now kinds.new t.new used.new lens.new }
{
    release_book(m, t, used, lens);
    // A match and no `?`: the answer to a refusal stands in an arm of its own, where an edit can say it wrong
    // (docs/DESIGN-PASS.md, "What came back").
    match change_block(block, kind, m, kinds, lens) {
        Ok(()) => Ok(Effect::Plain),
        Err(r) => Err(r),
    }
}

// A kind change on a state that is known to be fit and sound.
pub fn kind_change_sound(
    block: u32,
    kind: u32,
    m: &[u8],
    kinds: &mut [u8],
    t: &mut State,
    used: &mut Words,
    lens: &mut Lengths,
) -> Answer
    requires { (unfit (world_at m.now kinds.old t.old used.old lens.old) ≡ false)
        × (sound_world (world_at m.now kinds.old t.old used.old lens.old) ≡ true) }
    ensures { Gives
        (kind_change block kind (world_at m.now kinds.old t.old used.old lens.old)) result
        m.now kinds.new t.new used.new lens.new }
{
    change_released(block, kind, m.as_array().unwrap(), kinds, t, used, lens).into()
}

// The change of a block's kind, on any state: unfit 1, unsound 2.
pub fn kind_change(
    block: u32,
    kind: u32,
    m: &[u8],
    kinds: &mut [u8],
    t: &mut State,
    used: &mut Words,
    lens: &mut Lengths,
) -> Answer
    ensures { Gives
        (kind_change block kind (world_at m.now kinds.old t.old used.old lens.old)) result
        m.now kinds.new t.new used.new lens.new }
{
    if let Err(f) = state_fault(m, kinds, t, used, lens) {
        return Answer::Refused(f.into());
    }
    change_released(block, kind, m.as_array().unwrap(), kinds, t, used, lens).into()
}
