// The guard for callers in C: the same calls, with the answer in one number. The arrays are lent as they are, the small state too.
// Promises: each call's number, and every array it leaves, are those of the guard's definitions on the state that the arrays hold
// (`Crosses`, specs/Crossing.antt). The entries named `.._sound` ask for a fit and sound state, and answer the same.
// Document 01, "Answers by number".

#![tactic(auto)]

ghost use Rattle.std.specs.Prelude.{◌≡◌, true, false, ◌+◌, ◌*◌, ◌≤◌};
ghost use Rattle.book.specs.World.{unfit, sound_world, fresh_state, fresh_used, fresh_lens};
ghost use Rattle.guard.specs.Answers.{world_at, number_of_side};
ghost use Rattle.guard.specs.Guard.{guest_write};
ghost use Rattle.kinds.specs.Kinds.{kind_change};
ghost use Rattle.api.specs.Crossing.{answer_word, Crosses};

use guard::{Answer, Effect, guest_write, guest_write_sound};
use kinds::{kind_change, kind_change_sound};
use layout::{DESC_WORDS, Lengths, Side, Words};
use registers::{STATE, State};

// What was done, as it stands in an answer.
const PLAIN: u32 = 256;

const STARTED: u32 = 512;

const APPENDED: u32 = 768;

// A side and a channel, as they stand in an answer.
fn pack_place(s: Side, c: u8) -> u32
    ensures { (result ≡ 65536 * number_of_side s + 16777216 * c) × (result ≤ 0xFF02_0000) }
{
    let channel = 16777216 * (c as u32);
    match s {
        Side::Transmit => 65536 + channel,
        Side::Receive => 131072 + channel,
    }
}

// An answer in one number.
fn pack(a: Answer) -> u32
    ensures { result ≡ answer_word a }
{
    match a {
        // Two matches: first whether it is accepted, then what it did.
        Answer::Accepted(e) => match e {
            Effect::Plain => PLAIN,
            Effect::Started(s, c) => STARTED + pack_place(s, c),
            Effect::Appended(s, c) => APPENDED + pack_place(s, c),
        },
        Answer::Refused(n) => n as u32,
    }
}

// A fresh book and zero registers, as when the machine starts.
pub fn gresomund_fresh(state: &mut State, used: &mut Words, lens: &mut Lengths)
    ensures { (state.new ≡ fresh_state) × (used.new ≡ fresh_used) × (lens.new ≡ fresh_lens) }
{
    *state = [0; STATE];
    *used = [0; DESC_WORDS];
    *lens = [0; DESC_WORDS];
}

// A write of Linux, on any state.
pub fn gresomund_guest_write(
    address: u32,
    value: u32,
    mem: &mut [u8],
    kinds: &[u8],
    state: &mut State,
    used: &mut Words,
    lens: &mut Lengths,
) -> u32
    ensures { Crosses
        (guest_write address value
        (world_at mem.old kinds.now state.old used.old lens.old)) result
        mem.new kinds.now state.new used.new lens.new }
{
    pack(guest_write(address, value, mem, kinds, state, used, lens))
}

// A write of Linux, on a state that is known to be fit and sound.
pub fn gresomund_guest_write_sound(
    address: u32,
    value: u32,
    mem: &mut [u8],
    kinds: &[u8],
    state: &mut State,
    used: &mut Words,
    lens: &mut Lengths,
) -> u32
    requires { (unfit (world_at mem.old kinds.now state.old used.old lens.old) ≡ false)
        × (sound_world (world_at mem.old kinds.now state.old used.old lens.old) ≡ true) }
    ensures { Crosses
        (guest_write address value
        (world_at mem.old kinds.now state.old used.old lens.old)) result
        mem.new kinds.now state.new used.new lens.new }
{
    pack(guest_write_sound(address, value, mem, kinds, state, used, lens))
}

// The change of a block's kind, on any state.
pub fn gresomund_kind_change(
    block: u32,
    kind: u32,
    mem: &[u8],
    kinds: &mut [u8],
    state: &mut State,
    used: &mut Words,
    lens: &mut Lengths,
) -> u32
    ensures { Crosses
        (kind_change block kind
        (world_at mem.now kinds.old state.old used.old lens.old)) result
        mem.now kinds.new state.new used.new lens.new }
{
    pack(kind_change(block, kind, mem, kinds, state, used, lens))
}

// The change of a block's kind, on a state that is known to be fit and sound.
pub fn gresomund_kind_change_sound(
    block: u32,
    kind: u32,
    mem: &[u8],
    kinds: &mut [u8],
    state: &mut State,
    used: &mut Words,
    lens: &mut Lengths,
) -> u32
    requires { (unfit (world_at mem.now kinds.old state.old used.old lens.old) ≡ false)
        × (sound_world (world_at mem.now kinds.old state.old used.old lens.old) ≡ true) }
    ensures { Crosses
        (kind_change block kind
        (world_at mem.now kinds.old state.old used.old lens.old)) result
        mem.now kinds.new state.new used.new lens.new }
{
    pack(kind_change_sound(block, kind, mem, kinds, state, used, lens))
}
