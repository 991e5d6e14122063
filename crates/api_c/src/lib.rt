// The functions of api as symbols for C: the archive target/lib/libgresomund.a, whose header is include/gresomund.h.
// Promises: each function says what api's function of the same name says, and calls it: a crate is a library or a static library.
// Document 01, "Answers by number".

#![tactic(auto)]

ghost use Rattle.std.specs.Prelude.{◌≡◌, true, false};
ghost use Rattle.book.specs.World.{unfit, sound_world, fresh_state, fresh_used, fresh_lens};
ghost use Rattle.guard.specs.Answers.{world_at};
ghost use Rattle.guard.specs.Guard.{guest_write};
ghost use Rattle.kinds.specs.Kinds.{kind_change};
ghost use Rattle.api.specs.Crossing.{Crosses};

use layout::{Lengths, Words};
use registers::State;

// A fresh book and zero registers, as when the machine starts.
#[unsafe(no_mangle)]
pub extern "C" fn gresomund_fresh(state: &mut State, used: &mut Words, lens: &mut Lengths)
    ensures { (state.new ≡ fresh_state) × (used.new ≡ fresh_used) × (lens.new ≡ fresh_lens) }
{
    api::gresomund_fresh(state, used, lens);
}

// A write of Linux, on any state.
#[unsafe(no_mangle)]
pub extern "C" fn gresomund_guest_write(
    address: u32,
    value: u32,
    mem: &mut [u8],
    kinds: &[u8],
    state: &mut State,
    used: &mut Words,
    lens: &mut Lengths,
) -> u32
    ensures { Crosses
        (guest_write address value
        (world_at mem.old kinds.now state.old used.old lens.old)) result
        mem.new kinds.now state.new used.new lens.new }
{
    api::gresomund_guest_write(address, value, mem, kinds, state, used, lens)
}

// A write of Linux, on a state that is known to be fit and sound.
#[unsafe(no_mangle)]
pub extern "C" fn gresomund_guest_write_sound(
    address: u32,
    value: u32,
    mem: &mut [u8],
    kinds: &[u8],
    state: &mut State,
    used: &mut Words,
    lens: &mut Lengths,
) -> u32
    requires { (unfit (world_at mem.old kinds.now state.old used.old lens.old) ≡ false)
        × (sound_world (world_at mem.old kinds.now state.old used.old lens.old) ≡ true) }
    ensures { Crosses
        (guest_write address value
        (world_at mem.old kinds.now state.old used.old lens.old)) result
        mem.new kinds.now state.new used.new lens.new }
{
    api::gresomund_guest_write_sound(address, value, mem, kinds, state, used, lens)
}

// The change of a block's kind, on any state.
#[unsafe(no_mangle)]
pub extern "C" fn gresomund_kind_change(
    block: u32,
    kind: u32,
    mem: &[u8],
    kinds: &mut [u8],
    state: &mut State,
    used: &mut Words,
    lens: &mut Lengths,
) -> u32
    ensures { Crosses
        (kind_change block kind
        (world_at mem.now kinds.old state.old used.old lens.old)) result
        mem.now kinds.new state.new used.new lens.new }
{
    api::gresomund_kind_change(block, kind, mem, kinds, state, used, lens)
}

// The change of a block's kind, on a state that is known to be fit and sound.
#[unsafe(no_mangle)]
pub extern "C" fn gresomund_kind_change_sound(
    block: u32,
    kind: u32,
    mem: &[u8],
    kinds: &mut [u8],
    state: &mut State,
    used: &mut Words,
    lens: &mut Lengths,
) -> u32
    requires { (unfit (world_at mem.now kinds.old state.old used.old lens.old) ≡ false)
        × (sound_world (world_at mem.now kinds.old state.old used.old lens.old) ≡ true) }
    ensures { Crosses
        (kind_change block kind
        (world_at mem.now kinds.old state.old used.old lens.old)) result
        mem.now kinds.new state.new used.new lens.new }
{
    api::gresomund_kind_change_sound(block, kind, mem, kinds, state, used, lens)
}
