// The functions of rig as symbols for C: an archive that tests/probe alone links.
// Promises: each function says what rig's function of the same name says, and calls it: a crate is a library or a static library.
// Document 01, "The controller's steps".

#![tactic(auto)]

ghost use Rattle.std.specs.Prelude.{◌≡◌};
ghost use Rattle.phases.specs.Engines.{engine_at};
ghost use Rattle.controller.specs.Controller.{step_of, frame_of, unguarded_write};
ghost use Rattle.rig.specs.Record.{parts, controller_in};
ghost use Rattle.rig.specs.Lent.{lent, lent_by, came, came_by};

use registers::State;
use rig::{ReceivingRows, Rest, SendingRows, Stages};

// One step, on any record: of the reset (0), or on that channel of an engine (1, 2) or its teardown (3, 4).
#[unsafe(no_mangle)]
pub extern "C" fn gresomund_step(
    engine: u8,
    channel: u8,
    mem: &mut [u8],
    state: &mut State,
    stages: &mut Stages,
    tx: &mut SendingRows,
    rx: &mut ReceivingRows,
    rest: &mut Rest,
    burst: &mut [u32; 3],
) -> u32
    ensures { lent result (parts state.new stages.new tx.new rx.new rest.new)
        burst.new mem.new
        ≡ lent_by (parts state.old stages.old tx.old rx.old rest.old)
        (step_of (engine_at engine channel)
        (controller_in (parts state.old stages.old tx.old rx.old rest.old))
        mem.old) }
{
    rig::gresomund_step(engine, channel, mem, state, stages, tx, rx, rest, burst)
}

// A write that no guard has judged, on any record.
#[unsafe(no_mangle)]
pub extern "C" fn gresomund_unguarded(
    address: u32,
    value: u32,
    mem: &mut [u8],
    state: &mut State,
    stages: &mut Stages,
    tx: &mut SendingRows,
    rx: &mut ReceivingRows,
    rest: &mut Rest,
    burst: &mut [u32; 3],
) -> u32
    ensures { lent result (parts state.new stages.new tx.new rx.new rest.new)
        burst.new mem.new
        ≡ lent_by (parts state.old stages.old tx.old rx.old rest.old)
        (unguarded_write address value
        (controller_in (parts state.old stages.old tx.old rx.old rest.old))
        mem.old) }
{
    rig::gresomund_unguarded(address, value, mem, state, stages, tx, rx, rest, burst)
}

// A frame of n bytes comes, on any record.
#[unsafe(no_mangle)]
pub extern "C" fn gresomund_frame(
    n: u32,
    state: &mut State,
    stages: &mut Stages,
    tx: &mut SendingRows,
    rx: &mut ReceivingRows,
    rest: &mut Rest,
) -> u32
    ensures { came result (parts state.new stages.new tx.new rx.new rest.new)
        ≡ came_by (parts state.old stages.old tx.old rx.old rest.old)
        (frame_of n (controller_in
        (parts state.old stages.old tx.old rx.old rest.old))) }
{
    rig::gresomund_frame(n, state, stages, tx, rx, rest)
}
