// The controller for callers in C, a test rig: steps, frames and unguarded writes over numbers, slices and arrays alone.
// Promises: each call's answer, and every array it leaves, are those of the controller's definitions on the record that the arrays hold
// (`lent_by`, `came_by`, specs/Lent.antt; which word holds what: specs/Record.antt). It is linked by tests/probe alone.
// Document 01, "The controller's steps".

#![tactic(auto)]

ghost use Rattle.std.specs.Prelude.{◌≡◌};
ghost use Rattle.layout.specs.Layout.{channels};
ghost use Rattle.layout.specs.Refusals.{fault};
ghost use Rattle.phases.specs.Engines.{engine_at};
ghost use Rattle.controller.specs.Controller.{step_of, frame_of, unguarded_write};
ghost use Rattle.rig.specs.Record.{sending_in, receiving_in, channels_in, sending_words, receiving_words, burst_words};
ghost use Rattle.rig.specs.Record.{parts, controller_in, tx_to, rx_to, saved_in};
ghost use Rattle.rig.specs.Lent.{lent, lent_by, came, came_by};

use controller::{Channel, Controller, Stepped, unguarded_write};
use host::{hosted, hosted_frame};
use layout::{CHANNELS, QUEUES, Refusal};
use phases::{
    Burst, Closing, Filled, Finished, Frame, Leaving, Packet, Reading, Receiving, Sending, Stored,
    Storing, engine_at,
};
use registers::State;
use std::array;

// A record is lent, as C has it, as its own table and stages, a row of words for each engine, and the rest: sent, received, undefined.
pub type Stages = [u8; QUEUES];

pub type SendingRow = [u32; 8];

pub type ReceivingRow = [u32; 9];

pub type SendingRows = [SendingRow; CHANNELS];

pub type ReceivingRows = [ReceivingRow; CHANNELS];

pub type Rest = [u64; 3];

// The number of an answer, 0 where nothing is refused.
fn number(answer: Result<(), Refusal>) -> u32
    ensures { result ≡ fault answer }
{
    match answer {
        Ok(()) => 0,
        Err(refusal) => refusal as u32,
    }
}

// The transmit phase of a row.
#[tactic(auto, unfolding(crate::specs::Record::sending_by))]
fn read_sending(w: SendingRow) -> Sending
    ensures { result ≡ sending_in w }
{
    let [tag, sop, word3, sum, at, left, next, eop] = w;
    let eop = eop == 1;
    match tag {
        0 => Sending::Idle,
        1 => Sending::New,
        2 => Sending::Within(Packet { sop, word3, sum }),
        3 => Sending::Moving(Reading {
            sop,
            word3,
            sum,
            at,
            left,
            next,
            eop,
        }),
        4 => Sending::Ended(Finished {
            sop,
            word3,
            sum,
            next,
            eop,
        }),
        5 => Sending::Marking(Closing { sop, word3, next }),
        6 => Sending::Owning(Closing { sop, word3, next }),
        _ => Sending::Done(Leaving { next }),
    }
}

// The receive phase of a row.
#[tactic(auto, unfolding(crate::specs::Record::receiving_by))]
fn read_receiving(w: ReceivingRow) -> Receiving
    ensures { result ≡ receiving_in w }
{
    let [tag, first, stored, left, at, room, here, next, overrun] = w;
    let overrun = overrun == 1;
    match tag {
        0 => Receiving::Idle,
        1 => Receiving::Wait,
        2 => Receiving::Fetch(Frame {
            first,
            stored,
            left,
        }),
        3 => Receiving::Moving(Storing {
            first,
            stored,
            left,
            at,
            room,
            here,
        }),
        4 => Receiving::Ended(Filled {
            first,
            stored,
            left,
            room,
            here,
        }),
        5 => Receiving::Last(Stored {
            first,
            stored,
            here,
            next,
            overrun,
        }),
        6 => Receiving::First(Stored {
            first,
            stored,
            here,
            next,
            overrun,
        }),
        _ => Receiving::Done(Leaving { next }),
    }
}

// The channels of all rows.
fn read_channels(tx: &SendingRows, rx: &ReceivingRows) -> [Channel; CHANNELS]
    ensures { result ≡ channels_in tx.now rx.now }
{
    array::from_fn(|ch| Channel {
        tx: read_sending(tx[ch]),
        rx: read_receiving(rx[ch]),
    })
}

// The record of all parts. They stay five arrays, as C lends them.
#[tactic(auto, unfolding(crate::specs::Record::controller_in))]
fn read_record(
    state: &State,
    stages: &Stages,
    tx: &SendingRows,
    rx: &ReceivingRows,
    rest: &Rest,
) -> Controller
    ensures { result ≡ controller_in
        (parts state.now stages.now tx.now rx.now rest.now) }
{
    Controller {
        state: *state,
        stages: *stages,
        channels: read_channels(tx, rx),
        undefined: rest[2] == 1,
        sent: rest[0],
        received: rest[1],
    }
}

// A transmit phase in a row: its tag, then its numbers, 0 for those that it does not use.
fn sending_words(s: Sending) -> SendingRow
    ensures { result ≡ sending_words s }
{
    match s {
        Sending::Idle => [0; 8],
        Sending::New => [1, 0, 0, 0, 0, 0, 0, 0],
        Sending::Within(p) => [2, p.sop, p.word3, p.sum, 0, 0, 0, 0],
        Sending::Moving(r) => [
            3,
            r.sop,
            r.word3,
            r.sum,
            r.at,
            r.left,
            r.next,
            u32::from(r.eop),
        ],
        Sending::Ended(e) => [4, e.sop, e.word3, e.sum, 0, 0, e.next, u32::from(e.eop)],
        Sending::Marking(e) => [5, e.sop, e.word3, 0, 0, 0, e.next, 0],
        Sending::Owning(e) => [6, e.sop, e.word3, 0, 0, 0, e.next, 0],
        Sending::Done(e) => [7, 0, 0, 0, 0, 0, e.next, 0],
    }
}

// A receive phase, likewise.
fn receiving_words(s: Receiving) -> ReceivingRow
    ensures { result ≡ receiving_words s }
{
    match s {
        Receiving::Idle => [0; 9],
        Receiving::Wait => [1, 0, 0, 0, 0, 0, 0, 0, 0],
        Receiving::Fetch(f) => [2, f.first, f.stored, f.left, 0, 0, 0, 0, 0],
        Receiving::Moving(m) => [3, m.first, m.stored, m.left, m.at, m.room, m.here, 0, 0],
        Receiving::Ended(e) => [4, e.first, e.stored, e.left, 0, e.room, e.here, 0, 0],
        Receiving::Last(l) => [
            5,
            l.first,
            l.stored,
            0,
            0,
            0,
            l.here,
            l.next,
            u32::from(l.overrun),
        ],
        Receiving::First(l) => [
            6,
            l.first,
            l.stored,
            0,
            0,
            0,
            0,
            l.next,
            u32::from(l.overrun),
        ],
        Receiving::Done(e) => [7, 0, 0, 0, 0, 0, 0, e.next, 0],
    }
}

// A burst in words.
fn burst_words(b: Burst) -> [u32; 3]
    ensures { result ≡ burst_words b }
{
    match b {
        Burst::Quiet => [0; 3],
        Burst::Read(a, n) => [1, a, n],
        Burst::Store(a, n) => [2, a, n],
    }
}

// The channels into their rows.
fn save_channels(tx: &mut SendingRows, rx: &mut ReceivingRows, all: &[Channel; CHANNELS])
    ensures { (tx.new ≡ tx_to channels all.now tx.old) × (rx.new ≡ rx_to channels all.now rx.old) }
{
    for (ch, x) in all.iter().enumerate() {
        tx[ch] = sending_words(x.tx);
        rx[ch] = receiving_words(x.rx);
    }
}

// The record into its parts.
#[tactic(auto, unfolding(crate::specs::Record::saved_in))]
fn save_record(
    state: &mut State,
    stages: &mut Stages,
    tx: &mut SendingRows,
    rx: &mut ReceivingRows,
    rest: &mut Rest,
    k: Controller,
)
    ensures { parts state.new stages.new tx.new rx.new rest.new
        ≡ saved_in (parts state.old stages.old tx.old rx.old rest.old) k }
{
    save_channels(tx, rx, &k.channels);
    *state = k.state;
    *stages = k.stages;
    *rest = [k.sent, k.received, u64::from(k.undefined)];
}

// What a step left, into the parts and the burst's words, and its answer. Compiled into each caller, so that no record is written out for
// a call.
#[inline(always)]
fn save_stepped(
    state: &mut State,
    stages: &mut Stages,
    tx: &mut SendingRows,
    rx: &mut ReceivingRows,
    rest: &mut Rest,
    burst: &mut [u32; 3],
    s: Stepped,
) -> u32
    ensures { (result ≡ fault s.answer)
        × (parts state.new stages.new tx.new rx.new rest.new
        ≡ saved_in (parts state.old stages.old tx.old rx.old rest.old) s.ctl)
        × (burst.new ≡ burst_words s.burst) }
{
    save_record(state, stages, tx, rx, rest, s.ctl);
    *burst = burst_words(s.burst);
    number(s.answer)
}

// One step, on any record: of the reset (0), or on that channel of an engine (1, 2) or its teardown (3, 4).
pub fn gresomund_step(
    engine: u8,
    channel: u8,
    mem: &mut [u8],
    state: &mut State,
    stages: &mut Stages,
    tx: &mut SendingRows,
    rx: &mut ReceivingRows,
    rest: &mut Rest,
    burst: &mut [u32; 3],
) -> u32
    ensures { lent result (parts state.new stages.new tx.new rx.new rest.new)
        burst.new mem.new
        ≡ lent_by (parts state.old stages.old tx.old rx.old rest.old)
        (step_of (engine_at engine channel)
        (controller_in (parts state.old stages.old tx.old rx.old rest.old))
        mem.old) }
{
    let k = read_record(state, stages, tx, rx, rest);
    let s = hosted(k, mem, engine_at(engine, channel));
    save_stepped(state, stages, tx, rx, rest, burst, s)
}

// A write that no guard has judged, on any record.
pub fn gresomund_unguarded(
    address: u32,
    value: u32,
    mem: &mut [u8],
    state: &mut State,
    stages: &mut Stages,
    tx: &mut SendingRows,
    rx: &mut ReceivingRows,
    rest: &mut Rest,
    burst: &mut [u32; 3],
) -> u32
    ensures { lent result (parts state.new stages.new tx.new rx.new rest.new)
        burst.new mem.new
        ≡ lent_by (parts state.old stages.old tx.old rx.old rest.old)
        (unguarded_write address value
        (controller_in (parts state.old stages.old tx.old rx.old rest.old))
        mem.old) }
{
    let k = read_record(state, stages, tx, rx, rest);
    let s = unguarded_write(k, mem, address, value);
    save_stepped(state, stages, tx, rx, rest, burst, s)
}

// A frame of n bytes comes, on any record.
pub fn gresomund_frame(
    n: u32,
    state: &mut State,
    stages: &mut Stages,
    tx: &mut SendingRows,
    rx: &mut ReceivingRows,
    rest: &mut Rest,
) -> u32
    ensures { came result (parts state.new stages.new tx.new rx.new rest.new)
        ≡ came_by (parts state.old stages.old tx.old rx.old rest.old)
        (frame_of n (controller_in
        (parts state.old stages.old tx.old rx.old rest.old))) }
{
    let k = read_record(state, stages, tx, rx, rest);
    let a = hosted_frame(k, n);
    save_record(state, stages, tx, rx, rest, a.ctl);
    number(a.answer)
}
