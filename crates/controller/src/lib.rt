// The controller: its record, and each way in which it changes, one numbered step of document 01 at a time.
// Promises: a step, a frame and an unguarded write each leave exactly the record, the descriptor memory, the burst and the answer
// that 01, "The controller's steps", gives; a record unfit for its step is answered 22 and keeps its memory.
// What an engine does in each of its phases is the crate `phases`; here are the channels, the queues by number, teardown and reset.

#![tactic(auto)]

mod record; // record.rt: the record's methods
mod steps; // steps.rt: the steps of the whole record
mod writes; // writes.rt: frames, and writes that no guard has judged

ghost use Rattle.std.specs.Prelude.{◌≡◌};
ghost use Rattle.controller.specs.Controller.{outcome, step_of, arrival, frame_of, unguarded_write, fresh_controller};

use layout::{CHANNELS, QUEUES, Refusal, Side};
use phases::{Burst, Engine, Receiving, Sending};
use record::{give, idle_channels};
use registers::{STATE, State};
use steps::{receive_step, reset_step, tear_step, transmit_step};

// The two engines of a channel, each in its phase.
#[derive(Clone, Copy)]
pub struct Channel {
    pub tx: Sending,
    pub rx: Receiving,
}

// The controller record. `state` holds registers and flags, as the guard's table does, and no heads; `stages` says for each queue which
// teardown step comes next (1, 2, else 3), a byte that C lends and has back as it was, in a table of its own.
#[derive(Clone, Copy)]
pub struct Controller {
    pub state: State,
    pub stages: [u8; QUEUES],
    pub channels: [Channel; CHANNELS],
    pub undefined: bool,
    pub sent: u64,
    pub received: u64,
}

// The controller after a step, with the burst made and the answer, of which the refusals are 1, 3, 4 and 22.
#[derive(Drop)]
pub struct Stepped {
    pub ctl: Controller,
    pub burst: Burst,
    pub answer: Result<(), Refusal>,
}

// The controller after a frame came, with the answer, of which the refusals are 22, 23 and 24.
#[derive(Drop)]
pub struct Arrived {
    pub ctl: Controller,
    pub answer: Result<(), Refusal>,
}

// One step, of whichever engine: the entry to every step. Memory of another size than 8,192 bytes is answered 1.
pub fn step_by(c: Controller, m: &mut [u8], e: Engine) -> Stepped
    ensures { outcome result m.new ≡ step_of e c m.old }
{
    let Some(m) = m.as_mut_array() else {
        return give(c, Err(Refusal::Unfit));
    };
    if c.undefined {
        return give(c, Err(Refusal::Undefined));
    }
    match e {
        Engine::Reset => reset_step(c),
        Engine::Transmit(ch) => transmit_step(c, m, ch as usize),
        Engine::Receive(ch) => receive_step(c, m, ch as usize),
        Engine::TearTransmit(ch) => tear_step(c, m, Side::Transmit, ch as usize),
        Engine::TearReceive(ch) => tear_step(c, m, Side::Receive, ch as usize),
    }
}

// A frame of n bytes comes, on channel 0.
pub fn take_frame_by(mut c: Controller, n: u32) -> Arrived
    ensures { arrival result ≡ frame_of n c }
{
    let answer = c.take_frame(n);
    Arrived { ctl: c, answer }
}

// A guest write that no guard has judged: the controller's own rules decide. An accepted write of the guard's goes through here too.
pub fn unguarded_write(mut c: Controller, m: &mut [u8], a: u32, v: u32) -> Stepped
    ensures { outcome result m.new ≡ unguarded_write a v c m.old }
{
    let answer = c.write(m, a, v);
    give(c, answer)
}

// The controller of a fresh machine.
#[tactic(auto, unfolding(crate::specs::Controller::fresh_controller))]
pub fn fresh() -> Controller
    ensures { result ≡ fresh_controller }
{
    Controller {
        state: [0; STATE],
        stages: [1; QUEUES],
        channels: idle_channels(),
        undefined: false,
        sent: 0,
        received: 0,
    }
}
