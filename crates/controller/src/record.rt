// Named changes of the controller record, and what its flags and phases say.
// A queue has the number that `queue_of` gives its side and channel. Queues and channels stay indices: they come as numbers, from C and
// from a class, and index arrays.

ghost use Rattle.std.specs.Prelude.{◌≡◌, List, ℕ, ◌+◌, ◌<◌, min};
ghost use Rattle.layout.specs.Layout.{channels, queues, queue_of};
ghost use Rattle.layout.specs.Refusals.{fault};
ghost use Rattle.registers.specs.Table.{hdp_of, cp_of};
ghost use Rattle.controller.specs.Controller.{idle_channels, stage_of, set_regs};
ghost use Rattle.controller.specs.Controller.{held_back, quiet_engine, quiet_channel, all_quiet, set_idle, set_begun, outcome};
ghost use Rattle.controller.specs.Controller.{answer, undefine};

use crate::{Channel, Controller, Stepped};
use layout::{CHANNELS, Refusal, Side, side_of};
use phases::receive::is_quiet_rx;
use phases::transmit::is_quiet_tx;
use phases::{Burst, Receiving, Sending};
use registers::{CP_AT, HDP_AT, is_resetting, is_tearing};

impl Channel {
    // Whether both engines are quiet.
    fn is_quiet(&self) -> bool
        ensures { result ≡ quiet_channel self.now }
    {
        is_quiet_tx(self.tx) && is_quiet_rx(self.rx)
    }
}

// Every engine idle.
pub fn idle_channels() -> [Channel; CHANNELS]
    ensures { result ≡ idle_channels }
{
    let idle = Channel {
        tx: Sending::Idle,
        rx: Receiving::Idle,
    };
    [idle; CHANNELS]
}

// Whether every engine is quiet.
pub fn are_all_quiet(all: &[Channel; CHANNELS]) -> bool
    ensures { result ≡ all_quiet all.now }
{
    all.iter().all(|x| x.is_quiet())
}

impl Controller {
    // HDP of queue q.
    pub(crate) fn hdp(&self, q: usize) -> u32
        requires { q < queues }
        ensures { result ≡ hdp_of self.now.state q }
    {
        self.state[HDP_AT + q]
    }

    // CP of queue q.
    pub(crate) fn cp(&self, q: usize) -> u32
        requires { q < queues }
        ensures { result ≡ cp_of self.now.state q }
    {
        self.state[CP_AT + q]
    }

    // Which teardown step of queue q comes next.
    pub(crate) fn stage(&self, q: usize) -> u8
        requires { q < queues }
        ensures { result ≡ stage_of self.now q }
    {
        self.stages[q]
    }

    // Whether reset or the teardown of queue q is pending.
    pub(crate) fn is_held(&self, q: usize) -> bool
        requires { q < queues }
        ensures { result ≡ held_back self.now q }
    {
        is_resetting(&self.state) || is_tearing(&self.state, q)
    }

    // Whether the engine of queue q is idle, waiting or, transmit only, at 1 of a new packet.
    pub(crate) fn is_quiet(&self, q: usize) -> bool
        requires { q < queues }
        ensures { result ≡ quiet_engine self.now q }
    {
        let x = self.channels[q / 2];
        match side_of(q) {
            Side::Transmit => is_quiet_tx(x.tx),
            Side::Receive => is_quiet_rx(x.rx),
        }
    }

    // The engine of queue q idle.
    pub(crate) fn set_idle(&mut self, q: usize)
        requires { q < queues }
        ensures { self.new ≡ set_idle q self.old }
    {
        match side_of(q) {
            Side::Transmit => self.channels[q / 2].tx = Sending::Idle,
            Side::Receive => self.channels[q / 2].rx = Receiving::Idle,
        }
    }

    // A start puts the transmit engine at step 1, or the receive engine to waiting. Apart from `set_idle`: other phases, another step.
    pub(crate) fn begin(&mut self, q: usize)
        requires { q < queues }
        ensures { self.new ≡ set_begun q self.old }
    {
        match side_of(q) {
            Side::Transmit => self.channels[q / 2].tx = Sending::New,
            Side::Receive => self.channels[q / 2].rx = Receiving::Wait,
        }
    }

    // HDP and CP of queue q.
    pub(crate) fn set_registers(&mut self, q: usize, hdp: u32, cp: u32)
        requires { q < queues }
        ensures { self.new ≡ set_regs q hdp cp self.old }
    {
        self.state[CP_AT + q] = cp;
        self.state[HDP_AT + q] = hdp;
    }
}

// The record with an answer, and no burst.
pub fn give(c: Controller, told: Result<(), Refusal>) -> Stepped
    ensures { (m : List ℕ) → outcome result m ≡ answer (fault told) c m }
{
    Stepped {
        ctl: c,
        burst: Burst::Quiet,
        answer: told,
    }
}

// The record marked undefined, which it stays.
pub fn give_undefined(mut c: Controller) -> Stepped
    ensures { (m : List ℕ) → outcome result m ≡ undefine c m }
{
    c.undefined = true;
    give(c, Err(Refusal::Undefined))
}
