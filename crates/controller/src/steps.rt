// The steps of the whole record: an engine's, a teardown's and the reset. The record is not undefined here: `step_by` asks.
// An engine of a channel that there is not cannot move.

ghost use Rattle.std.specs.Prelude.{◌≡◌, List, ℕ, ◌<◌};
ghost use Rattle.layout.specs.Layout.{queues, queue_of};
ghost use Rattle.controller.specs.Controller.{outcome, on_channel, transmit_step, receive_step, tear_mark};
ghost use Rattle.controller.specs.Controller.{tear_clear, tear_report, tear_step, reset_step};

use crate::record::{are_all_quiet, give, give_undefined, idle_channels};
use crate::{Controller, Stepped};
use layout::{CHANNELS, Memory, Side, TEARDOWN_DONE, clear_bit, queue_of, slot_at};
use marks::mark_td;
use phases::receive::step_receive;
use phases::transmit::step_transmit;
use registers::{BIT_AT, CP_AT, HDP_AT, MARKS_AT, RESET_AT, TEARING_AT, is_resetting, is_tearing};

// One step of a channel's transmit engine. The two engines' steps stay apart: held back or not, phase and total are each its own.
pub fn transmit_step(mut c: Controller, m: &mut Memory, ch: usize) -> Stepped
    ensures { outcome result m.new ≡ on_channel ch c m.old (transmit_step ch c m.old) }
{
    if CHANNELS <= ch {
        return give(c, Ok(()));
    }
    let q = queue_of(Side::Transmit, ch);
    let Some(s) = step_transmit(m, c.channels[ch].tx, c.hdp(q), c.cp(q), c.is_held(q)) else {
        return give_undefined(c);
    };
    c.channels[ch].tx = s.state;
    c.sent = c.sent.saturating_add(u64::from(s.octets));
    c.set_registers(q, s.hdp, s.cp);
    Stepped {
        ctl: c,
        burst: s.burst,
        answer: Ok(()),
    }
}

// One step of a channel's receive engine.
pub fn receive_step(mut c: Controller, m: &mut Memory, ch: usize) -> Stepped
    ensures { outcome result m.new ≡ on_channel ch c m.old (receive_step ch c m.old) }
{
    if CHANNELS <= ch {
        return give(c, Ok(()));
    }
    let q = queue_of(Side::Receive, ch);
    let Some(s) = step_receive(m, c.channels[ch].rx, c.hdp(q), c.cp(q)) else {
        return give_undefined(c);
    };
    c.channels[ch].rx = s.state;
    c.received = c.received.saturating_add(u64::from(s.octets));
    c.set_registers(q, s.hdp, s.cp);
    Stepped {
        ctl: c,
        burst: s.burst,
        answer: Ok(()),
    }
}

// Teardown (1): TD at HDP, if there is one.
fn tear_mark(mut c: Controller, m: &mut Memory, q: usize) -> Stepped
    requires { q < queues }
    ensures { outcome result m.new ≡ tear_mark q c m.old }
{
    let p = c.hdp(q);
    if p != 0 {
        let Some(d) = slot_at(p) else {
            return give_undefined(c);
        };
        mark_td(m, d);
    }
    c.stages[q] = 2;
    give(c, Ok(()))
}

impl Controller {
    // Teardown (2): HDP 0, engine idle.
    fn tear_clear(&mut self, q: usize)
        requires { q < queues }
        ensures { self.new ≡ tear_clear q self.old }
    {
        self.set_idle(q);
        self.state[HDP_AT + q] = 0;
        self.stages[q] = 3;
    }

    // Teardown (3): the code in CP, no longer pending.
    fn tear_report(&mut self, q: usize)
        requires { q < queues }
        ensures { self.new ≡ tear_report q self.old }
    {
        self.state[CP_AT + q] = TEARDOWN_DONE;
        self.state[TEARING_AT] = clear_bit(self.state[TEARING_AT], q as u32);
        self.stages[q] = 1;
    }
}

// One step of a queue's teardown.
fn tear_queue(mut c: Controller, m: &mut Memory, q: usize) -> Stepped
    requires { q < queues }
    ensures { outcome result m.new ≡ tear_step q c m.old }
{
    if !is_tearing(&c.state, q) || !c.is_quiet(q) {
        return give(c, Ok(()));
    }
    match c.stage(q) {
        1 => return tear_mark(c, m, q),
        2 => c.tear_clear(q),
        _ => c.tear_report(q),
    }
    give(c, Ok(()))
}

// One step of the teardown of a side on a channel.
pub fn tear_step(c: Controller, m: &mut Memory, side: Side, ch: usize) -> Stepped
    ensures { outcome result m.new ≡ on_channel ch c m.old (tear_step (queue_of side ch) c m.old) }
{
    if CHANNELS <= ch {
        return give(c, Ok(()));
    }
    tear_queue(c, m, queue_of(side, ch))
}

// The reset, which waits until every engine is quiet.
pub fn reset_step(mut c: Controller) -> Stepped
    ensures { (m : List ℕ) → outcome result m ≡ reset_step c m }
{
    if !is_resetting(&c.state) || !are_all_quiet(&c.channels) {
        return give(c, Ok(()));
    }
    c.state[MARKS_AT] = 0;
    c.state[RESET_AT] = 0;
    c.state[BIT_AT] = 0;
    let idle = idle_channels();
    c.channels = idle;
    give(c, Ok(()))
}
