// The host's side of the controller: it keeps one controller record and lends it to each step, which changes it there.
// Promises: the record that was lent, descriptor memory, the burst and the answer are left exactly as the step by value leaves them.
// Document 01, "The host loop keeps one controller record and lends it to each step, which changes it there".

#![tactic(auto)]

ghost use Rattle.std.specs.Prelude.{◌≡◌};
ghost use Rattle.layout.specs.Refusals.{fault};
ghost use Rattle.controller.specs.Controller.{outcome, step_of, arrival, frame_of};
ghost use Rattle.host.specs.Host.{told_of, tells};

use controller::{Arrived, Controller, Stepped, step_by, take_frame_by};
use layout::Refusal;
use phases::{Burst, Engine};

// What a step tells beside the record that it changed: the burst made, and the answer.
#[derive(Drop)]
pub struct Told {
    pub burst: Burst,
    pub answer: Result<(), Refusal>,
}

// One step on a record that is lent, and changed there: the one entry for every engine.
fn step_engine(c: &mut Controller, mem: &mut [u8], e: Engine) -> Told
    ensures { (tells result ≡ told_of (step_of e c.old mem.old))
        × (c.new ≡ (step_of e c.old mem.old).ctl)
        × (mem.new ≡ (step_of e c.old mem.old).mem) }
{
    let Stepped { ctl, burst, answer } = step_by(*c, mem, e);
    *c = ctl;
    Told { burst, answer }
}

// A frame of n bytes comes to a record that is lent, and changed there.
fn take_frame(c: &mut Controller, n: u32) -> Result<(), Refusal>
    ensures { (fault result ≡ (frame_of n c.old).number) × (c.new ≡ (frame_of n c.old).ctl) }
{
    let Arrived { ctl, answer } = take_frame_by(*c, n);
    *c = ctl;
    answer
}

// The host's turn, for whoever keeps the record by value: it is lent to the step, and taken back.
pub fn hosted(mut c: Controller, mem: &mut [u8], e: Engine) -> Stepped
    ensures { outcome result mem.new ≡ step_of e c mem.old }
{
    let Told { burst, answer } = step_engine(&mut c, mem, e);
    Stepped {
        ctl: c,
        burst,
        answer,
    }
}

// The same for a frame.
pub fn hosted_frame(mut c: Controller, n: u32) -> Arrived
    ensures { arrival result ≡ frame_of n c }
{
    let answer = take_frame(&mut c, n);
    Arrived { ctl: c, answer }
}
