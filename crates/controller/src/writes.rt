// What comes from outside: a frame, and a write that no guard has judged, by the rules 4 to 10 over the controller's own flags
// and registers.

ghost use Rattle.std.specs.Prelude.{◌≡◌, List, ℕ, ◌-◌};
ghost use Rattle.layout.specs.Choice.{pick};
ghost use Rattle.layout.specs.Class.{hdp_class};
ghost use Rattle.layout.specs.Refusals.{fault};
ghost use Rattle.controller.specs.Controller.{answer, framed, frame_of, set_begun, starts_engine, register_write, unguarded_write};

use crate::Controller;
use layout::{DESC_FIRST, HDP, LENGTH_MAX, Refusal, Side, class_at, is_descriptor, queue_of};
use phases::receive::is_waiting;
use phases::{Frame, Receiving};
use registers::{HDP_LAST, is_awaiting, register_fault, write_register};
use words::put_at;

impl Controller {
    // A frame of n bytes comes, on channel 0.
    pub(crate) fn take_frame(&mut self, n: u32) -> Result<(), Refusal>
        ensures { framed (fault result) self.new ≡ frame_of n self.old }
    {
        if self.undefined {
            return Err(Refusal::Undefined);
        }
        if n < 1 || LENGTH_MAX < n {
            return Err(Refusal::BadFrame);
        }
        let q = queue_of(Side::Receive, 0);
        let first = self.hdp(q);
        if first == 0 || !is_waiting(self.channels[0].rx) || self.is_held(q) {
            return Err(Refusal::Dropped);
        }
        let frame = Frame {
            first,
            stored: 0,
            left: n,
        };
        self.channels[0].rx = Receiving::Fetch(frame);
        Ok(())
    }

    // A write that no guard has judged. Memory of another size than 8,192 bytes is answered 1.
    pub(crate) fn write(&mut self, m: &mut [u8], a: u32, v: u32) -> Result<(), Refusal>
        ensures { answer (fault result) self.new m.new ≡ unguarded_write a v self.old m.old }
    {
        let Some(m) = m.as_mut_array() else {
            return Err(Refusal::Unfit);
        };
        if self.undefined {
            return Err(Refusal::Undefined);
        }
        if a % 4 != 0 {
            return Err(Refusal::Misaligned);
        }
        if is_descriptor(a) {
            put_at(m, ((a - DESC_FIRST) / 4) as usize, v);
            return Ok(());
        }
        self.write_class(class_at(a), v)
    }

    // The write of v to a register of class n.
    fn write_class(&mut self, n: u8, v: u32) -> Result<(), Refusal>
        ensures { (m : List ℕ) → answer (fault result) self.new m ≡ register_write n v self.old m }
    {
        // The rules are asked of a copy of the registers: by a loan of these the whole record would be copied once more for its answer.
        let mut t = self.state;
        match register_fault(&t, n, v) {
            Ok(()) => {
                self.begin_engine(n);
                write_register(&mut t, n, v);
                self.state = t;
                Ok(())
            }
            // Two matches: behind the pattern `Err(Refusal::NotGuarded)` no fact with a name of its own says that it is another refusal.
            Err(refusal) => match refusal {
                Refusal::NotGuarded => Err(refusal),
                _ => {
                    self.undefined = true;
                    Err(Refusal::Undefined)
                }
            },
        }
    }

    // The engine before a write that its register takes: an HDP write starts it, unless it only zeroes.
    fn begin_engine(&mut self, n: u8)
        ensures { self.new ≡ pick (starts_engine self.old n) (set_begun (n - hdp_class) self.old) self.old }
    {
        if n <= HDP_LAST && !is_awaiting(&self.state) {
            self.begin((n - HDP) as usize);
        }
    }
}
