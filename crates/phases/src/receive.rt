// The receive engine: a method for each phase, as document 01 names it, which hands back the next phase with the burst made, and the
// step of any.
// Document 01, "The controller's steps", Receive 1 to 6.

ghost use Rattle.std.specs.Prelude.{◌≡◌, ◌+◌, ◌≤◌};
ghost use Rattle.layout.specs.Layout.{address_end, length_max};
ghost use Rattle.words.specs.Word.{word};
ghost use Rattle.phases.specs.Steps.{to_phase};
ghost use Rattle.phases.specs.Receive.{too_long, fetch, advanced, store_burst, close, mark_last, mark_first, finish, take_step};
ghost use Rattle.phases.specs.Quiet.{quiet_rx, waits};

use crate::common::{BURST_MAX, passes_end};
use crate::{Burst, Filled, Frame, Leaving, Receiving, Step, Stored, Storing};
use descriptor::{Place, descriptor_at, length_of};
use layout::{LENGTH_MAX, Memory, Side, slot_at};
use marks::{mark_first, mark_last};
use words::word_of;

// Whether what is stored of a frame and what is left of it are more than any frame has.
fn is_too_long(stored: u32, left: u32) -> bool
    ensures { result ≡ too_long stored left }
{
    (LENGTH_MAX as u64) < stored as u64 + left as u64
}

// The phases without numbers are the state itself.
impl Receiving {
    // Idle, or waiting for a frame: nothing moves.
    fn stay(self, hdp: u32, cp: u32) -> Option<Step<Receiving>>
        ensures { result ≡ to_phase self hdp cp }
    {
        Some(Step::quiet(self, hdp, cp))
    }
}

impl Frame {
    // (1) Fetches the descriptor at HDP, by the guard's own rules.
    #[tactic(auto, unfolding(crate::specs::Receive::fetch, descriptor::specs::Fields::desc_at))]
    fn fetch(self, m: &Memory, hdp: u32, cp: u32) -> Option<Step<Receiving>>
        ensures { result ≡ fetch (word m.now) self hdp cp }
    {
        if is_too_long(self.stored, self.left) {
            return None;
        }
        let d = descriptor_at(m, slot_at(hdp)?);
        d.fetch_fault(Place::Buffer).ok()?;
        let storing = Storing {
            first: self.first,
            stored: self.stored,
            left: self.left,
            at: d.buffer,
            room: length_of(Side::Receive, d.word2),
            here: 0,
        };
        Some(Step::quiet(Receiving::Moving(storing), hdp, cp))
    }
}

impl Storing {
    // The phase after a burst of n bytes.
    fn advance(self, n: u32) -> Receiving
        requires { (n ≤ self.room) × (n ≤ self.left) × (self.stored + self.left ≤ length_max)
            × (self.at + self.room ≤ address_end) }
        ensures { result ≡ advanced self n }
    {
        let stored = self.stored + n;
        let left = self.left - n;
        let room = self.room - n;
        let here = self.here.saturating_add(n);
        if n < self.room && n < self.left {
            Receiving::Moving(Storing {
                first: self.first,
                stored,
                left,
                at: self.at + n,
                room,
                here,
            })
        } else {
            Receiving::Ended(Filled {
                first: self.first,
                stored,
                left,
                room,
                here,
            })
        }
    }

    // (2) One store burst. The one that leaves no room or nothing to store moves on to 3.
    #[tactic(auto, unfolding(crate::specs::Receive::store_burst))]
    fn store_burst(self, hdp: u32, cp: u32) -> Option<Step<Receiving>>
        ensures { result ≡ store_burst self hdp cp }
    {
        let most = self.room.min(self.left);
        if is_too_long(self.stored, self.left) || most == 0 || passes_end(self.at, self.room) {
            return None;
        }
        let n = BURST_MAX.min(most);
        Some(Step {
            burst: Burst::Store(self.at, n),
            ..Step::quiet(self.advance(n), hdp, cp)
        })
    }
}

impl Filled {
    // (3) HDP follows to the next buffer, or the next is latched; what then has no buffer is dropped.
    #[tactic(auto, unfolding(crate::specs::Receive::close))]
    fn close(self, m: &Memory, hdp: u32, cp: u32) -> Option<Step<Receiving>>
        ensures { result ≡ close (word m.now) self hdp cp }
    {
        if is_too_long(self.stored, self.left) {
            return None;
        }
        let next = word_of(m, slot_at(hdp)?.word);
        let full = self.room == 0 && self.left != 0;
        if full && next != 0 {
            let frame = Frame {
                first: self.first,
                stored: self.stored,
                left: self.left,
            };
            return Some(Step::quiet(Receiving::Fetch(frame), next, cp));
        }
        let done = Stored {
            first: self.first,
            stored: self.stored,
            here: self.here,
            next,
            overrun: full,
        };
        Some(Step::quiet(Receiving::Last(done), hdp, cp))
    }
}

impl Stored {
    // (4) EOP, the length and perhaps EOQ in the last descriptor.
    #[tactic(auto, unfolding(crate::specs::Receive::mark_last))]
    fn set_last(self, m: &mut Memory, hdp: u32, cp: u32) -> Option<Step<Receiving>>
        ensures { (result, m.new) ≡ mark_last m.old self hdp cp }
    {
        if LENGTH_MAX < self.here {
            return None;
        }
        mark_last(m, slot_at(hdp)?, self.here, self.next);
        Some(Step::quiet(Receiving::First(self), hdp, cp))
    }

    // (5) SOP, the packet length, the overrun and OWNER in the first descriptor; the frame counts as received.
    #[tactic(auto, unfolding(crate::specs::Receive::mark_first))]
    fn set_first(self, m: &mut Memory, hdp: u32, cp: u32) -> Option<Step<Receiving>>
        ensures { (result, m.new) ≡ mark_first m.old self hdp cp }
    {
        if LENGTH_MAX < self.stored {
            return None;
        }
        mark_first(m, slot_at(self.first)?, self.stored, self.overrun);
        let leaving = Leaving { next: self.next };
        Some(Step {
            octets: self.stored,
            ..Step::quiet(Receiving::Done(leaving), hdp, cp)
        })
    }
}

impl Leaving {
    // (6) HDP takes the latched next, CP the last descriptor's address, which HDP still holds.
    #[tactic(auto, unfolding(crate::specs::Receive::finish))]
    fn finish_taking(self, hdp: u32) -> Option<Step<Receiving>>
        ensures { result ≡ finish self.next hdp }
    {
        let state = if self.next == 0 {
            Receiving::Idle
        } else {
            Receiving::Wait
        };
        Some(Step::quiet(state, self.next, hdp))
    }
}

// The step of any phase.
#[tactic(auto, unfolding(crate::specs::Receive::take_step))]
pub fn step_receive(m: &mut Memory, s: Receiving, hdp: u32, cp: u32) -> Option<Step<Receiving>>
    ensures { (result, m.new) ≡ take_step m.old s hdp cp }
{
    match s {
        Receiving::Idle | Receiving::Wait => s.stay(hdp, cp),
        Receiving::Fetch(f) => f.fetch(m, hdp, cp),
        Receiving::Moving(b) => b.store_burst(hdp, cp),
        Receiving::Ended(e) => e.close(m, hdp, cp),
        Receiving::Last(e) => e.set_last(m, hdp, cp),
        Receiving::First(e) => e.set_first(m, hdp, cp),
        Receiving::Done(e) => e.finish_taking(hdp),
    }
}

// Whether the engine is idle or waiting.
pub fn is_quiet_rx(s: Receiving) -> bool
    ensures { result ≡ quiet_rx s }
{
    matches!(s, Receiving::Idle | Receiving::Wait)
}

// Whether the engine waits.
pub fn is_waiting(s: Receiving) -> bool
    ensures { result ≡ waits s }
{
    matches!(s, Receiving::Wait)
}
