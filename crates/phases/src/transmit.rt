// The transmit engine: a method for each phase, as document 01 names it, which hands back the next phase with the burst made, and the
// step of any.
// Document 01, "The controller's steps", Transmit 1 to 6.

ghost use Rattle.std.specs.Prelude.{◌≡◌, ◌+◌, ◌≤◌};
ghost use Rattle.layout.specs.Choice.{pick};
ghost use Rattle.layout.specs.Layout.{address_end};
ghost use Rattle.words.specs.Word.{word};
ghost use Rattle.descriptor.specs.Rules.{fetch_fault};
ghost use Rattle.phases.specs.Steps.{to_phase};
ghost use Rattle.phases.specs.Transmit.{latch, fetch, advanced, read_burst, close, mark_eoq, octets_of, clear_own, finish, send_step};
ghost use Rattle.phases.specs.Quiet.{quiet_tx};

use crate::common::{BURST_MAX, passes_end};
use crate::{Burst, Closing, Finished, Leaving, Packet, Reading, Sending, Step};
use descriptor::{Descriptor, Flag, Place, descriptor_at, has_flag, length_of, packet_length};
use layout::{Memory, Side, slot_at};
use marks::{mark_eoq, mark_owner};
use words::word_of;

// What a fetch latches of a descriptor that has no fault: the first byte is then an address.
fn latch(d: Descriptor, pl: Place, sop: u32) -> Sending
    requires { fetch_fault pl d.next d.buffer d.word2 d.word3 ≡ 0 }
    ensures { result ≡ latch pl sop d.next d.buffer d.word2 d.word3 }
{
    Sending::Moving(Reading {
        sop,
        word3: pl.sop_at(d),
        sum: pl.sum_at(d),
        at: d.first_byte(Side::Transmit) as u32,
        left: length_of(Side::Transmit, d.word2),
        next: d.next,
        eop: has_flag(d.word3, Flag::Eop),
    })
}

// (1) Fetches the descriptor at HDP, at its place in the packet that began at sop, by the guard's own rules.
#[tactic(auto, unfolding(crate::specs::Transmit::fetch, descriptor::specs::Fields::desc_at))]
fn fetch_at(m: &Memory, pl: Place, sop: u32, hdp: u32, cp: u32) -> Option<Step<Sending>>
    ensures { result ≡ fetch (word m.now) pl sop hdp cp }
{
    let d = descriptor_at(m, slot_at(hdp)?);
    d.fetch_fault(pl).ok()?;
    Some(Step::quiet(latch(d, pl, sop), hdp, cp))
}

// The phases without numbers are the state itself.
impl Sending {
    // Idle: nothing moves.
    fn stay(self, hdp: u32, cp: u32) -> Option<Step<Sending>>
        ensures { result ≡ to_phase self hdp cp }
    {
        Some(Step::quiet(self, hdp, cp))
    }

    // (1) of a new packet, which is not fetched while reset or transmit teardown is pending.
    fn begin(self, m: &Memory, hdp: u32, cp: u32, held: bool) -> Option<Step<Sending>>
        ensures { result ≡ pick held (to_phase self hdp cp) (fetch (word m.now) Place.Start hdp hdp cp) }
    {
        if held {
            self.stay(hdp, cp)
        } else {
            fetch_at(m, Place::Start, hdp, hdp, cp)
        }
    }
}

impl Packet {
    // (1) inside a packet.
    fn fetch(self, m: &Memory, hdp: u32, cp: u32) -> Option<Step<Sending>>
        ensures { result ≡ fetch (word m.now) (Place.Middle self.word3 self.sum) self.sop hdp cp }
    {
        fetch_at(m, Place::Middle(self.word3, self.sum), self.sop, hdp, cp)
    }
}

impl Reading {
    // The phase after a burst of n bytes.
    fn advance(self, n: u32) -> Sending
        requires { (n ≤ self.left) × (self.at + self.left ≤ address_end) }
        ensures { result ≡ advanced self n }
    {
        if n < self.left {
            Sending::Moving(Reading {
                at: self.at + n,
                left: self.left - n,
                ..self
            })
        } else {
            Sending::Ended(Finished {
                sop: self.sop,
                word3: self.word3,
                sum: self.sum,
                next: self.next,
                eop: self.eop,
            })
        }
    }

    // (2) One read burst. The one that leaves nothing moves on to 3.
    #[tactic(auto, unfolding(crate::specs::Transmit::read_burst))]
    fn read_burst(self, hdp: u32, cp: u32) -> Option<Step<Sending>>
        ensures { result ≡ read_burst self hdp cp }
    {
        if self.left == 0 || passes_end(self.at, self.left) {
            return None;
        }
        let n = BURST_MAX.min(self.left);
        Some(Step {
            burst: Burst::Read(self.at, n),
            ..Step::quiet(self.advance(n), hdp, cp)
        })
    }
}

impl Finished {
    // (3) No EOP: HDP follows to the latched next. EOP: word 0 is latched afresh, for an append may have come since.
    #[tactic(auto, unfolding(crate::specs::Transmit::close))]
    fn close(self, m: &Memory, hdp: u32, cp: u32) -> Option<Step<Sending>>
        ensures { result ≡ close (word m.now) self hdp cp }
    {
        if !self.eop {
            let packet = Packet {
                sop: self.sop,
                word3: self.word3,
                sum: self.sum,
            };
            return Some(Step::quiet(Sending::Within(packet), self.next, cp));
        }
        let closing = Closing {
            sop: self.sop,
            word3: self.word3,
            next: word_of(m, slot_at(hdp)?.word),
        };
        Some(Step::quiet(Sending::Marking(closing), hdp, cp))
    }
}

impl Closing {
    // (4) EOQ in the EOP descriptor, where the latched next is 0.
    #[tactic(auto, unfolding(crate::specs::Transmit::mark_eoq))]
    fn set_eoq(self, m: &mut Memory, hdp: u32, cp: u32) -> Option<Step<Sending>>
        ensures { (result, m.new) ≡ mark_eoq m.old self hdp cp }
    {
        if self.next == 0 {
            mark_eoq(m, slot_at(hdp)?);
        }
        Some(Step::quiet(Sending::Owning(self), hdp, cp))
    }

    // (5) OWNER goes in the SOP descriptor, and the packet counts as sent.
    #[tactic(auto, unfolding(crate::specs::Transmit::clear_own, crate::specs::Transmit::octets_of))]
    fn clear_own(self, m: &mut Memory, hdp: u32, cp: u32) -> Option<Step<Sending>>
        ensures { (result, m.new) ≡ clear_own m.old self hdp cp }
    {
        mark_owner(m, slot_at(self.sop)?);
        let leaving = Leaving { next: self.next };
        Some(Step {
            octets: packet_length(self.word3),
            ..Step::quiet(Sending::Done(leaving), hdp, cp)
        })
    }
}

impl Leaving {
    // (6) HDP takes the latched next, CP the EOP descriptor's address, which HDP still holds.
    #[tactic(auto, unfolding(crate::specs::Transmit::finish))]
    fn finish_sending(self, hdp: u32) -> Option<Step<Sending>>
        ensures { result ≡ finish self.next hdp }
    {
        let state = if self.next == 0 {
            Sending::Idle
        } else {
            Sending::New
        };
        Some(Step::quiet(state, self.next, hdp))
    }
}

// The step of any phase; held: while reset or transmit teardown is pending.
#[tactic(auto, unfolding(crate::specs::Transmit::send_step))]
pub fn step_transmit(
    m: &mut Memory,
    s: Sending,
    hdp: u32,
    cp: u32,
    held: bool,
) -> Option<Step<Sending>>
    ensures { (result, m.new) ≡ send_step held m.old s hdp cp }
{
    match s {
        Sending::Idle => s.stay(hdp, cp),
        Sending::New => s.begin(m, hdp, cp, held),
        Sending::Within(p) => p.fetch(m, hdp, cp),
        Sending::Moving(r) => r.read_burst(hdp, cp),
        Sending::Ended(e) => e.close(m, hdp, cp),
        Sending::Marking(e) => e.set_eoq(m, hdp, cp),
        Sending::Owning(e) => e.clear_own(m, hdp, cp),
        Sending::Done(e) => e.finish_sending(hdp),
    }
}

// Whether the engine is idle or at 1 of a new packet.
pub fn is_quiet_tx(s: Sending) -> bool
    ensures { result ≡ quiet_tx s }
{
    matches!(s, Sending::Idle | Sending::New)
}
