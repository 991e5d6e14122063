// Descriptors: their four words taken apart, and the rules 14, 15 and 17 of one descriptor.
// Promises: a field is read from the bits that document 01 gives it; each rule gives its refusal exactly where 01 gives its number, by the
// words alone. The guard's chain check and the controller's fetch share them.
// Document 01, "Memory, blocks and descriptors", "Judging".

#![tactic(auto)]

ghost use Rattle.std.specs.Prelude.{◌≡◌, ◌<◌, ◌^◌};
ghost use Rattle.layout.specs.Refusals.{fault};
ghost use Rattle.words.specs.Word.{word};
ghost use Rattle.descriptor.specs.Fields.{desc_at, flag_of, long_end, packet_length, length_of, first_byte};
ghost use Rattle.descriptor.specs.Rules.{side_at, flags_fault, offset_bad, length_fault, sop_at, sum_at, sum_fault, behind, next_fault};
ghost use Rattle.descriptor.specs.Rules.{fetch_fault};

use layout::{ADDRESS_END, LENGTH_MAX, Memory, Refusal, Side, Slot, has_bit};
use words::word_of;

// One past the largest length of a packet and of a receive buffer, and of a transmit buffer.
pub const SHORT_END: u32 = LENGTH_MAX + 1;

const LONG_END: u32 = 0x1_0000;

// The flags of word 3, by bit number.
#[derive(Clone, Copy, PartialEq, Eq)]
pub enum Flag {
    Td = 27,
    Eoq = 28,
    Owner = 29,
    Eop = 30,
    Sop = 31,
}

// Where in a chain a descriptor stands: at the start of a packet; in the middle of one, with the SOP descriptor's word 3
// and the sum of the lengths so far; or a receive buffer.
#[derive(Clone, Copy)]
pub enum Place {
    Start,
    Middle(u32, u32),
    Buffer,
}

// A descriptor's four words.
#[derive(Clone, Copy)]
pub struct Descriptor {
    pub next: u32,
    pub buffer: u32,
    pub word2: u32,
    pub word3: u32,
}

// The descriptor in a slot.
#[tactic(auto, unfolding(crate::specs::Fields::desc_at))]
pub fn descriptor_at(m: &Memory, d: Slot) -> Descriptor
    ensures { result ≡ desc_at (word m.now) d.word }
{
    Descriptor {
        next: word_of(m, d.word),
        buffer: word_of(m, d.word + 1),
        word2: word_of(m, d.word + 2),
        word3: word_of(m, d.word + 3),
    }
}

// Whether word 3 has a flag.
pub fn has_flag(x3: u32, f: Flag) -> bool
    ensures { result ≡ flag_of f x3 }
{
    has_bit(x3, f as u32)
}

// The packet length in word 3, which an engine keeps without the rest of the descriptor.
#[tactic(auto, unfolding(crate::specs::Fields::packet_length))]
pub fn packet_length(x3: u32) -> u32
    ensures { result ≡ packet_length x3 }
{
    x3 % SHORT_END
}

// The length in word 2, which the book reads alone.
#[tactic(auto, unfolding(crate::specs::Fields::length_of))]
pub fn length_of(side: Side, x2: u32) -> u32
    ensures { (result ≡ length_of side x2) × (result < long_end) }
{
    match side {
        Side::Transmit => x2 % LONG_END,
        Side::Receive => x2 % SHORT_END,
    }
}

// Whether there is an offset where none is allowed.
#[tactic(auto, unfolding(crate::specs::Fields::offset_of))]
fn is_offset_bad(side: Side, x2: u32) -> bool
    ensures { result ≡ offset_bad side x2 }
{
    match side {
        Side::Transmit => false,
        Side::Receive => x2 / LONG_END % SHORT_END != 0,
    }
}

impl Place {
    // The side of a chain in which a descriptor stands so.
    pub fn side(self) -> Side
        ensures { result ≡ side_at self }
    {
        match self {
            Place::Start | Place::Middle(_, _) => Side::Transmit,
            Place::Buffer => Side::Receive,
        }
    }

    // Word 3 of the packet's SOP descriptor, where d stands here.
    pub fn sop_at(self, d: Descriptor) -> u32
        ensures { result ≡ sop_at self d.word3 }
    {
        match self {
            Place::Start => d.word3,
            Place::Middle(s, _) => s,
            Place::Buffer => 0,
        }
    }

    // The packet's lengths up to d. The sum stops at the largest word, far above any packet length.
    pub fn sum_at(self, d: Descriptor) -> u32
        ensures { result ≡ sum_at self d.word2 }
    {
        match self {
            Place::Start => length_of(Side::Transmit, d.word2),
            Place::Middle(_, n) => n.saturating_add(length_of(Side::Transmit, d.word2)),
            Place::Buffer => 0,
        }
    }

    // The place of the descriptor after d.
    #[tactic(auto, unfolding(crate::specs::Rules::behind))]
    pub fn behind(self, d: Descriptor) -> Place
        ensures { result ≡ behind self d.word2 d.word3 }
    {
        match self {
            Place::Buffer => Place::Buffer,
            _ if has_flag(d.word3, Flag::Eop) => Place::Start,
            _ => Place::Middle(self.sop_at(d), self.sum_at(d)),
        }
    }
}

impl Descriptor {
    // The first byte of the buffer: the offset counts on a transmit SOP descriptor alone.
    #[tactic(auto, unfolding(crate::specs::Fields::first_byte, crate::specs::Fields::offset_of))]
    pub fn first_byte(self, side: Side) -> u64
        ensures { (result ≡ first_byte side self.buffer self.word2 self.word3) × (result < 2 ^ 33) }
    {
        match side {
            Side::Transmit if has_flag(self.word3, Flag::Sop) => {
                self.buffer as u64 + (self.word2 / LONG_END) as u64
            }
            _ => self.buffer as u64,
        }
    }

    // Rule 14: flags. EOQ and TD stand on no descriptor that is handed over.
    #[tactic(auto, unfolding(crate::specs::Rules::flags_fault))]
    pub fn flags_fault(self, pl: Place) -> Result<(), Refusal>
        ensures { fault result ≡ flags_fault pl self.word3 }
    {
        let x3 = self.word3;
        let ours = match pl {
            Place::Start => has_flag(x3, Flag::Sop) && has_flag(x3, Flag::Owner),
            Place::Middle(_, _) => !has_flag(x3, Flag::Sop),
            Place::Buffer => has_flag(x3, Flag::Owner)
                && !has_flag(x3, Flag::Sop)
                && !has_flag(x3, Flag::Eop),
        };
        if ours && !has_flag(x3, Flag::Eoq) && !has_flag(x3, Flag::Td) {
            Ok(())
        } else {
            Err(Refusal::Flags)
        }
    }

    // Rule 15: length or offset. The last byte may be the last address.
    #[tactic(auto, unfolding(crate::specs::Rules::length_fault))]
    pub fn length_fault(self, side: Side) -> Result<(), Refusal>
        ensures { fault result ≡ length_fault side self.buffer self.word2 self.word3 }
    {
        let n = length_of(side, self.word2);
        let end = self.first_byte(side) + n as u64;
        if n == 0 || is_offset_bad(side, self.word2) || ADDRESS_END < end {
            Err(Refusal::BadLength)
        } else {
            Ok(())
        }
    }

    // Rule 17 where this is the packet's last descriptor. On a receive buffer word and sum are both 0, and agree.
    #[tactic(auto, unfolding(crate::specs::Rules::sum_fault, crate::specs::Rules::end_fault))]
    pub fn sum_fault(self, pl: Place) -> Result<(), Refusal>
        ensures { fault result ≡ sum_fault pl self.word2 self.word3 }
    {
        if has_flag(self.word3, Flag::Eop) && pl.sum_at(self) != packet_length(pl.sop_at(self)) {
            Err(Refusal::Unfinished)
        } else {
            Ok(())
        }
    }

    // Rule 17 where the chain ends inside a packet. pl is the place behind the descriptor.
    #[tactic(auto, unfolding(crate::specs::Rules::next_fault))]
    pub fn next_fault(self, pl: Place) -> Result<(), Refusal>
        ensures { fault result ≡ next_fault pl self.next }
    {
        if self.next == 0 && matches!(pl, Place::Middle(_, _)) {
            Err(Refusal::Unfinished)
        } else {
            Ok(())
        }
    }

    // All that the controller's fetch asks of the words: 14, then 15, then 17 at EOP and at the chain's end.
    #[tactic(auto, unfolding(crate::specs::Rules::fetch_fault, crate::specs::Rules::own_fault))]
    pub fn fetch_fault(self, pl: Place) -> Result<(), Refusal>
        ensures { fault result ≡ fetch_fault pl self.next self.buffer self.word2 self.word3 }
    {
        self.flags_fault(pl)?;
        self.length_fault(pl.side())?;
        self.sum_fault(pl)?;
        self.next_fault(pl.behind(self))
    }
}
