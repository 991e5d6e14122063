// The controller's marks in a descriptor.
// Promises: a mark changes the bits that its step names and nothing else of descriptor memory, and is handed only the sixteen bytes of its
// own descriptor. Document 01, "The controller's steps".

#![tactic(auto)]

ghost use Rattle.std.specs.Prelude.{◌≡◌, ◌+◌, ◌*◌, ◌<◌, ℕ, length};
ghost use Rattle.words.specs.Word.{word_at, put_word, word, put};
ghost use Rattle.descriptor.specs.Fields.{short_end};
ghost use Rattle.marks.specs.Marks.{put_length, eoq_mark, owner_mark, td_mark, last_mark, first_mark, marked, last_marked};

use descriptor::{Flag, SHORT_END};
use layout::{Memory, Slot, clear_bit, set_bit};
use words::{read_word, write_word};

// The flag of word 3 that says that some of a frame was dropped. No case of `Flag`: no rule reads it.
const OVERRUN: u32 = 22;

// A word with n as its packet length, or as a receive buffer's length.
// The bound of a length stays a clause, here and below, and no type: the engines have just tested the number.
#[tactic(auto, unfolding(crate::specs::Marks::put_length))]
fn put_length(n: u32, w: u32) -> u32
    requires { n < short_end }
    ensures { result ≡ put_length n w }
{
    w - w % SHORT_END + n
}

// Receive step 4, in word 3.
fn last_mark(latched: u32, x3: u32) -> u32
    ensures { result ≡ last_mark latched x3 }
{
    let ended = set_bit(x3, Flag::Eop as u32);
    if latched == 0 {
        set_bit(ended, Flag::Eoq as u32)
    } else {
        ended
    }
}

// Receive step 5, in word 3.
fn first_mark(stored: u32, overrun: bool, x3: u32) -> u32
    requires { stored < short_end }
    ensures { result ≡ first_mark stored overrun x3 }
{
    let begun = set_bit(put_length(stored, x3), Flag::Sop as u32);
    let noted = if overrun {
        set_bit(begun, OVERRUN)
    } else {
        clear_bit(begun, OVERRUN)
    };
    clear_bit(noted, Flag::Owner as u32)
}

// Marks word i of the descriptor whose sixteen bytes these are; a part that is lent on is a slice.
fn mark_part<F: Fn(u32) -> u32>(part: &mut [u8], i: usize, mark: F)
    requires { (length part.old ≡ 16) × (i < 4) × F.IsAlwaysCallable mark }
    ensures { (w : ℕ) × F.post mark (word_at part.old (4 * i)) w × (part.new ≡ put_word part.old (4 * i) w) }
{
    let w = read_word(part, 4 * i);
    write_word(part, 4 * i, mark(w));
}

// Marks word i of the descriptor at d: its sixteen bytes are lent on.
fn mark_at<F: Fn(u32) -> u32>(m: &mut Memory, d: Slot, i: usize, mark: F)
    requires { (i < 4) × F.IsAlwaysCallable mark }
    ensures { (w : ℕ) × F.post mark (word m.old (d.word + i)) w × (m.new ≡ put m.old (d.word + i) w) }
{
    let a = 4 * d.word;
    mark_part(&mut m[a..a + 16], i, mark);
}

// Transmit step 4: sets EOQ in the descriptor at d.
#[tactic(auto, unfolding(crate::specs::Marks::marked))]
pub fn mark_eoq(m: &mut Memory, d: Slot)
    ensures { m.new ≡ marked eoq_mark d.word m.old }
{
    mark_at(m, d, 3, |w| set_bit(w, Flag::Eoq as u32));
}

// Transmit step 5: clears OWNER.
#[tactic(auto, unfolding(crate::specs::Marks::marked))]
pub fn mark_owner(m: &mut Memory, d: Slot)
    ensures { m.new ≡ marked owner_mark d.word m.old }
{
    mark_at(m, d, 3, |w| clear_bit(w, Flag::Owner as u32));
}

// Teardown step 1: sets TD.
#[tactic(auto, unfolding(crate::specs::Marks::marked))]
pub fn mark_td(m: &mut Memory, d: Slot)
    ensures { m.new ≡ marked td_mark d.word m.old }
{
    mark_at(m, d, 3, |w| set_bit(w, Flag::Td as u32));
}

// Receive step 5: the frame's first descriptor.
#[tactic(auto, unfolding(crate::specs::Marks::marked))]
pub fn mark_first(m: &mut Memory, d: Slot, stored: u32, overrun: bool)
    requires { stored < short_end }
    ensures { m.new ≡ marked (first_mark stored overrun) d.word m.old }
{
    mark_at(m, d, 3, |w| first_mark(stored, overrun, w));
}

// Receive step 4: the frame's last descriptor, in word 2 and in word 3.
#[tactic(auto, unfolding(crate::specs::Marks::marked, crate::specs::Marks::last_marked))]
pub fn mark_last(m: &mut Memory, d: Slot, here: u32, latched: u32)
    requires { here < short_end }
    ensures { m.new ≡ last_marked here latched d.word m.old }
{
    mark_at(m, d, 2, |w| put_length(here, w));
    mark_at(m, d, 3, |w| last_mark(latched, w));
}
