// The small state of guard and controller, one table of words, and the rules 4 to 10 of a register write.
// Promises: each rule gives the refusal with the lowest number that document 01 gives, of one queue or, for the reset, of all; after a
// write without a fault the table is exactly what 01 says. Nothing here knows descriptors, chains or engines.
// Document 01, "The book and the release", "Judging".

#![tactic(auto)]

ghost use Rattle.std.specs.Prelude.{◌≡◌, ◌<◌};
ghost use Rattle.layout.specs.Choice.{pick};
ghost use Rattle.layout.specs.Layout.{queues, queue_of};
ghost use Rattle.layout.specs.Refusals.{fault};
ghost use Rattle.registers.specs.Table.{awaiting, any_tearing, reset_of, bit_of, tearing_of, set_mark, set_tearing, flags_fit, loaded};
ghost use Rattle.registers.specs.Rules.{zeroing_fault, ack_fault, zero_fault, tear_queue, head_number, teardown_number, reset_number};
ghost use Rattle.registers.specs.Rules.{register_fault, head_written, ack_written, reset_written, written};

use layout::{
    CHANNELS, CONTROL, CP, HDP, MARKS, PASSED, QUEUES, RESET, Refusal, Side, TEARDOWN,
    TEARDOWN_DONE, UNGUARDED, UNOFFERED, has_bit, queue_of, set_bit, side_of,
};

// How many words the table has, and which word is which; the head of queue q is word q. The last two are spare.
pub const STATE: usize = 3 * QUEUES + 6;

pub const HDP_AT: usize = QUEUES;

pub const CP_AT: usize = 2 * QUEUES;

pub const MARKS_AT: usize = 3 * QUEUES;

pub const TEARING_AT: usize = 3 * QUEUES + 1;

pub const RESET_AT: usize = 3 * QUEUES + 2;

pub const BIT_AT: usize = 3 * QUEUES + 3;

// A table of words, and a queue by its number: so callers in C lend and read it.
pub type State = [u32; STATE];

// Every mark there is.
const ALL_MARKS: u32 = ((1u64 << MARKS) - 1) as u32;

// One past the last mask of teardowns.
const TEARINGS_END: u32 = 1 << QUEUES;

// The last class of each range, by the range's first and that of the next; the guard's judges go by them too.
pub const HDP_LAST: u8 = HDP + QUEUES as u8 - 1;

pub const CP_LAST: u8 = CP + QUEUES as u8 - 1;

pub const TEARDOWN_LAST: u8 = RESET - 1;

pub const ZERO_LAST: u8 = PASSED - 1;

pub const PASSED_LAST: u8 = UNOFFERED - 1;

pub const UNOFFERED_LAST: u8 = UNGUARDED - 1;

// 6 for HDP and CP while initialisation is awaited. Apart from `zero_fault`: two rules of document 01, with a number each.
fn zeroing_fault(v: u32) -> Result<(), Refusal>
    ensures { fault result ≡ zeroing_fault v }
{
    if v == 0 {
        Ok(())
    } else {
        Err(Refusal::NotInitialised)
    }
}

// 7 and 8, once nothing is awaited.
fn pending_fault(reset: bool, tearing: bool) -> Result<(), Refusal>
    ensures { fault result ≡ pick reset 7 (pick tearing 8 0) }
{
    if reset {
        return Err(Refusal::ResetPending);
    }
    if tearing {
        return Err(Refusal::TeardownPending);
    }
    Ok(())
}

// CP of any queue.
#[tactic(auto, unfolding(crate::specs::Rules::ack_fault))]
pub fn ack_fault(awaiting: bool, v: u32) -> Result<(), Refusal>
    ensures { fault result ≡ ack_fault awaiting v }
{
    if awaiting { zeroing_fault(v) } else { Ok(()) }
}

// DMACONTROL and RX_BUFFER_OFFSET.
#[tactic(auto, unfolding(crate::specs::Rules::zero_fault))]
pub fn zero_fault(v: u32) -> Result<(), Refusal>
    ensures { fault result ≡ zero_fault v }
{
    if v == 0 {
        Ok(())
    } else {
        Err(Refusal::BadValue)
    }
}

// The queue that the value v names at the teardown register of a side; a value that names no channel is asked of the side's first.
#[tactic(auto, unfolding(crate::specs::Rules::tear_queue))]
pub fn tear_queue(side: Side, v: u32) -> usize
    ensures { (result ≡ tear_queue (queue_of side 0) v) × (result < queues) }
{
    let channel = if v < CHANNELS as u32 { v as usize } else { 0 };
    queue_of(side, channel)
}

// Whether any register is not yet zeroed.
#[tactic(auto, unfolding(crate::specs::Table::awaiting))]
pub fn is_awaiting(t: &State) -> bool
    ensures { result ≡ awaiting t.now }
{
    t[MARKS_AT] != ALL_MARKS
}

// Whether teardown is pending for queue q.
pub fn is_tearing(t: &State, q: usize) -> bool
    requires { q < queues }
    ensures { result ≡ tearing_of t.now q }
{
    has_bit(t[TEARING_AT], q as u32)
}

// Whether teardown is pending for some queue.
#[tactic(auto, unfolding(crate::specs::Table::any_tearing))]
pub fn is_any_tearing(t: &State) -> bool
    ensures { result ≡ any_tearing t.now }
{
    t[TEARING_AT] != 0
}

// Whether reset is pending.
#[tactic(auto, unfolding(crate::specs::Table::reset_of))]
pub fn is_resetting(t: &State) -> bool
    ensures { result ≡ reset_of t.now }
{
    t[RESET_AT] == 1
}

// The reset bit, as its register reads.
#[tactic(auto, unfolding(crate::specs::Table::bit_of))]
pub fn has_reset_bit(t: &State) -> bool
    ensures { result ≡ bit_of t.now }
{
    has_bit(t[BIT_AT], 0)
}

// Whether the flags are flags: 2 where not.
#[tactic(auto, unfolding(crate::specs::Table::flags_fit))]
pub fn are_flags(t: &State) -> bool
    ensures { result ≡ flags_fit t.now }
{
    t[MARKS_AT] <= ALL_MARKS && t[TEARING_AT] < TEARINGS_END && t[RESET_AT] <= 1
}

// The refusal of a write of v to HDP of queue q.
#[tactic(auto, unfolding(crate::specs::Rules::head_fault))]
pub fn head_number(t: &State, q: usize, v: u32) -> Result<(), Refusal>
    requires { q < queues }
    ensures { fault result ≡ head_number t.now q v }
{
    if is_awaiting(t) {
        return zeroing_fault(v);
    }
    pending_fault(is_resetting(t), is_tearing(t, q))?;
    if v == 0 {
        return Err(Refusal::BadValue);
    }
    if t[HDP_AT + q] == 0 {
        Ok(())
    } else {
        Err(Refusal::Busy)
    }
}

// The refusal of a write of v to a teardown register, where it names queue q.
#[tactic(auto, unfolding(crate::specs::Rules::teardown_fault))]
pub fn teardown_number(t: &State, q: usize, v: u32) -> Result<(), Refusal>
    requires { q < queues }
    ensures { fault result ≡ teardown_number t.now q v }
{
    if is_awaiting(t) {
        return Err(Refusal::NotInitialised);
    }
    pending_fault(is_resetting(t), is_tearing(t, q))?;
    if CHANNELS as u32 <= v {
        return Err(Refusal::BadValue);
    }
    if t[CP_AT + q] == TEARDOWN_DONE {
        Err(Refusal::Busy)
    } else {
        Ok(())
    }
}

// The refusal of a write of v to the reset register.
#[tactic(auto, unfolding(crate::specs::Rules::reset_fault))]
pub fn reset_number(t: &State, v: u32) -> Result<(), Refusal>
    ensures { fault result ≡ reset_number t.now v }
{
    if is_awaiting(t) {
        return Err(Refusal::NotInitialised);
    }
    pending_fault(is_resetting(t), is_any_tearing(t))?;
    if v == 1 {
        Ok(())
    } else {
        Err(Refusal::BadValue)
    }
}

// The refusal of a write of v to a register of class n.
#[tactic(auto, unfolding(crate::specs::Rules::register_fault, crate::specs::Rules::by_class, layout::specs::Layout::side_of))]
pub fn register_fault(t: &State, n: u8, v: u32) -> Result<(), Refusal>
    ensures { fault result ≡ register_fault t.now n v }
{
    match n {
        HDP..=HDP_LAST => head_number(t, (n - HDP) as usize, v),
        CP..=CP_LAST => ack_fault(is_awaiting(t), v),
        TEARDOWN..=TEARDOWN_LAST => teardown_number(
            t,
            tear_queue(side_of((n - TEARDOWN) as usize), v),
            v,
        ),
        RESET => reset_number(t, v),
        CONTROL..=ZERO_LAST => zero_fault(v),
        PASSED..=PASSED_LAST => Ok(()),
        UNOFFERED..=UNOFFERED_LAST => Err(Refusal::NotOffered),
        _ => Err(Refusal::NotGuarded),
    }
}

// Register k of those that await a zero has its own.
fn set_mark(t: &mut State, k: usize)
    requires { k < 32 }
    ensures { t.new ≡ set_mark k t.old }
{
    t[MARKS_AT] = set_bit(t[MARKS_AT], k as u32);
}

// v is written to HDP of queue q.
#[tactic(auto, unfolding(crate::specs::Rules::head_written))]
pub fn write_head(t: &mut State, q: usize, v: u32)
    requires { q < queues }
    ensures { t.new ≡ head_written t.old q v }
{
    let awaiting = is_awaiting(t);
    t[HDP_AT + q] = v;
    if awaiting {
        set_mark(t, q);
    }
}

// v is written to CP of queue q.
#[tactic(auto, unfolding(crate::specs::Rules::ack_written))]
pub fn write_ack(t: &mut State, q: usize, v: u32)
    requires { q < queues }
    ensures { t.new ≡ ack_written t.old q v }
{
    if is_awaiting(t) {
        t[CP_AT + q] = v;
        set_mark(t, QUEUES + q);
    } else if v == t[CP_AT + q] {
        t[CP_AT + q] = 0;
    }
}

// Teardown becomes pending for queue q.
pub fn begin_teardown(t: &mut State, q: usize)
    requires { q < queues }
    ensures { t.new ≡ set_tearing q t.old }
{
    t[TEARING_AT] = set_bit(t[TEARING_AT], q as u32);
}

// Reset becomes pending and sets its bit.
pub fn begin_reset(t: &mut State)
    ensures { t.new ≡ reset_written t.old }
{
    t[RESET_AT] = 1;
    t[BIT_AT] = 1;
}

// The table after a write of v, without a fault, to a register of class n.
#[tactic(auto, unfolding(crate::specs::Rules::written, crate::specs::Rules::by_class, layout::specs::Layout::side_of))]
pub fn write_register(t: &mut State, n: u8, v: u32)
    ensures { t.new ≡ written t.old n v }
{
    match n {
        HDP..=HDP_LAST => write_head(t, (n - HDP) as usize, v),
        CP..=CP_LAST => write_ack(t, (n - CP) as usize, v),
        TEARDOWN..=TEARDOWN_LAST => begin_teardown(
            t,
            tear_queue(side_of((n - TEARDOWN) as usize), v),
        ),
        RESET => begin_reset(t),
        _ => {}
    }
}

// The registers in the table are those of c: they are the device's, and are read anew before each call.
pub fn load_registers(t: &mut State, c: &State)
    ensures { t.new ≡ loaded c.now t.old }
{
    t[HDP_AT..MARKS_AT].copy_from_slice(&c[HDP_AT..MARKS_AT]);
    t[BIT_AT] = c[BIT_AT];
}
