// The phases of the two engines: what each phase holds, and its step.
// Promises: a step hands back exactly the next phase, HDP and CP, the burst made and the octets of a packet just done, and leaves exactly
// the descriptor memory, that document 01, "The controller's steps", gives for the numbered items of Transmit and Receive.
// A phase unfit for its step gives None, and the memory stays as it was.
// Knows neither the controller's record nor queues by number: HDP and CP come in and go out as numbers, and of what is pending it hears
// only whether a new packet is held back.

#![tactic(auto)]

mod common; // common.rt: what both engines ask
pub mod receive; // receive.rt: the receive engine, a method for each phase
pub mod transmit; // transmit.rt: the transmit engine, likewise

ghost use Rattle.std.specs.Prelude.{◌≡◌, Some};
ghost use Rattle.phases.specs.Engines.{engine_at};
ghost use Rattle.phases.specs.Steps.{to_phase};

// What one step moves over the bus: nothing, a read burst or a store burst, with its address and number of bytes. Nothing is a case of its
// own, as the rig's words and every definition have it: an Option around the other two would be taken apart twice.
#[derive(Clone, Copy)]
pub enum Burst {
    Quiet,
    Read(u32, u32),
    Store(u32, u32),
}

// Who takes a step: the reset, or an engine or its teardown on a channel.
#[derive(Clone, Copy)]
pub enum Engine {
    Reset,
    Transmit(u8),
    Receive(u8),
    TearTransmit(u8),
    TearReceive(u8),
}

// The engine of a number, on a channel. The number comes from outside: any above 3 is the receive teardown.
#[tactic(auto, unfolding(crate::specs::Engines::engine_at))]
pub fn engine_at(which: u8, channel: u8) -> Engine
    ensures { result ≡ engine_at which channel }
{
    match which {
        0 => Engine::Reset,
        1 => Engine::Transmit(channel),
        2 => Engine::Receive(channel),
        3 => Engine::TearTransmit(channel),
        _ => Engine::TearReceive(channel),
    }
}

// What each phase holds, here and below, stands whole, though fields repeat: the definitions write it so, and the rig reads it as a row of
// words.

// Transmit step 1 inside a packet: the SOP descriptor's address and word 3, and the lengths so far.
#[derive(Clone, Copy)]
pub struct Packet {
    pub sop: u32,
    pub word3: u32,
    pub sum: u32,
}

// Transmit step 2: the packet with this descriptor's length, the bytes still to be read, the latched next and EOP.
#[derive(Clone, Copy)]
pub struct Reading {
    pub sop: u32,
    pub word3: u32,
    pub sum: u32,
    pub at: u32,
    pub left: u32,
    pub next: u32,
    pub eop: bool,
}

// Transmit step 3: a buffer that is read to its end.
#[derive(Clone, Copy)]
pub struct Finished {
    pub sop: u32,
    pub word3: u32,
    pub sum: u32,
    pub next: u32,
    pub eop: bool,
}

// Transmit steps 4 and 5: a packet that is read, and the next that was latched after it.
#[derive(Clone, Copy)]
pub struct Closing {
    pub sop: u32,
    pub word3: u32,
    pub next: u32,
}

// Steps 6 of both engines: the packet is marked; the next that was latched.
#[derive(Clone, Copy)]
pub struct Leaving {
    pub next: u32,
}

// The transmit engine. Its current descriptor is always the one at HDP.
#[derive(Clone, Copy)]
pub enum Sending {
    Idle,
    New,
    Within(Packet),
    Moving(Reading),
    Ended(Finished),
    Marking(Closing),
    Owning(Closing),
    Done(Leaving),
}

// Receive step 1: the frame's first descriptor, the bytes stored so far and those still to come.
#[derive(Clone, Copy)]
pub struct Frame {
    pub first: u32,
    pub stored: u32,
    pub left: u32,
}

// Receive step 2: where the next byte goes, the room left in this buffer, and the bytes stored in it.
#[derive(Clone, Copy)]
pub struct Storing {
    pub first: u32,
    pub stored: u32,
    pub left: u32,
    pub at: u32,
    pub room: u32,
    pub here: u32,
}

// Receive step 3: the buffer is full, or the frame is at its end.
#[derive(Clone, Copy)]
pub struct Filled {
    pub first: u32,
    pub stored: u32,
    pub left: u32,
    pub room: u32,
    pub here: u32,
}

// Receive steps 4 and 5: the frame is stored; the next that was latched, and whether some of it was dropped.
#[derive(Clone, Copy)]
pub struct Stored {
    pub first: u32,
    pub stored: u32,
    pub here: u32,
    pub next: u32,
    pub overrun: bool,
}

// The receive engine. Its current descriptor is always the one at HDP.
#[derive(Clone, Copy)]
pub enum Receiving {
    Idle,
    Wait,
    Fetch(Frame),
    Moving(Storing),
    Ended(Filled),
    Last(Stored),
    First(Stored),
    Done(Leaving),
}

// One step of an engine: the next phase, its registers, the burst, and the octets of a packet just done: 0 and no Option where none is,
// since the total adds it either way.
// HDP and CP stay two numbers, here and in the steps: each step moves one or the other, and the definitions name both.
#[derive(Clone, Copy)]
pub struct Step<S> {
    pub state: S,
    pub hdp: u32,
    pub cp: u32,
    pub burst: Burst,
    pub octets: u32,
}

impl<S> Step<S> {
    // On to a phase, with HDP and CP and no burst.
    fn quiet(state: S, hdp: u32, cp: u32) -> Step<S>
        ensures { Some result ≡ to_phase state hdp cp }
    {
        Step {
            state,
            hdp,
            cp,
            burst: Burst::Quiet,
            octets: 0,
        }
    }
}
