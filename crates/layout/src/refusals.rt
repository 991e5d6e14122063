// The refusals of a call, by name and number. Document 01, "Answers by number".

ghost use Rattle.std.specs.Prelude.{◌≡◌};
ghost use Rattle.layout.specs.Refusals.{refusal_number};

// Why a call is refused. Of those that apply, the lowest is given; an accepted call is numbered 0.
#[derive(Clone, Copy, PartialEq, Eq)]
pub enum Refusal {
    Unfit = 1, // descriptor memory or kind table
    Unsound, // the book
    Misaligned,
    NotGuarded,
    NotOffered,
    NotInitialised,
    ResetPending,
    TeardownPending,
    BadValue,
    Busy,
    WordInUse,
    BadPointer,
    Overlap, // a word of the descriptor is in use, or met earlier in this chain
    Flags,
    BadLength, // or offset
    NotPermitted, // the buffer
    Unfinished, // or the lengths do not add up
    NoBlock,
    BadKind,
    NotLinux, // the block
    InReception, // the block
    Undefined, // the controller
    BadFrame,
    Dropped, // the frame
}

impl From<Refusal> for u8 {
    ghost from_gives = { λ r n. n ≡ refusal_number r };

    fn from(r: Refusal) -> u8 {
        r as u8
    }
}
