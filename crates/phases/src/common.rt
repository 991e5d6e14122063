// What both engines ask of numbers.

ghost use Rattle.std.specs.Prelude.{◌≡◌, ◌+◌, ltb};
ghost use Rattle.layout.specs.Layout.{address_end};

use layout::ADDRESS_END;

// The most bytes that one burst moves.
pub const BURST_MAX: u32 = 64;

// Whether n bytes from a on pass the last address.
pub fn passes_end(a: u32, n: u32) -> bool
    ensures { result ≡ ltb address_end (a + n) }
{
    ADDRESS_END < a as u64 + n as u64
}
