// A window over any input: the bytes that were read and are not yet taken, in a lent buffer.
// Promises: a window that is filled holds the bytes that it held, in front, and behind them those that the read put there; afterwards it
// has as many bytes as are wanted, or the input has ended. Where the reader says which bytes it has left, those put there are the first of
// them, and the input has ended only where none is left. Of another reader, as a file, no contract can say more than what was put there.
// Where a read fails, its error is answered, and the bytes that the window held stand in front of the buffer.
// Document 01, "The bench".

#![tactic(auto)]

ghost use Rattle.std.specs.Prelude.{◌≡◌, ◌+◌, ◌-◌, ◌≤◌, ◌<◌, length, take, drop, IfOk, OnErr};
ghost use Rattle.std.specs.Io.KnownBytes.{Consumes, IsAtEnd};
ghost use Rattle.window.specs.Window.{window_of, Inside, Refilled, Kept, EndsRight, Passed};

use std::io;
use std::io::Read;

// The part of a buffer that is still to be taken, and whether the input has been read to its end. The buffer itself is lent to each call:
// a window that held the loan would need a clause on its ghost name in each function that takes it.
#[derive(Clone, Copy)]
pub struct Window {
    pub from: usize,
    pub len: usize,
    pub ended: bool,
}

// Reads until the buffer is full or the input ends, and gives how many bytes stand in front of it: those that were read. An input that
// ends is no error here, so `read_exact` doesn't do.
fn read_full<R: Read>(source: &mut R, buf: &mut [u8]) -> io::Result<usize>
    ensures count { IfOk result (λ n. n ≤ length buf.new) }
    ensures bytes { IfOk result (λ n. Consumes (R.remaining source.old) (R.remaining source.new) (take n buf.new)) }
    ensures end { IfOk result (λ n. n < length buf.new → IsAtEnd (R.remaining source.new)) }
{
    let mut done = 0;
    while done < buf.len() {
        match source.read(&mut buf[done..])? {
            0 => return Ok(done),
            n => done += n,
        }
    }
    Ok(done)
}

impl Window {
    // The bytes of the window.
    pub fn bytes(self, buf: &[u8]) -> &[u8]
        requires { Inside self buf.now }
        ensures { result.now ≡ window_of self buf.now }
    {
        &buf[self.from..self.len]
    }

    // The window with as many bytes as are wanted, or all that is left of the input. It reads only where there are fewer. An error comes
    // only from such a read; then nothing of the window is lost: its bytes stand in front of the buffer.
    pub fn refill<R: Read>(
        self,
        source: &mut R,
        buf: &mut [u8],
        wanted: usize,
    ) -> io::Result<Window>
        requires { (wanted ≤ length buf.old) × Inside self buf.old }
        ensures filled { IfOk result (λ r. Refilled wanted self buf.old r buf.new) }
        ensures read { IfOk result (λ r. Consumes (R.remaining source.old) (R.remaining source.new)
            (drop (self.len - self.from) (window_of r buf.new))) }
        ensures right { IfOk result (λ r. EndsRight self.ended (R.remaining source.old) → EndsRight r.ended (R.remaining source.new)) }
        ensures failed { OnErr result (Kept wanted self buf.old buf.new) }
    {
        let left = self.len - self.from;
        if wanted <= left || self.ended {
            return Ok(self);
        }
        buf.copy_within(self.from..self.len, 0);
        let rest = &mut buf[left..];
        let room = rest.len();
        let got = read_full(source, rest)?;
        Ok(Window {
            from: 0,
            len: left + got,
            ended: got < room,
        })
    }

    // The window behind its first n bytes.
    pub fn pass(self, n: usize) -> Window
        requires { self.from + n ≤ self.len }
        ensures { Passed self n result }
    {
        Window {
            from: self.from + n,
            ..self
        }
    }
}
