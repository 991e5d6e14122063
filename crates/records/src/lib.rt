// The bench's two ends: the records that it reads, and the lines that it prints.
// Promises: bytes are taken for a record exactly where document 01 has one, with its size; an unknown, cut or unfit record is called bad.
// A line is stored in a lent buffer at a place that has room for it, byte for byte as document 01 has it,
// and nothing else of the buffer changes.
// Document 01, "The bench".

#![tactic(auto)]

ghost use Rattle.std.specs.Prelude.{◌≡◌, true, ◌+◌, ◌≤◌, ◌<◌, length};
ghost use Rattle.records.specs.Records.{found, engine_of, decode_ram, decode_write, decode_kind, decode_frame, decode_steps};
ghost use Rattle.records.specs.Records.{decode_later, decode};
ghost use Rattle.records.specs.Lines.{digits_max, decimal, hex_digit, hex8, line_with, tail_with, line_of};
ghost use Rattle.records.specs.Lines.{sent_line, bad_line, line_max, Prints};

use blocks::kinds_fit;
use itoa::Buffer;
use layout::{BLOCKS_MAX, CHANNELS};
use phases::{Burst, Engine, engine_at};

// One record of a bench file. The kinds of a `Ram` record stand behind its four bytes of mark and N.
#[derive(Drop)]
pub enum Record {
    Ram(u32),
    Write(u32, u32),
    Kind(u32, u8),
    Frame(u16),
    Steps(Engine, u8),
}

// Something that is no record: an unknown mark, a record that is cut, or a part that is unfit.
#[derive(Clone, Copy, Debug, PartialEq, Eq)]
pub struct BadRecord;

// What happened: a guest write, a kind change and a frame, each with its answer; a step, with the burst that it made.
// An answer is any byte here, not only a refusal's number: `put_event` prints every one (reason a).
#[derive(Drop)]
pub enum Event {
    Wrote(u32, u8),
    Changed(u32, u8),
    Framed(u16, u8),
    Moved(Burst),
}

// The most kinds of an `RM` record. It is the record's own limit: two bytes hold N in a file, whatever a kind table may have.
pub const RAM_MAX: usize = BLOCKS_MAX;

// The most bytes of a record: so many of the input, or all that is left of it, decide what stands next.
pub const RECORD_MAX: usize = RAM_HEAD + RAM_MAX;

// The sizes of the records, with their marks; an `RM` record is its head and N kinds.
const RAM_HEAD: usize = 4;

const WRITE: usize = 10;

const KIND: usize = 5;

const FRAME: usize = 4;

const STEPS: usize = 4;

// How many engines a channel has, with their teardowns, and the highest number of one. The reset is number 0.
const ENGINES: u8 = 4;

const ENGINE_MAX: u8 = ENGINES * CHANNELS as u8;

// An `RM` record: that there are kinds, and each of them, is asked together.
fn decode_ram(bs: &[u8]) -> Result<(Record, usize), BadRecord>
    ensures { found result ≡ decode_ram bs.now }
{
    let [_, _, low, high, rest @ ..] = bs else {
        return Err(BadRecord);
    };
    let n = u16::from_le_bytes([*low, *high]);
    let blocks = usize::from(n);
    if RAM_MAX < blocks {
        return Err(BadRecord);
    }
    let Some(kinds) = rest.get(..blocks) else {
        return Err(BadRecord);
    };
    if !kinds_fit(kinds) {
        return Err(BadRecord);
    }
    Ok((Record::Ram(u32::from(n)), RAM_HEAD + blocks))
}

fn decode_write(bs: &[u8]) -> Result<(Record, usize), BadRecord>
    ensures { found result ≡ decode_write bs.now }
{
    let &[_, _, a0, a1, a2, a3, v0, v1, v2, v3, ..] = bs else {
        return Err(BadRecord);
    };
    let a = u32::from_le_bytes([a0, a1, a2, a3]);
    let v = u32::from_le_bytes([v0, v1, v2, v3]);
    Ok((Record::Write(a, v), WRITE))
}

fn decode_kind(bs: &[u8]) -> Result<(Record, usize), BadRecord>
    ensures { found result ≡ decode_kind bs.now }
{
    let &[_, _, low, high, kind, ..] = bs else {
        return Err(BadRecord);
    };
    let b = u16::from_le_bytes([low, high]);
    Ok((Record::Kind(u32::from(b), kind), KIND))
}

fn decode_frame(bs: &[u8]) -> Result<(Record, usize), BadRecord>
    ensures { found result ≡ decode_frame bs.now }
{
    let &[_, _, low, high, ..] = bs else {
        return Err(BadRecord);
    };
    Ok((Record::Frame(u16::from_le_bytes([low, high])), FRAME))
}

// The engine of a number: the reset, then for each channel the two engines and their teardowns.
fn engine_of(e: u8) -> Engine
    ensures { result ≡ engine_of e }
{
    match e.checked_sub(1) {
        None => Engine::Reset,
        Some(k) => engine_at(k % ENGINES + 1, k / ENGINES),
    }
}

fn decode_steps(bs: &[u8]) -> Result<(Record, usize), BadRecord>
    ensures { found result ≡ decode_steps bs.now }
{
    let &[_, _, e, count, ..] = bs else {
        return Err(BadRecord);
    };
    if ENGINE_MAX < e || count < 1 {
        return Err(BadRecord);
    }
    Ok((Record::Steps(engine_of(e), count), STEPS))
}

// A record that is not the first.
fn decode_later(bs: &[u8]) -> Result<(Record, usize), BadRecord>
    ensures { found result ≡ decode_later bs.now }
{
    match bs {
        [b'G', b'W', ..] => decode_write(bs),
        [b'K', b'C', ..] => decode_kind(bs),
        [b'F', b'R', ..] => decode_frame(bs),
        [b'S', b'T', ..] => decode_steps(bs),
        _ => Err(BadRecord),
    }
}

fn decode_first(bs: &[u8]) -> Result<(Record, usize), BadRecord>
    ensures { found result ≡ decode true bs.now }
{
    let [b'R', b'M', ..] = bs else {
        return Err(BadRecord);
    };
    decode_ram(bs)
}

// What the bytes that are left begin with, with its size: no record where nothing is left. `first`: no record has been read yet; a flag
// and not two functions, as the definition `decode` has it.
pub fn decode_record(bs: &[u8], first: bool) -> Result<Option<(Record, usize)>, BadRecord>
    ensures { result ≡ decode first bs.now }
{
    if first {
        return decode_first(bs).map(Some);
    }
    if bs.is_empty() {
        return Ok(None);
    }
    decode_later(bs).map(Some)
}

const HEX_DIGITS: usize = 8;

const BLANK: u8 = b' ';

const NEWLINE: u8 = b'\n';

// Stores a text where it is to stand, and gives where it ends. So does every `put_` function below.
// `out` and `at` stay two: a struct of both needs a clause on the loan's ghost name in each function (reason d).
fn put_text(out: &mut [u8], at: usize, text: &[u8]) -> usize
    requires { at + length text.now ≤ length out.old }
    ensures { Prints out.old at text.now out.new result }
{
    let end = at + text.len();
    out[at..end].copy_from_slice(text);
    end
}

// A number's decimal digits.
fn put_decimal(out: &mut [u8], at: usize, n: u64) -> usize
    requires { at + digits_max ≤ length out.old }
    ensures { Prints out.old at (decimal n) out.new result }
{
    put_text(out, at, Buffer::new().format(n).as_bytes())
}

fn hex_digit(d: u32) -> u8
    requires { d < 16 }
    ensures { result ≡ hex_digit d }
{
    if d < 10 {
        return b'0' + d as u8;
    }
    b'A' - 10 + d as u8
}

// The digits come from the last to the first, by their place. No `{:08X}`: std promises its text only where the write succeeds.
fn hex8(a: u32) -> [u8; HEX_DIGITS]
    ensures { result ≡ hex8 a }
{
    let mut digits = [0; HEX_DIGITS];
    let mut m = a;
    for k in (0..HEX_DIGITS).rev() {
        digits[k] = hex_digit(m % 16);
        m /= 16;
    }
    digits
}

// What stands behind a line's first part: a blank, a number and a newline.
fn put_tail(out: &mut [u8], at: usize, n: u64) -> usize
    requires { at + (digits_max + 2) ≤ length out.old }
    ensures { Prints out.old at (tail_with n) out.new result }
{
    let number = put_text(out, at, &[BLANK]);
    let newline = put_decimal(out, number, n);
    put_text(out, newline, &[NEWLINE])
}

// A line: a letter, a first part and a number.
fn put_line(out: &mut [u8], at: usize, letter: u8, part: &[u8], n: u64) -> usize
    requires { (at + line_max ≤ length out.old) × (length part.now ≤ digits_max) }
    ensures { Prints out.old at (line_with letter part.now n) out.new result }
{
    let first = put_text(out, at, &[letter, BLANK]);
    let tail = put_text(out, first, part);
    put_tail(out, tail, n)
}

// A line whose first part is a decimal number too. `put_decimal` alone says how such a number looks.
fn put_number_line(out: &mut [u8], at: usize, letter: u8, b: u64, n: u64) -> usize
    requires { at + line_max ≤ length out.old }
    ensures { Prints out.old at (line_with letter (decimal b) n) out.new result }
{
    let first = put_text(out, at, &[letter, BLANK]);
    let tail = put_decimal(out, first, b);
    put_tail(out, tail, n)
}

// The line of what happened. A step without a burst has none.
pub fn put_event(out: &mut [u8], at: usize, e: Event) -> usize
    requires { at + line_max ≤ length out.old }
    ensures { Prints out.old at (line_of e) out.new result }
{
    match e {
        Event::Wrote(a, n) => put_line(out, at, b'W', &hex8(a), u64::from(n)),
        Event::Changed(b, n) => put_number_line(out, at, b'K', u64::from(b), u64::from(n)),
        Event::Framed(l, n) => put_number_line(out, at, b'F', u64::from(l), u64::from(n)),
        // Two matches: first what kind of event it is, then which burst.
        Event::Moved(b) => match b {
            Burst::Quiet => at,
            Burst::Read(a, n) => put_line(out, at, b'R', &hex8(a), u64::from(n)),
            Burst::Store(a, n) => put_line(out, at, b'S', &hex8(a), u64::from(n)),
        },
    }
}

// The last line of a run that read its whole input.
pub fn put_sent(out: &mut [u8], at: usize, a: u64, b: u64) -> usize
    requires { at + line_max ≤ length out.old }
    ensures { Prints out.old at (sent_line a b) out.new result }
{
    let first = put_text(out, at, b"sent ");
    let word = put_decimal(out, first, a);
    let second = put_text(out, word, b" received ");
    let newline = put_decimal(out, second, b);
    put_text(out, newline, &[NEWLINE])
}

// The last line of a run that met a bad record at that offset.
pub fn put_bad(out: &mut [u8], at: usize, offset: u64) -> usize
    requires { at + line_max ≤ length out.old }
    ensures { Prints out.old at (bad_line offset) out.new result }
{
    let number = put_text(out, at, b"bad record ");
    let newline = put_decimal(out, number, offset);
    put_text(out, newline, &[NEWLINE])
}
