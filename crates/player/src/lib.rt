// A bench file replayed from any reader to any writer: what is read is decoded and played record by record, and its lines are written.
// Promises: over all bytes read so far, the bytes handed to the write and those gathered are what `replay` prints up to there; a fresh
// machine with the first record's kinds stands at the beginning; the last line is `replay`'s.
// Where the reader says which bytes it has left and the writer which it holds, `replay` of those is what is added to these. What a
// file does is not promised. Where a read or a write fails, its error is answered and the buffers keep their sizes; that no other error
// comes is to be read in the code, where each is passed on by `?`.
// Document 01, "The bench".

#![tactic(auto)]

ghost use Rattle.std.specs.Prelude.{◌≡◌, true, ◌+◌, ◌≤◌, ◌<◌, length, take, drop, Some, None};
ghost use Rattle.std.specs.Prelude.{IfOk, OnOk, OnErr, IfSome, MatchOption};
ghost use Rattle.std.specs.Io.KnownBytes.{Appends};
ghost use Rattle.records.specs.Records.{ram_max, record_max, decode};
ghost use Rattle.replay.specs.Replay.{replay};
ghost use Rattle.window.specs.Window.{window_of, Inside};
ghost use Rattle.player.specs.Stands.{Enough, Holds, offset_end};
ghost use Rattle.player.specs.Turns.{gathered_max, room_min, kept_at, flushed, size_of, kinds_in, Fresh};
ghost use Rattle.player.specs.Turns.{Acted, Turned, Printed, Replayed, Untouched, Broken};
ghost use Rattle.player.specs.Streams.{shown, TurnedOn, EndedOn, PrintedOn};

use controller::Controller;
use layout::{DESC_BYTES, DESC_WORDS, Lengths, Memory, Words};
use records::{BadRecord, RAM_MAX, RECORD_MAX, Record, decode_record, put_bad};
use registers::{STATE, State};
use replay::{play, put_totals};
use std::io;
use std::io::{Read, Write};
use std::ops::ControlFlow;
use window::Window;

// Lines are written out where more than this many bytes of them are gathered.
const GATHERED: usize = 4096;

// Where the kinds of a first record stand: behind its mark and N.
const KINDS_AT: usize = 4; // as `RAM_HEAD` of records, which is its own

// The tables of a machine: descriptor memory, the guard's small state, words in use and lengths. Its kinds are so many as the first record
// has, a part of an array, and are lent beside them.
#[derive(Drop)]
struct Tables {
    mem: Memory,
    state: State,
    used: Words,
    lens: Lengths,
}

// The run between two records: the controller, where the next line goes, the window, and the next record's offset.
#[derive(Drop)]
struct Run {
    ctl: Controller,
    at: usize,
    window: Window,
    offset: u64,
}

// The end of a run: how many bytes were handed to the write last, and whether the input had been read to its end.
#[derive(Drop)]
pub struct Last {
    pub end: usize,
    pub ended: bool,
}

impl Tables {
    // Those of a fresh machine.
    fn fresh() -> Tables
        ensures { Fresh result.mem result.state result.used result.lens }
    {
        Tables {
            mem: [0; DESC_BYTES],
            state: [0; STATE],
            used: [0; DESC_WORDS],
            lens: [0; DESC_WORDS],
        }
    }
}

// Reader, writer and the two buffers stay apart in every signature: a struct of loans would need a clause on each.

// Writes the lines gathered so far where they are many, and gives how many bytes of them are kept. It fails only where they are many.
fn flush<W: Write>(to: &mut W, out: &[u8], at: usize) -> io::Result<usize>
    requires { at ≤ length out.now }
    ensures kept { IfOk result (λ n. n ≡ kept_at at) }
    ensures wrote { OnOk result (Appends (W.contents to.old) (W.contents to.new) (flushed at out.now)) }
    ensures failed { OnErr result (gathered_max < at) }
{
    if at <= GATHERED {
        return Ok(at);
    }
    to.write_all(&out[..at])?;
    Ok(0)
}

// What was decoded is played, or the last line, behind those gathered, is written out with them and ends the run. It fails only there, and
// then the machine stands as it stood.
fn act<W: Write>(
    to: &mut W,
    d: Result<Option<(Record, usize)>, BadRecord>,
    s: Run,
    tables: &mut Tables,
    kinds: &mut [u8],
    out: &mut [u8],
) -> io::Result<ControlFlow<Last, Run>>
    requires { (s.window.from + size_of d ≤ s.window.len) × (s.at ≤ gathered_max) × (room_min ≤ length out.old) }
    ensures acted { IfOk result (λ r. Acted d s.window s.ctl s.at s.offset
        tables.old.mem kinds.old tables.old.state tables.old.used tables.old.lens out.old r
        tables.new.mem kinds.new tables.new.state tables.new.used tables.new.lens out.new) }
    ensures wrote { IfOk result (λ r. Appends (W.contents to.old) (W.contents to.new) (shown r out.new)) }
    ensures failed { OnErr result ((size_of d ≡ 0) × Untouched
        tables.old.mem kinds.old tables.old.state tables.old.used tables.old.lens
        tables.new.mem kinds.new tables.new.state tables.new.used tables.new.lens) }
{
    let end = match d {
        Ok(Some((record, n))) => {
            let played = play(
                record,
                s.ctl,
                &mut tables.mem,
                kinds,
                &mut tables.state,
                &mut tables.used,
                &mut tables.lens,
                out,
                s.at,
            );
            return Ok(ControlFlow::Continue(Run {
                ctl: played.ctl,
                at: played.end,
                window: s.window.pass(n),
                offset: s.offset.saturating_add(n as u64),
            }));
        }
        Ok(None) => put_totals(s.ctl, out, s.at),
        Err(BadRecord) => put_bad(out, s.at, s.offset),
    };
    to.write_all(&out[..end])?;
    Ok(ControlFlow::Break(Last {
        end,
        ended: s.window.ended,
    }))
}

// One turn: the window filled, the lines written where they are many, one record played. Where the read or a write fails, the machine
// stands as it stood.
fn take_turn<R: Read, W: Write>(
    source: &mut R,
    to: &mut W,
    input: &mut [u8],
    s: Run,
    tables: &mut Tables,
    kinds: &mut [u8],
    out: &mut [u8],
) -> io::Result<ControlFlow<Last, Run>>
    requires { (record_max ≤ length input.old) × (room_min ≤ length out.old) × Holds s input.old out.old }
    ensures turned { IfOk result (λ r. Turned s
        tables.old.mem kinds.old tables.old.state tables.old.used tables.old.lens input.old out.old r
        tables.new.mem kinds.new tables.new.state tables.new.used tables.new.lens input.new out.new) }
    ensures on { IfOk result (λ r. TurnedOn (R.remaining source.old) (R.remaining source.new) (W.contents to.old) (W.contents to.new) s
        tables.old.mem kinds.old tables.old.state tables.old.used tables.old.lens input.old out.old r
        tables.new.mem kinds.new tables.new.state tables.new.used tables.new.lens input.new out.new) }
    ensures failed { OnErr result (Untouched
        tables.old.mem kinds.old tables.old.state tables.old.used tables.old.lens
        tables.new.mem kinds.new tables.new.state tables.new.used tables.new.lens) }
{
    let window = s.window.refill(source, input, RECORD_MAX)?;
    let at = flush(to, out, s.at)?;
    let d = decode_record(window.bytes(input), false);
    act(to, d, Run { at, window, ..s }, tables, kinds, out)
}

// Turns until the run is over. Each takes a byte at least, so the last of them goes on only where 2^64 bytes were read. Where the read or
// a write of one fails, the machine stands as the turns before it left it.
fn replay_rest<R: Read, W: Write>(
    source: &mut R,
    to: &mut W,
    input: &mut [u8],
    first: Run,
    tables: &mut Tables,
    kinds: &mut [u8],
    out: &mut [u8],
) -> io::Result<Last>
    requires { (record_max ≤ length input.old) × (room_min ≤ length out.old) × Holds first input.old out.old × (0 < first.offset) }
    ensures on { IfOk result (λ e. EndedOn (R.remaining source.old) (R.remaining source.new) (W.contents to.old) (W.contents to.new) first
        tables.old.mem kinds.old tables.old.state tables.old.used tables.old.lens input.old out.old e out.new) }
    ensures failed { OnErr result (Broken first
        tables.old.mem kinds.old tables.old.state tables.old.used tables.old.lens input.old out.old
        tables.new.mem kinds.new tables.new.state tables.new.used tables.new.lens) }
{
    let mut s = first;
    for _ in 0..u64::MAX {
        // three arms in place of `?`, which copies the run once more
        match take_turn(source, to, input, s, tables, kinds, out) {
            Ok(ControlFlow::Continue(next)) => s = next,
            Ok(ControlFlow::Break(last)) => return Ok(last),
            Err(e) => return Err(e),
        }
    }
    Ok(Last {
        end: s.at,
        ended: s.window.ended,
    })
}

// The kinds of the first record, where the input begins with one.
fn first_kinds(bs: &[u8]) -> Option<&[u8]>
    ensures count { MatchOption result (kinds_in (decode true bs.now) ≡ None)
        (λ ks. kinds_in (decode true bs.now) ≡ Some (length ks.now)) }
    ensures kinds { IfSome result (λ ks. ks.now ≡ take (length ks.now) (drop 4 bs.now)) }
{
    match decode_record(bs, true) {
        Ok(Some((Record::Ram(_), size))) => Some(&bs[KINDS_AT..size]),
        _ => None,
    }
}

// The kinds of the first record into the table, one by one, so that a kind that is lost can be planted.
fn copy_kinds(listed: &[u8], kinds: &mut [u8])
    requires { length kinds.old ≡ length listed.now }
    ensures { kinds.new ≡ listed.now }
{
    for i in 0..listed.len() {
        kinds[i] = listed[i];
    }
}

// The whole input, whose first bytes stand in the window, on the tables of a fresh machine. Where a read or a write fails, nothing is
// known of what the two buffers hold.
fn play_input<R: Read, W: Write>(
    source: &mut R,
    to: &mut W,
    input: &mut [u8],
    w: Window,
    tables: &mut Tables,
    kinds: &mut [u8],
    out: &mut [u8],
) -> io::Result<Last>
    requires { (record_max ≤ length input.old) × (room_min ≤ length out.old) × (length kinds.old ≡ ram_max)
        × Inside w input.old × Enough (window_of w input.old) w.ended
        × Fresh tables.old.mem tables.old.state tables.old.used tables.old.lens }
    ensures printed { IfOk result (λ r. Printed (window_of w input.old) r out.new) }
    ensures on { IfOk result (λ r. PrintedOn (R.remaining source.old) (R.remaining source.new) (W.contents to.old) (W.contents to.new)
        w.ended (window_of w input.old) r out.new) }
    ensures failed { OnErr result ((length input.new ≡ length input.old) × (length out.new ≡ length out.old)) }
{
    let Some(listed) = first_kinds(w.bytes(input)) else {
        let end = put_bad(out, 0, 0);
        to.write_all(&out[..end])?;
        return Ok(Last {
            end,
            ended: w.ended,
        });
    };
    let kinds = &mut kinds[..listed.len()];
    copy_kinds(listed, kinds);
    let size = KINDS_AT + listed.len();
    let first = Run {
        ctl: controller::fresh(),
        at: 0,
        window: w.pass(size),
        offset: size as u64,
    };
    replay_rest(source, to, input, first, tables, kinds, out)
}

// All that is read from `source` is replayed, and its lines are written to `to`. The two buffers are lent: the input has room for any
// record, the output for the lines gathered and those of a record. Where a read or a write fails its error is answered, and the buffers
// keep their sizes: nothing is known of what they hold.
pub fn replay_file<R: Read, W: Write>(
    source: &mut R,
    to: &mut W,
    input: &mut [u8],
    out: &mut [u8],
) -> io::Result<Last>
    requires { (record_max ≤ length input.old) × (room_min ≤ length out.old) }
    ensures replayed { IfOk result (λ r. Replayed input.old r out.new) }
    ensures written { OnOk result (IfSome (R.remaining source.old) (λ bs. length bs < offset_end
        → Appends (W.contents to.old) (W.contents to.new) (replay bs))) }
    ensures failed { OnErr result ((length input.new ≡ length input.old) × (length out.new ≡ length out.old)) }
{
    let mut tables = Tables::fresh();
    let mut kinds = [0; RAM_MAX];
    let none = Window {
        from: 0,
        len: 0,
        ended: false,
    };
    let w = none.refill(source, input, RECORD_MAX)?;
    play_input(source, to, input, w, &mut tables, &mut kinds, out)
}
