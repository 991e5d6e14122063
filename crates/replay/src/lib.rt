// One record of a bench file, played on the machine, with the lines that it prints: what happened, and how it is printed.
// Promises: the machine afterwards and the bytes stored in the lent buffer are those of the definition `record_of`; nothing else of the
// buffer changes. Document 01, "The bench".

#![tactic(auto)]

ghost use Rattle.std.specs.Prelude.{◌≡◌, ◌+◌, ◌*◌, ◌≤◌, length};
ghost use Rattle.machine.specs.After.{machine_at};
ghost use Rattle.records.specs.Lines.{line_max, line_of, sent_line, Prints};
ghost use Rattle.replay.specs.Replay.{steps_of, record_of};
ghost use Rattle.replay.specs.Plays.{Plays, Goes};

use controller::Controller;
use guard::answer_number;
use layout::{Lengths, Words};
use machine::{After, apply_frame, apply_kind, apply_step, apply_write};
use phases::Engine;
use records::{Event, Record, put_event, put_sent};
use registers::State;

// The controller after a record or some steps, and where the lines end.
#[derive(Drop)]
pub struct Played {
    pub ctl: Controller,
    pub end: usize,
}

// The line of what happened, with the controller after it.
fn show(ctl: Controller, e: Event, out: &mut [u8], at: usize) -> Played
    requires { at + line_max ≤ length out.old }
    ensures end_bound { result.end ≤ at + line_max }
    ensures ctl { result.ctl ≡ ctl }
    ensures text { Prints out.old at (line_of e) out.new result.end }
{
    Played {
        ctl,
        end: put_event(out, at, e),
    }
}

// One step, and the line of its burst.
fn play_step(e: Engine, c: Controller, m: &mut [u8], out: &mut [u8], at: usize) -> Played
    requires { at + line_max ≤ length out.old }
    ensures end_bound { result.end ≤ at + line_max }
    ensures goes { Goes (steps_of e 1) c m.old result m.new out.old at out.new }
{
    let After { ctl, burst, .. } = apply_step(e, c, m);
    show(ctl, Event::Moved(burst), out, at)
}

// So many steps of one engine.
fn play_steps(e: Engine, n: u8, c: Controller, m: &mut [u8], out: &mut [u8], at: usize) -> Played
    requires { at + line_max * 256 ≤ length out.old }
    ensures end_bound { result.end ≤ at + line_max * 256 }
    ensures goes { Goes (steps_of e n) c m.old result m.new out.old at out.new }
{
    let mut ran = Played { ctl: c, end: at };
    for _ in 0..n {
        ran = play_step(e, ran.ctl, m, out, ran.end);
    }
    ran
}

// One record on the machine. Its parts come one by one, as machine's operations take them: memory and kinds may have any size.
pub fn play(
    r: Record,
    c: Controller,
    m: &mut [u8],
    kinds: &mut [u8],
    t: &mut State,
    used: &mut Words,
    lens: &mut Lengths,
    out: &mut [u8],
    at: usize,
) -> Played
    requires { at + line_max * 256 ≤ length out.old }
    ensures end_bound { result.end ≤ at + line_max * 256 }
    ensures plays { Plays (record_of r
        (machine_at c m.old kinds.old t.old used.old lens.old)) result
        m.new kinds.new t.new used.new lens.new out.old at
        out.new }
{
    match r {
        Record::Ram(_) => Played { ctl: c, end: at },
        Record::Write(a, v) => {
            let After { ctl, answer, .. } = apply_write(a, v, c, m, kinds, t, used, lens);
            show(ctl, Event::Wrote(a, answer_number(answer)), out, at)
        }
        Record::Kind(block, kind) => {
            let After { ctl, answer, .. } = apply_kind(
                block,
                u32::from(kind),
                c,
                m,
                kinds,
                t,
                used,
                lens,
            );
            show(ctl, Event::Changed(block, answer_number(answer)), out, at)
        }
        Record::Frame(n) => {
            let After { ctl, answer, .. } = apply_frame(u32::from(n), c);
            show(ctl, Event::Framed(n, answer_number(answer)), out, at)
        }
        Record::Steps(e, n) => play_steps(e, n, c, m, out, at),
    }
}

// The line of the totals: packet lengths summed, sent and received.
pub fn put_totals(c: Controller, out: &mut [u8], at: usize) -> usize
    requires { at + line_max ≤ length out.old }
    ensures { Prints out.old at (sent_line c.sent c.received) out.new result }
{
    put_sent(out, at, c.sent, c.received)
}
