// The machine: guard and controller over one descriptor memory, one operation at a time.
// Promises: a guest write, a kind change, a frame and a step of an engine leave exactly the controller, the guard's small state with its
// words in use and lengths, the descriptor memory and the kinds that the definitions `apply_write`, `apply_kind`, `apply_frame` and
// `apply_step` give, with their answer and burst. Before a guard call the registers in its small state are read from the controller; an
// accepted write reaches the controller as a write that no guard has judged; frames and steps leave the guard's part alone.
// Document 01, "Answers by number", "The controller's steps".

#![tactic(auto)]

ghost use Rattle.std.specs.Prelude.{◌≡◌, List, ℕ};
ghost use Rattle.layout.specs.Refusals.{fault};
ghost use Rattle.machine.specs.Machine.{answer_of, apply_write, apply_kind, apply_frame, apply_step};
ghost use Rattle.machine.specs.After.{machine_at, Leaves, Moves, left_alone, met, reached_by};

use controller::{Arrived, Controller, Stepped, unguarded_write};
use guard::{Answer, Effect, answer_number, guest_write};
use host::{hosted, hosted_frame};
use kinds::kind_change;
use layout::{Lengths, Refusal, Words};
use phases::{Burst, Engine};
use registers::{State, load_registers};

// The controller, the answer and the burst after an operation.
#[derive(Drop)]
pub struct After {
    pub ctl: Controller,
    pub answer: Answer,
    pub burst: Burst,
}

// What the controller has told, as an answer. A match and no `told.map(..).into()`: of `map` the clause tells its cases by the closure, and
// the proof did not close.
fn plain(told: Result<(), Refusal>) -> Answer
    ensures { result ≡ answer_of (fault told) }
{
    match told {
        Ok(()) => Answer::Accepted(Effect::Plain),
        Err(refusal) => Answer::Refused(u8::from(refusal)),
    }
}

// The controller as it is, under an answer.
fn keep(ctl: Controller, answer: Answer) -> After
    ensures { result ≡ left_alone ctl answer }
{
    After {
        ctl,
        answer,
        burst: Burst::Quiet,
    }
}

// The controller's own answer to an accepted write: 22 there is the answer. By hand: another answer goes with an accepted one.
fn meet(s: Stepped, answer: Answer) -> After
    ensures { result ≡ met s.ctl (fault s.answer) answer }
{
    match s.answer {
        Ok(()) => keep(s.ctl, answer),
        Err(refusal) => keep(s.ctl, Answer::Refused(u8::from(refusal))),
    }
}

// What the guard has answered is carried out: an accepted write goes on to the controller. By its number, since a refusal 0 counts so too.
fn carry_out(a: u32, v: u32, c: Controller, answer: Answer, m: &mut [u8]) -> After
    ensures { (result, m.new) ≡ reached_by a v c answer m.old }
{
    if answer_number(answer) != 0 {
        return keep(c, answer);
    }
    meet(unguarded_write(c, m, a, v), answer)
}

// A guest write of v to address a. What it changes is lent one by one, since memory and kinds may have any size here, a public promise.
pub fn apply_write(
    a: u32,
    v: u32,
    c: Controller,
    m: &mut [u8],
    kinds: &[u8],
    t: &mut State,
    used: &mut Words,
    lens: &mut Lengths,
) -> After
    ensures { Leaves
        (apply_write a v (machine_at c m.old kinds.now t.old used.old lens.old)) result
        m.new kinds.now t.new used.new lens.new }
{
    load_registers(t, &c.state);
    let answer = guest_write(a, v, m, kinds, t, used, lens);
    carry_out(a, v, c, answer, m)
}

// The change of a block's kind.
pub fn apply_kind(
    block: u32,
    kind: u32,
    c: Controller,
    m: &[u8],
    kinds: &mut [u8],
    t: &mut State,
    used: &mut Words,
    lens: &mut Lengths,
) -> After
    ensures { Leaves
        (apply_kind block kind (machine_at c m.now kinds.old t.old used.old lens.old))
        result
        m.now kinds.new t.new used.new lens.new }
{
    load_registers(t, &c.state);
    keep(c, kind_change(block, kind, m, kinds, t, used, lens))
}

// A frame of n bytes comes.
pub fn apply_frame(n: u32, c: Controller) -> After
    ensures { (m : List ℕ) → Moves (apply_frame n) c m result m }
{
    let Arrived { ctl, answer } = hosted_frame(c, n);
    keep(ctl, plain(answer))
}

// One step of an engine.
pub fn apply_step(e: Engine, c: Controller, m: &mut [u8]) -> After
    ensures { Moves (apply_step e) c m.old result m.new }
{
    let Stepped { ctl, burst, answer } = hosted(c, m, e);
    let answer = plain(answer);
    After { ctl, answer, burst }
}
