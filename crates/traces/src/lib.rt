// The judging of a trace: its steps taken one after the other, up to the first that is not enabled.
#![tactic(auto)]

ghost use Rattle.std.specs.Prelude.{◌≡◌, ◌<◌, get_or};
ghost use Rattle.number.specs.Reader.{refused as unread_as};
ghost use Rattle.storage_model.specs.Subsystem.{refused, run as run_of};
ghost use Rattle.storage_model.specs.Answers.{ran_answer, judge_trace_out, judge_trace};
ghost use Rattle.storage.specs.Held.{held};
ghost use Rattle.trace_reader.specs.Held.{step_of};
ghost use Rattle.trace_reader.specs.Fields.{model_step};
ghost use Rattle.transitions.specs.Steps.{Took, number_of as condition_number};
ghost use Rattle.traces.specs.Shown.{trace_of, GoodTrace, Fitting, start_of, trace_shown};

use number::Refusal;
use storage::Storage;
use trace_reader::{Kind, Step, Trace};
use transitions::{Condition, State};

// A step is not enabled.
const NOT_ENABLED: u32 = 31;

// The answer about a trace. Its fields and their order are those of litmus_trace_answer in include/litmus.h, which says what each holds.
#[repr(C)]
#[derive(Clone, Copy)]
pub struct TraceAnswer {
    pub number: u32,
    pub condition: u32,
    pub place: usize,
    pub step: usize,
    pub length: usize,
    pub end: Storage,
}

// The answer where the trace can't be read.
fn unread(refusal: Refusal) -> TraceAnswer
    ensures { result ≡ trace_shown (judge_trace_out (unread_as refusal)) }
{
    TraceAnswer {
        number: u32::from(refusal.fault),
        condition: 0,
        place: refusal.place,
        step: 0,
        length: 0,
        end: Storage::empty(),
    }
}

// The answer where a step is not enabled: that step, and the first of its conditions that fails.
fn not_enabled(step: usize, condition: Condition) -> TraceAnswer
    ensures { result ≡ trace_shown (ran_answer 0 (refused step (condition_number condition))) }
{
    TraceAnswer {
        number: NOT_ENABLED,
        condition: u32::from(condition),
        place: 0,
        step,
        length: 0,
        end: Storage::empty(),
    }
}

// The state before the first step.
fn start(trace: &Trace) -> Storage
    requires { GoodTrace trace.now }
    ensures { result ≡ held (start_of trace.now) }
{
    let initial = trace.initial;
    let mut out = Storage::empty();
    out.threads = trace.threads;
    out.addresses = trace.addresses;
    out.initial = initial;
    out
}

// Step i of the trace.
fn step_at(trace: &Trace, i: usize) -> Step
    requires good { GoodTrace trace.now }
    requires i_lt_steps { i < trace.now.steps }
    ensures { model_step result ≡ step_of (get_or trace.now.kind i 0) (get_or trace.now.first i 0) (get_or trace.now.second i 0) (get_or trace.now.value i 0) }
{
    match Kind::try_from(trace.kind[i]) {
        Ok(kind) => Step {
            kind,
            first: trace.first[i],
            second: trace.second[i],
            value: trace.value[i],
        },
        Err(_) => unreachable!(),
    }
}

// Takes a step.
fn step(state: &State, step: Step) -> Result<Storage, Condition>
    requires { Fitting state.now.storage.now (model_step step) }
    ensures { Took state.now.storage.now (model_step step) result }
{
    let x = usize::from(step.first);
    let y = usize::from(step.second);
    match step.kind {
        Kind::AcceptWrite => Ok(state.accept_write(x, y, step.value)),
        Kind::AcceptBarrier => Ok(state.accept_barrier(x, y)),
        Kind::PropagateWrite => state.propagate_write(x, y),
        Kind::PropagateBarrier => state.propagate_barrier(x, y),
        Kind::Commit => state.commit(x, y),
        Kind::Respond => state.respond(x, y, step.value),
        Kind::Acknowledge => state.acknowledge(x),
    }
}

// Takes the steps of a trace of so many bytes, up to the first that is not enabled.
fn run(trace: &Trace, length: usize) -> TraceAnswer
    requires { GoodTrace trace.now }
    ensures { result ≡ trace_shown (ran_answer length (run_of (trace_of trace.now))) }
{
    let mut end = start(trace);
    for i in 0..trace.steps {
        let state = State { storage: &end };
        let taken = step(&state, step_at(trace, i));
        match taken {
            Ok(next) => end = next,
            Err(condition) => return not_enabled(i, condition),
        }
    }
    TraceAnswer {
        number: 0,
        condition: 0,
        place: 0,
        step: 0,
        length,
        end,
    }
}

// The answer about the trace that the bytes start with; what lies behind it is not read.
pub fn judge(bytes: &[u8]) -> TraceAnswer
    ensures { result ≡ trace_shown (judge_trace bytes.now) }
{
    match trace_reader::read(bytes) {
        Ok((trace, length)) => run(&trace, length),
        Err(refusal) => unread(refusal),
    }
}
