// The reading of a trace of the storage subsystem from its bytes.
#![tactic(auto)]

ghost use Rattle.std.specs.Prelude.{◌≡◌, [], ◌≤◌, ◌<◌, eqb, length, replicate, IfOk};
ghost use Rattle.finite.specs.Tests.{tick};
ghost use Rattle.number.specs.Reader.{turns, within, outcome_by};
ghost use Rattle.model.specs.Limits.{most_addresses};
ghost use Rattle.storage_model.specs.Limits.{most_kind, most_steps};
ghost use Rattle.storage_model.specs.Layout.{room_for, step, next_step, listing, read_trace};
ghost use Rattle.reader.specs.Answers.{Counts, Stores, StoresCounted};
ghost use Rattle.trace_reader.specs.Held.{empty_trace, reading_shown};
ghost use Rattle.trace_reader.specs.Kinds.{number_of, Numbered};
ghost use Rattle.trace_reader.specs.Fields.{first_count, second_count, has_value, second_field, any_fields, model_step, Exact, Steps, Listing, TraceRead};

use case::Case;
use number::{Fault, Refusal};
use storage::Storage;

// A trace. Its fields and their order are those of litmus_steps in include/litmus.h.
#[repr(C)]
#[derive(Clone, Copy)]
pub struct Trace {
    // how many threads and addresses
    pub threads: usize,
    pub addresses: usize,
    // by address
    pub initial: [u32; Case::MOST_ADDRESSES],
    // how many steps; by step the number of its kind and its fields, 0 for those that the kind does not have
    pub steps: usize,
    pub kind: [u8; Trace::MOST_STEPS],
    pub first: [u8; Trace::MOST_STEPS],
    pub second: [u8; Trace::MOST_STEPS],
    pub value: [u32; Trace::MOST_STEPS],
}

// What reading a trace gives: 0, the trace's length in bytes and the trace; or a refusal, its place and the empty trace.
#[repr(C)]
#[derive(Clone, Copy)]
pub struct TraceReading {
    pub number: u32,
    pub place: usize,
    pub length: usize,
    pub trace: Trace,
}

// The kinds of steps. The numbers are those that stand in a trace.
#[derive(Clone, Copy, Debug, PartialEq, Eq)]
pub enum Kind {
    AcceptWrite = 1,
    AcceptBarrier = 2,
    PropagateWrite = 3,
    PropagateBarrier = 4,
    Commit = 5,
    Respond = 6,
    Acknowledge = 7,
}

impl From<Kind> for u8 {
    ghost from_gives = { λ kind n. n ≡ number_of kind };

    fn from(kind: Kind) -> u8 {
        kind as u8
    }
}

// No kind has the number.
#[derive(Clone, Copy, Debug, PartialEq, Eq)]
pub struct NoKind;

impl TryFrom<u8> for Kind {
    type Error = NoKind;

    ghost try_from_gives = { Numbered };

    fn try_from(number: u8) -> Result<Self, NoKind> {
        match number {
            1 => Ok(Kind::AcceptWrite),
            2 => Ok(Kind::AcceptBarrier),
            3 => Ok(Kind::PropagateWrite),
            4 => Ok(Kind::PropagateBarrier),
            5 => Ok(Kind::Commit),
            6 => Ok(Kind::Respond),
            7 => Ok(Kind::Acknowledge),
            _ => Err(NoKind),
        }
    }
}

// A step: its kind and its fields, 0 for those that the kind does not have.
#[derive(Clone, Copy)]
pub struct Step {
    pub kind: Kind,
    pub first: u8,
    pub second: u8,
    pub value: u32,
}

// How many threads and addresses a trace has.
#[derive(Clone, Copy)]
struct Head {
    threads: usize,
    addresses: usize,
    ghost in_range: { Counts threads addresses },
}

impl Trace {
    pub const MOST_STEPS: usize = 128;

    pub const MOST_KIND: u8 = Kind::Acknowledge as u8;

    // A trace with nothing in it, which no bytes give: what stands beside a refusal.
    pub fn empty() -> Trace
        ensures { result ≡ empty_trace }
    {
        Trace {
            threads: 0,
            addresses: 0,
            initial: [0u32; Case::MOST_ADDRESSES],
            steps: 0,
            kind: [0u8; Trace::MOST_STEPS],
            first: [0u8; Trace::MOST_STEPS],
            second: [0u8; Trace::MOST_STEPS],
            value: [0u32; Trace::MOST_STEPS],
        }
    }
}

impl Kind {
    // Whether a step of the kind may follow so many writes and barriers.
    #[tactic(auto, unfolding(storage_model::specs::Layout::room_for))]
    fn has_room(self, writes: usize, barriers: usize) -> bool
        ensures { result ≡ room_for writes barriers (number_of self) }
    {
        match self {
            Kind::AcceptWrite => writes < Storage::MOST_WRITES,
            Kind::AcceptBarrier => barriers < Storage::MOST_BARRIERS,
            _ => true,
        }
    }

    // How many threads, writes or barriers there are of which a step's first field names one.
    #[tactic(auto, unfolding(crate::specs::Fields::first_count))]
    fn first_count(self, threads: usize, writes: usize, barriers: usize) -> usize
        ensures { result ≡ first_count (number_of self) threads writes barriers }
    {
        match self {
            Kind::PropagateWrite | Kind::Commit => writes,
            Kind::PropagateBarrier | Kind::Acknowledge => barriers,
            Kind::AcceptWrite | Kind::AcceptBarrier | Kind::Respond => threads,
        }
    }

    // Whether steps of the kind have a value.
    #[tactic(auto, unfolding(crate::specs::Fields::has_value))]
    fn has_value(self) -> bool
        ensures { result ≡ has_value (number_of self) }
    {
        matches!(self, Kind::AcceptWrite | Kind::Respond)
    }

    // How many threads, addresses, classes or writes there are of which a step's second field names one.
    #[tactic(auto, unfolding(crate::specs::Fields::second_count, crate::specs::Fields::has_value))]
    fn second_count(self, threads: usize, addresses: usize, writes: usize) -> usize
        ensures { result ≡ second_count (number_of self) threads addresses writes }
    {
        match self {
            Kind::AcceptWrite | Kind::Respond => addresses,
            Kind::AcceptBarrier => Storage::CLASSES,
            Kind::Commit => writes,
            Kind::PropagateWrite | Kind::PropagateBarrier | Kind::Acknowledge => threads,
        }
    }
}

// Reads the number of a kind.
fn read_kind(bytes: &[u8], at: usize) -> Result<(Kind, usize), Refusal>
    ensures { outcome_by number_of result ≡ within 1 most_kind bytes.now at }
{
    let (number, next) = number::read_within(bytes, at, 1, Trace::MOST_KIND as u32)?;
    match Kind::try_from(number as u8) {
        Ok(kind) => Ok((kind, next)),
        Err(_) => unreachable!(),
    }
}

// Reads the second field of a step, which is below count, and the value if the kind has one.
#[tactic(auto, unfolding(crate::specs::Fields::second_field, crate::specs::Fields::value_field, number::specs::Reader::up_to))]
fn read_second(
    bytes: &[u8],
    at: usize,
    kind: Kind,
    first: u8,
    count: usize,
) -> Result<(Step, usize), Refusal>
    requires kind_lt_most_kind { number_of kind < most_kind }
    requires count_le_most_steps { count ≤ most_steps }
    ensures same { outcome_by model_step result ≡ second_field (number_of kind) first count bytes.now at }
    ensures exact { IfOk result (λ r. Exact r.0) }
{
    let (second, after_second) = number::read_under(bytes, at, count as u32)?;
    let second = second as u8;
    if !kind.has_value() {
        let step = Step {
            kind,
            first,
            second,
            value: 0,
        };
        return Ok((step, after_second));
    }
    let (value, after_value) = number::read_number(bytes, after_second, Case::MOST_VALUE)?;
    let step = Step {
        kind,
        first,
        second,
        value,
    };
    Ok((step, after_value))
}

// Reads the fields of a step, of which the first and the second are below these counts.
#[tactic(auto, unfolding(crate::specs::Fields::any_fields))]
fn read_fields(
    bytes: &[u8],
    at: usize,
    kind: Kind,
    firsts: usize,
    seconds: usize,
) -> Result<(Step, usize), Refusal>
    requires { (firsts ≤ most_steps) × (seconds ≤ most_steps) }
    ensures same { outcome_by model_step result ≡ any_fields (number_of kind) firsts seconds bytes.now at }
    ensures exact { IfOk result (λ r. Exact r.0) }
{
    let (first, after_first) = number::read_under(bytes, at, firsts as u32)?;
    let first = first as u8;
    match kind {
        Kind::Acknowledge => {
            let step = Step {
                kind,
                first,
                second: 0,
                value: 0,
            };
            Ok((step, after_first))
        }
        _ => read_second(bytes, after_first, kind, first, seconds),
    }
}

// Reads a step that follows so many writes and barriers.
fn read_step(
    bytes: &[u8],
    at: usize,
    head: Head,
    writes: usize,
    barriers: usize,
) -> Result<(Step, usize), Refusal>
    requires { (writes ≤ most_steps) × (barriers ≤ most_steps) }
    ensures same { outcome_by model_step result ≡ step head.threads head.addresses writes barriers bytes.now at }
    ensures exact { IfOk result (λ r. Exact r.0) }
{
    let (kind, after_kind) = read_kind(bytes, at)?;
    if !kind.has_room(writes, barriers) {
        return Err(Fault::Range.at(at));
    }
    let firsts = kind.first_count(head.threads, writes, barriers);
    let seconds = kind.second_count(head.threads, head.addresses, writes);
    read_fields(bytes, after_kind, kind, firsts, seconds)
}

// What a step of a kind adds to the count of the steps of kind which.
fn counted(kind: Kind, which: Kind) -> usize
    ensures { (result ≡ tick (eqb (number_of kind) (number_of which))) × (result ≤ 1) }
{
    usize::from(u8::from(kind) == u8::from(which))
}

// Reads count steps into four arrays that hold zeros; gives where they end.
// Arrays and not a Trace: the facts of the loop would have to say that the trace's other fields stay as they are.
fn read_steps(
    bytes: &[u8],
    at: usize,
    head: Head,
    count: usize,
    kinds: &mut [u8; Trace::MOST_STEPS],
    firsts: &mut [u8; Trace::MOST_STEPS],
    seconds: &mut [u8; Trace::MOST_STEPS],
    values: &mut [u32; Trace::MOST_STEPS],
) -> Result<usize, Refusal>
    requires count_le_most_steps { count ≤ most_steps }
    requires steps { Steps kinds.old firsts.old seconds.old values.old [] }
    ensures { Stores (Steps kinds.new firsts.new seconds.new values.new) (turns count (next_step head.threads head.addresses) [] bytes.now at) result }
{
    let mut place = at;
    let mut writes: usize = 0;
    let mut barriers: usize = 0;
    for i in 0..count {
        let (step, next) = read_step(bytes, place, head, writes, barriers)?;
        kinds[i] = u8::from(step.kind);
        firsts[i] = step.first;
        seconds[i] = step.second;
        values[i] = step.value;
        writes += counted(step.kind, Kind::AcceptWrite);
        barriers += counted(step.kind, Kind::AcceptBarrier);
        place = next;
    }
    Ok(place)
}

// Reads the initial values and the steps into arrays that hold zeros; gives how many steps, and where they end.
fn read_listing(
    bytes: &[u8],
    at: usize,
    head: Head,
    initial: &mut [u32; Case::MOST_ADDRESSES],
    kinds: &mut [u8; Trace::MOST_STEPS],
    firsts: &mut [u8; Trace::MOST_STEPS],
    seconds: &mut [u8; Trace::MOST_STEPS],
    values: &mut [u32; Trace::MOST_STEPS],
) -> Result<(usize, usize), Refusal>
    requires initial_value { initial.old ≡ replicate most_addresses 0 }
    requires steps { Steps kinds.old firsts.old seconds.old values.old [] }
    ensures { StoresCounted (λ t. length t.steps) (Listing head.threads head.addresses initial.new kinds.new firsts.new seconds.new values.new) (listing head.threads head.addresses bytes.now at) result }
{
    let after_initials = reader::read_initials(bytes, at, head.addresses, initial)?;
    let (count, after_count) = number::read_number(
        bytes,
        after_initials,
        Trace::MOST_STEPS as u32,
    )?;
    let count = count as usize;
    let end = read_steps(
        bytes,
        after_count,
        head,
        count,
        kinds,
        firsts,
        seconds,
        values,
    )?;
    Ok((count, end))
}

// Reads what follows the counts of threads and addresses; gives the trace and where it ends.
fn read_body(bytes: &[u8], at: usize, head: Head) -> Result<(Trace, usize), Refusal>
    ensures { TraceRead (listing head.threads head.addresses bytes.now at) result }
{
    let mut initial = [0u32; Case::MOST_ADDRESSES];
    let mut kind = [0u8; Trace::MOST_STEPS];
    let mut first = [0u8; Trace::MOST_STEPS];
    let mut second = [0u8; Trace::MOST_STEPS];
    let mut value = [0u32; Trace::MOST_STEPS];
    let (steps, end) = read_listing(
        bytes,
        at,
        head,
        &mut initial,
        &mut kind,
        &mut first,
        &mut second,
        &mut value,
    )?;
    let trace = Trace {
        threads: head.threads,
        addresses: head.addresses,
        initial,
        steps,
        kind,
        first,
        second,
        value,
    };
    Ok((trace, end))
}

// Reads the trace that the bytes start with, and gives its length; what lies behind it is not read.
pub fn read(bytes: &[u8]) -> Result<(Trace, usize), Refusal>
    ensures { TraceRead (read_trace bytes.now) result }
{
    let (threads, after_threads) = number::read_within(bytes, 0, 1, Case::MOST_THREADS as u32)?;
    let (addresses, after_addresses) = number::read_within(
        bytes,
        after_threads,
        1,
        Case::MOST_ADDRESSES as u32,
    )?;
    let head = Head {
        threads: threads as usize,
        addresses: addresses as usize,
    };
    read_body(bytes, after_addresses, head)
}

// The same, as the struct that C gets.
pub fn read_trace(bytes: &[u8]) -> TraceReading
    ensures { result ≡ reading_shown (read_trace bytes.now) }
{
    match read(bytes) {
        Ok((trace, length)) => TraceReading {
            number: 0,
            place: 0,
            length,
            trace,
        },
        Err(refusal) => TraceReading {
            number: u32::from(refusal.fault),
            place: refusal.place,
            length: 0,
            trace: Trace::empty(),
        },
    }
}
