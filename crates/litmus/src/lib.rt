// Judging litmus cases for the POWER memory model PPC-Core: what users call. Every function takes any bytes and any numbers.
#![tactic(auto)]

ghost use Rattle.std.specs.Prelude.{◌≡◌, true, eqb, replicate};
ghost use Rattle.permutation.specs.Permutation.{composite as composite_of, inverse as inverse_of, fits as fits_of};
ghost use Rattle.model.specs.Rules.{or_else};
ghost use Rattle.model.specs.Record.{read as read_record};
ghost use Rattle.model.specs.Answers.{answer_of, judge as judge_record, judge_case, write as write_case, renumber_record, renumber_case, name as name_of, judged_name, renumbered_name, room_in};
ghost use Rattle.model.specs.Renumber.{fitting as fitting_of};
ghost use Rattle.case.specs.Held.{case_of};
ghost use Rattle.answers.specs.Shown.{shown, given};
ghost use Rattle.classes.specs.Representative.{representative_record, representative_case, choice as choice_of, lesser as lesser_of};
ghost use Rattle.representatives.specs.Shown.{choice_shown};
ghost use Rattle.log_model.specs.Pieces.{judge_log};
ghost use Rattle.log_pieces.specs.Shown.{answer_shown};
ghost use Rattle.area_model.specs.Area.{frame_at, append as append_area, repair as repair_area};
ghost use Rattle.area.specs.Shown.{frame_shown};
ghost use Rattle.condition_model.specs.Answers.{condition as condition_of, condition_case};
ghost use Rattle.condition.specs.Shown.{condition_shown, condition_given};
ghost use Rattle.storage_model.specs.Layout.{read_trace};
ghost use Rattle.storage_model.specs.Answers.{judge_trace};
ghost use Rattle.trace_reader.specs.Held.{reading_shown};
ghost use Rattle.traces.specs.Shown.{trace_shown};
ghost use Rattle.litmus.specs.Shown.{ModelOf, case_given, case_shown, part_shown, no_part, judged_part, renumbered_part, bytes_of};
ghost use Rattle.litmus.specs.Orders.{too_many, rule11_answer};

pub use answers::Answer;
use answers::{Cause, Refused};
pub use area::Frame;
use case::Case;
pub use condition::ConditionAnswer;
pub use log_pieces::{JudgedLog, LogAnswer, judge_log, judged_part};
use number::Fault;
use reader::Reading;
pub use representatives::Choice;
use rules::{Model, Rule};
pub use storage::Storage;
pub use tally::Tally;
pub use trace_reader::{Trace, TraceReading};
pub use traces::TraceAnswer;

// An answer and its case, which is `Case::empty()` where it was refused.
#[repr(C)]
#[derive(Clone, Copy)]
pub struct CaseAnswer {
    pub answer: Answer,
    pub case: Case,
}

// A part of a record: where it starts and how many bytes it has.
#[repr(C)]
#[derive(Clone, Copy)]
pub struct Part {
    pub at: usize,
    pub length: usize,
}

// The model with this number.
fn model_of(number: u64) -> Result<Model, Refused>
    ensures { ModelOf number result }
{
    Ok(Model::try_from(number)?)
}

// What a call answers that gives a case and the length of its record.
fn case_answer(reading: Result<Reading, Refused>) -> CaseAnswer
    ensures { result ≡ case_given reading }
{
    match reading {
        Ok(reading) => CaseAnswer {
            answer: answers::finished(reading.length),
            case: reading.case,
        },
        Err(e) => CaseAnswer {
            answer: Answer::from(e),
            case: Case::empty(),
        },
    }
}

// Reads a record: 0, its length and its case, or 1 to 4 or 23 and the place.
pub fn read(bytes: &[u8]) -> CaseAnswer
    ensures { result ≡ case_shown (read_record bytes.now) }
{
    case_answer(read_record(bytes))
}

fn read_record(bytes: &[u8]) -> Result<Reading, Refused>
    ensures { case_given result ≡ case_shown (read_record bytes.now) }
{
    Ok(reader::read_case(bytes)?)
}

// Judges a record under model 0 (PPCw) or 1 (PPCs): 7 for any other; the record's 1 to 4 or 23; 11 to 18; or 0 with the finals.
pub fn judge(bytes: &[u8], model: u64) -> Answer
    ensures { result ≡ shown (judge_record model bytes.now) }
{
    answers::given(judge_record(bytes, model))
}

fn judge_record(bytes: &[u8], model: u64) -> Result<Answer, Refused>
    ensures { given result ≡ shown (judge_record model bytes.now) }
{
    let model = model_of(model)?;
    let reading = reader::read_case(bytes)?;
    Ok(answers::judged(reading.case, reading.length, model))
}

// The same of a case: 3, 4 or 23 with place 0 where a field of it is bad. The length is that of its record.
pub fn judge_case(c: Case, model: u64) -> Answer
    ensures { result ≡ shown (judge_case model (case_of c)) }
{
    answers::given(judge_held(c, model))
}

fn judge_held(c: Case, model: u64) -> Result<Answer, Refused>
    ensures { given result ≡ shown (judge_case model (case_of c)) }
{
    let model = model_of(model)?;
    case::check(c)?;
    Ok(answers::judged(c, writer::size(c), model))
}

// Whether a condition in text holds for a record under a model: `judge`'s answer where its number isn't 0; the text's 3, 21 or 22 and the place in it; or
// 0 with length and finals as `judge` gives them, and whether the condition holds.
pub fn condition(bytes: &[u8], model: u64, text: &[u8]) -> ConditionAnswer
    ensures { result ≡ condition_shown (condition_of model bytes.now text.now) }
{
    condition::given(condition_record(bytes, model, text))
}

fn condition_record(bytes: &[u8], model: u64, text: &[u8]) -> Result<ConditionAnswer, Refused>
    ensures { condition_given result ≡ condition_shown (condition_of model bytes.now text.now) }
{
    let model = model_of(model)?;
    let reading = reader::read_case(bytes)?;
    Ok(condition::asked(reading.case, reading.length, model, text))
}

// The same of a case: `judge_case`'s answer where its number isn't 0.
pub fn condition_case(c: Case, model: u64, text: &[u8]) -> ConditionAnswer
    ensures { result ≡ condition_shown (condition_case model (case_of c) text.now) }
{
    condition::given(condition_held(c, model, text))
}

fn condition_held(c: Case, model: u64, text: &[u8]) -> Result<ConditionAnswer, Refused>
    ensures { condition_given result ≡ condition_shown (condition_case model (case_of c) text.now) }
{
    let model = model_of(model)?;
    case::check(c)?;
    Ok(condition::asked(c, writer::size(c), model, text))
}

// Reads a trace: 0, its length and its steps, or 1 to 3 and the place.
pub fn read_trace(bytes: &[u8]) -> TraceReading
    ensures { result ≡ reading_shown (read_trace bytes.now) }
{
    trace_reader::read_trace(bytes)
}

// Takes a trace's steps: 1 to 3 and the place; 31, the first step that is not enabled and the first of its conditions that fails; or 0 with the length and
// the state behind the last step.
pub fn judge_trace(bytes: &[u8]) -> TraceAnswer
    ensures { result ≡ trace_shown (judge_trace bytes.now) }
{
    traces::judge(bytes)
}

// Writes a case's record into the buffer from a place on: 3, 4 or 23 with place 0 for a bad field, then 6.
pub fn write(c: Case, out: &mut [u8], at: usize) -> Answer
    ensures value { result ≡ shown (write_case (case_of c) out.old at).answer }
    ensures out_after { out.new ≡ (write_case (case_of c) out.old at).buffer }
{
    match case::check(c) {
        Ok(()) => answers::put(c, out, at),
        Err(fault) => Answer::from(Refused::from(fault)),
    }
}

// Whether q maps the case's threads onto themselves, and r its addresses.
fn fitting(c: Case, q: u64, r: u64) -> bool
    ensures { result ≡ fitting_of q r (case_of c) }
{
    fits(q, c.threads) && fits(r, c.addresses)
}

// Renumbers a record, threads by the permutation q and addresses by r, into another buffer from a place on: the record's
// 1 to 4 or 23; 5 for a permutation that doesn't fit; 6 for too little room; or 0 and the record's length.
pub fn renumber(bytes: &[u8], q: u64, r: u64, out: &mut [u8], at: usize) -> Answer
    ensures value { result ≡ shown (renumber_record q r bytes.now out.old at).answer }
    ensures out_after { out.new ≡ (renumber_record q r bytes.now out.old at).buffer }
{
    match reader::read_case(bytes) {
        Ok(reading) => {
            let case = reading.case;
            if !fitting(case, q, r) {
                return Answer::from(Refused::from(Cause::NoFit));
            }
            answers::put(relabel::relabel(case, q as usize, r as usize), out, at)
        }
        Err(e) => Answer::from(Refused::from(e)),
    }
}

// Renumbers a case: 3, 4 or 23 with place 0 for a bad field; 5; or 0, the length of its record and the case.
pub fn renumber_case(c: Case, q: u64, r: u64) -> CaseAnswer
    ensures { result ≡ case_shown (renumber_case q r (case_of c)) }
{
    case_answer(renumber_held(c, q, r))
}

fn renumber_held(c: Case, q: u64, r: u64) -> Result<Reading, Refused>
    ensures { case_given result ≡ case_shown (renumber_case q r (case_of c)) }
{
    case::check(c)?;
    if !fitting(c, q, r) {
        return Err(Refused::from(Cause::NoFit));
    }
    let case = relabel::relabel(c, q as usize, r as usize);
    Ok(Reading {
        case,
        length: writer::size(case),
    })
}

// The representative of a record's class, the least of all its renumberings compared byte by byte, into another buffer from a place
// on: the record's 1 to 4 or 23; 6 for too little room; or 0 and the record's length.
pub fn representative(bytes: &[u8], out: &mut [u8], at: usize) -> Answer
    ensures value { result ≡ shown (representative_record bytes.now out.old at).answer }
    ensures out_after { out.new ≡ (representative_record bytes.now out.old at).buffer }
{
    representatives::representative(bytes, out, at)
}

// The same of a case: 3, 4 or 23 with place 0 for a bad field; or 0, the length of its record and the case.
pub fn representative_case(c: Case) -> CaseAnswer
    ensures { result ≡ case_shown (representative_case (case_of c)) }
{
    case_answer(represent_held(c))
}

fn represent_held(c: Case) -> Result<Reading, Refused>
    ensures { case_given result ≡ case_shown (representative_case (case_of c)) }
{
    case::check(c)?;
    let case = least::representative(c);
    Ok(Reading {
        case,
        length: writer::size(case),
    })
}

// Which of two records is the lesser, compared byte by byte: 1, also where they are equal, or 2, and its length; 0 and 0 where either
// can't be read. Bytes behind them have no say.
pub fn compared(first: &[u8], second: &[u8]) -> Choice
    ensures { result ≡ choice_shown (choice_of first.now second.now) }
{
    representatives::compared(first, second)
}

// The lesser of two records itself, the first if they are equal; an empty part where either can't be read.
pub fn lesser<'a>(first: &'a [u8], second: &'a [u8]) -> &'a [u8]
    ensures { result.now ≡ lesser_of first.now second.now }
{
    representatives::lesser(first, second)
}

// The name of a record, as a part of it; empty where it can't be read.
pub fn name<'a>(bytes: &'a [u8]) -> &'a [u8]
    ensures { result.now ≡ name_of bytes.now }
{
    reader::name(bytes)
}

// The name beside `judge`: empty under 1 to 4, 7 and 23.
pub fn judged_name<'a>(bytes: &'a [u8], model: u64) -> &'a [u8]
    ensures { result.now ≡ judged_name model bytes.now }
{
    match model_of(model) {
        Ok(_) => reader::name(bytes),
        Err(_) => &bytes[..0],
    }
}

// Whether `renumber` into a buffer of so many bytes is done.
fn renumbers(bytes: &[u8], q: u64, r: u64, room: usize, at: usize) -> bool
    ensures { result ≡ eqb (renumber_record q r bytes.now (replicate room 0) at).answer.number 0 }
{
    match reader::read_case(bytes) {
        Ok(reading) => fitting(reading.case, q, r) && has_room(reading.length, room, at),
        Err(_) => false,
    }
}

// The name beside `renumber` into a buffer of so many bytes: empty under 1 to 6 and 23.
pub fn renumbered_name<'a>(bytes: &'a [u8], q: u64, r: u64, room: usize, at: usize) -> &'a [u8]
    ensures { result.now ≡ renumbered_name q r bytes.now room at }
{
    if renumbers(bytes, q, r, room, at) {
        reader::name(bytes)
    } else {
        &bytes[..0]
    }
}

// Appends a record to the log in an area, by at most so many stores: the log's own 9, 1 to 4 or 23; the record's 1 to 4 or 23; 6 for too
// little room; 8 where bytes behind the last finished frame are not `FF`; or 0 and the stores made, the flag's last.
pub fn area_append(area: &mut [u8], bytes: &[u8], allowed: usize) -> Answer
    ensures value { result ≡ shown (append_area area.old bytes.now allowed).answer }
    ensures area_after { area.new ≡ (append_area area.old bytes.now allowed).buffer }
{
    area::append(area, bytes, allowed)
}

// Fills an area with `FF` behind its last finished frame, by at most so many stores: the log's own 9, 1 to 4 or 23; or 0 and the stores
// made.
pub fn area_repair(area: &mut [u8], allowed: usize) -> Answer
    ensures value { result ≡ shown (repair_area area.old allowed).answer }
    ensures area_after { area.new ≡ (repair_area area.old allowed).buffer }
{
    area::repair(area, allowed)
}

// What stands at a place of an area: a finished frame, or how the log ends. The first frame is at 0, and each next one behind a record.
pub fn area_next(area: &[u8], at: usize) -> Frame
    ensures { result ≡ frame_shown at (frame_at area.now at) }
{
    area::next_frame(area, at)
}

// Whether a place is not past the end of a buffer of so many bytes, and size bytes are left from there.
fn has_room(size: usize, room: usize, at: usize) -> bool
    ensures { result ≡ room_in size room at }
{
    at <= room && size <= room - at
}

// Whether a case may not have so many threads or events.
fn too_many(threads: usize, events: usize) -> bool
    ensures { result ≡ too_many threads events }
{
    Case::MOST_THREADS < threads || Case::MOST_EVENTS < events
}

// The number of what rule 11's test says.
fn rule11_number(holds: bool) -> u32
    ensures { result ≡ or_else holds 11 0 }
{
    if holds {
        0
    } else {
        u32::from(Rule::StrictOrder)
    }
}

// Rule 11 of orders alone, a whole row at once: 3 for more threads or events than a case may have, 11 or 0. Bit b of the
// row at p * MOST_EVENTS + a says that a comes before b in thread p's order; what lies beyond the counts is not looked at.
pub fn rule11(
    rows: &[u64; Case::MOST_THREADS * Case::MOST_EVENTS],
    threads: usize,
    events: usize,
) -> u32
    ensures { result ≡ rule11_answer threads events rows.now }
{
    if too_many(threads, events) {
        return u32::from(Fault::Range);
    }
    rule11_number(one_order::rule11(rows, threads, events))
}

// The same by every three events.
pub fn rule11_by_threes(
    rows: &[u64; Case::MOST_THREADS * Case::MOST_EVENTS],
    threads: usize,
    events: usize,
) -> u32
    ensures { result ≡ rule11_answer threads events rows.now }
{
    if too_many(threads, events) {
        return u32::from(Fault::Range);
    }
    rule11_number(orders::rule11_by_threes(rows, rows, threads, events))
}

// Whether both tests of rule 11 give one answer. Its contract is the theorem that they do, for any rows and any counts.
pub fn rule11_tests_agree(
    rows: &[u64; Case::MOST_THREADS * Case::MOST_EVENTS],
    threads: usize,
    events: usize,
) -> bool
    ensures { result ≡ true }
{
    rule11(rows, threads, events) == rule11_by_threes(rows, threads, events)
}

// First the permutation q, then r.
pub fn composite(q: u64, r: u64) -> u64
    ensures { result ≡ composite_of q r }
{
    permutation::composite(q as usize, r as usize) as u64
}

// The permutation that takes q back.
pub fn inverse(q: u64) -> u64
    ensures { result ≡ inverse_of q }
{
    permutation::inverse(q as usize) as u64
}

// Whether q is a permutation number, 0 to 23, that maps the labels below n onto themselves.
pub fn fits(q: u64, n: usize) -> bool
    ensures { result ≡ fits_of q n }
{
    permutation::fits(q as usize, n)
}

// The functions that litmus_c exports to C, as include/litmus.h declares them.

pub fn litmus_read(bytes: &[u8]) -> Answer
    ensures { result ≡ shown (answer_of (read_record bytes.now)) }
{
    read(bytes).answer
}

pub fn litmus_judge(bytes: &[u8], model: u64) -> Answer
    ensures { result ≡ shown (judge_record model bytes.now) }
{
    judge(bytes, model)
}

pub fn litmus_condition(bytes: &[u8], model: u64, text: &[u8]) -> ConditionAnswer
    ensures { result ≡ condition_shown (condition_of model bytes.now text.now) }
{
    condition(bytes, model, text)
}

pub fn litmus_renumber(
    bytes: &[u8],
    threads: u64,
    addresses: u64,
    out: &mut [u8],
    at: u64,
) -> Answer
    ensures value { result ≡ shown (renumber_record threads addresses bytes.now out.old at).answer }
    ensures out_after { out.new ≡ (renumber_record threads addresses bytes.now out.old at).buffer }
{
    renumber(bytes, threads, addresses, out, at as usize)
}

pub fn litmus_representative(bytes: &[u8], out: &mut [u8], at: u64) -> Answer
    ensures value { result ≡ shown (representative_record bytes.now out.old at).answer }
    ensures out_after { out.new ≡ (representative_record bytes.now out.old at).buffer }
{
    representative(bytes, out, at as usize)
}

pub fn litmus_lesser(first: &[u8], second: &[u8]) -> Choice
    ensures { result ≡ choice_shown (choice_of first.now second.now) }
{
    compared(first, second)
}

pub fn litmus_name(bytes: &[u8]) -> Part
    ensures { result ≡ part_shown (read_record bytes.now) }
{
    let part = reader::name_part(bytes);
    Part {
        at: part.at,
        length: part.length,
    }
}

// No part, as 0 and 0.
fn no_part() -> Part
    ensures { result ≡ no_part }
{
    Part { at: 0, length: 0 }
}

// Where the name beside `litmus_judge` lies.
pub fn litmus_judged_name(bytes: &[u8], model: u64) -> Part
    ensures value { result ≡ judged_part model bytes.now }
    ensures result_value { bytes_of bytes.now result ≡ judged_name model bytes.now }
{
    match model_of(model) {
        Ok(_) => litmus_name(bytes),
        Err(_) => no_part(),
    }
}

// Where the name beside `litmus_renumber` into a buffer of so many bytes lies.
pub fn litmus_renumbered_name(
    bytes: &[u8],
    threads: u64,
    addresses: u64,
    room: usize,
    at: u64,
) -> Part
    ensures value { result ≡ renumbered_part threads addresses bytes.now room at }
    ensures result_value { bytes_of bytes.now result ≡ renumbered_name threads addresses bytes.now room at }
{
    if renumbers(bytes, threads, addresses, room, at as usize) {
        return litmus_name(bytes);
    }
    no_part()
}

// The same calls on a case, which C hands over and gets by value.

pub fn litmus_case_read(bytes: &[u8]) -> CaseAnswer
    ensures { result ≡ case_shown (read_record bytes.now) }
{
    read(bytes)
}

pub fn litmus_case_write(c: Case, out: &mut [u8], at: u64) -> Answer
    ensures value { result ≡ shown (write_case (case_of c) out.old at).answer }
    ensures out_after { out.new ≡ (write_case (case_of c) out.old at).buffer }
{
    write(c, out, at as usize)
}

pub fn litmus_case_judge(c: Case, model: u64) -> Answer
    ensures { result ≡ shown (judge_case model (case_of c)) }
{
    judge_case(c, model)
}

pub fn litmus_case_condition(c: Case, model: u64, text: &[u8]) -> ConditionAnswer
    ensures { result ≡ condition_shown (condition_case model (case_of c) text.now) }
{
    condition_case(c, model, text)
}

pub fn litmus_case_renumber(c: Case, threads: u64, addresses: u64) -> CaseAnswer
    ensures { result ≡ case_shown (renumber_case threads addresses (case_of c)) }
{
    renumber_case(c, threads, addresses)
}

pub fn litmus_case_representative(c: Case) -> CaseAnswer
    ensures { result ≡ case_shown (representative_case (case_of c)) }
{
    representative_case(c)
}

// Judges the records of bytes that begin at the place from of a log, the last of the log or not, and adds each to the tally of the caller.
pub fn litmus_log_judge(bytes: &[u8], from: u64, last: bool, tally: &mut Tally) -> LogAnswer
    ensures { (result ≡ answer_shown (judge_log from last bytes.now tally.old)) × (tally.new ≡ (judge_log from last bytes.now tally.old).tally) }
{
    judge_log(bytes, from, last, tally)
}

pub fn litmus_area_append(area: &mut [u8], bytes: &[u8], allowed: u64) -> Answer
    ensures value { result ≡ shown (append_area area.old bytes.now allowed).answer }
    ensures area_after { area.new ≡ (append_area area.old bytes.now allowed).buffer }
{
    area_append(area, bytes, allowed as usize)
}

pub fn litmus_area_repair(area: &mut [u8], allowed: u64) -> Answer
    ensures value { result ≡ shown (repair_area area.old allowed).answer }
    ensures area_after { area.new ≡ (repair_area area.old allowed).buffer }
{
    area_repair(area, allowed as usize)
}

pub fn litmus_area_next(area: &[u8], at: u64) -> Frame
    ensures { result ≡ frame_shown at (frame_at area.now at) }
{
    area_next(area, at as usize)
}

pub fn litmus_trace(bytes: &[u8]) -> TraceAnswer
    ensures { result ≡ trace_shown (judge_trace bytes.now) }
{
    judge_trace(bytes)
}

pub fn litmus_trace_read(bytes: &[u8]) -> TraceReading
    ensures { result ≡ reading_shown (read_trace bytes.now) }
{
    read_trace(bytes)
}

pub fn litmus_composite(first: u64, then: u64) -> u64
    ensures { result ≡ composite_of first then }
{
    composite(first, then)
}

pub fn litmus_inverse(q: u64) -> u64
    ensures { result ≡ inverse_of q }
{
    inverse(q)
}

pub fn litmus_fits(q: u64, labels: usize) -> bool
    ensures { result ≡ fits_of q labels }
{
    fits(q, labels)
}

pub fn litmus_rule11(
    rows: &[u64; Case::MOST_THREADS * Case::MOST_EVENTS],
    threads: usize,
    events: usize,
) -> u32
    ensures { result ≡ rule11_answer threads events rows.now }
{
    rule11(rows, threads, events)
}

pub fn litmus_rule11_by_threes(
    rows: &[u64; Case::MOST_THREADS * Case::MOST_EVENTS],
    threads: usize,
    events: usize,
) -> u32
    ensures { result ≡ rule11_answer threads events rows.now }
{
    rule11_by_threes(rows, threads, events)
}

pub fn litmus_rule11_tests_agree(
    rows: &[u64; Case::MOST_THREADS * Case::MOST_EVENTS],
    threads: usize,
    events: usize,
) -> bool
    ensures { result ≡ true }
{
    rule11_tests_agree(rows, threads, events)
}
