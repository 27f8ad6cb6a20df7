// The functions of include/litmus.h for C: each calls litmus's function of its name, and has its clauses.
#![tactic(auto)]

ghost use Rattle.std.specs.Prelude.{◌≡◌, true};
ghost use Rattle.permutation.specs.Permutation.{composite as composite_of, inverse as inverse_of, fits as fits_of};
ghost use Rattle.model.specs.Record.{read as read_record};
ghost use Rattle.model.specs.Answers.{answer_of, judge as judge_record, judge_case, write as write_case, renumber_record, renumber_case, judged_name, renumbered_name};
ghost use Rattle.case.specs.Held.{case_of};
ghost use Rattle.answers.specs.Shown.{shown};
ghost use Rattle.classes.specs.Representative.{representative_record, representative_case, choice as choice_of};
ghost use Rattle.representatives.specs.Shown.{choice_shown};
ghost use Rattle.log_model.specs.Pieces.{judge_log};
ghost use Rattle.log_pieces.specs.Shown.{answer_shown};
ghost use Rattle.area_model.specs.Area.{frame_at, append as append_area, repair as repair_area};
ghost use Rattle.area.specs.Shown.{frame_shown};
ghost use Rattle.condition_model.specs.Answers.{condition as condition_of, condition_case};
ghost use Rattle.condition.specs.Shown.{condition_shown};
ghost use Rattle.storage_model.specs.Layout.{read_trace};
ghost use Rattle.storage_model.specs.Answers.{judge_trace};
ghost use Rattle.trace_reader.specs.Held.{reading_shown};
ghost use Rattle.traces.specs.Shown.{trace_shown};
ghost use Rattle.litmus.specs.Shown.{case_shown, part_shown, judged_part, renumbered_part, bytes_of};
ghost use Rattle.litmus.specs.Orders.{rule11_answer};

use case::Case;
use litmus::{
    Answer, CaseAnswer, Choice, ConditionAnswer, Frame, LogAnswer, Part, Tally, TraceAnswer,
    TraceReading,
};

#[unsafe(no_mangle)]
pub extern "C" fn litmus_read(bytes: &[u8]) -> Answer
    ensures { result ≡ shown (answer_of (read_record bytes.now)) }
{
    litmus::litmus_read(bytes)
}

#[unsafe(no_mangle)]
pub extern "C" fn litmus_judge(bytes: &[u8], model: u64) -> Answer
    ensures { result ≡ shown (judge_record model bytes.now) }
{
    litmus::litmus_judge(bytes, model)
}

#[unsafe(no_mangle)]
pub extern "C" fn litmus_condition(bytes: &[u8], model: u64, text: &[u8]) -> ConditionAnswer
    ensures { result ≡ condition_shown (condition_of model bytes.now text.now) }
{
    litmus::litmus_condition(bytes, model, text)
}

#[unsafe(no_mangle)]
pub extern "C" fn litmus_renumber(
    bytes: &[u8],
    threads: u64,
    addresses: u64,
    out: &mut [u8],
    at: u64,
) -> Answer
    ensures value { result ≡ shown (renumber_record threads addresses bytes.now out.old at).answer }
    ensures out_after { out.new ≡ (renumber_record threads addresses bytes.now out.old at).buffer }
{
    litmus::litmus_renumber(bytes, threads, addresses, out, at)
}

#[unsafe(no_mangle)]
pub extern "C" fn litmus_representative(bytes: &[u8], out: &mut [u8], at: u64) -> Answer
    ensures value { result ≡ shown (representative_record bytes.now out.old at).answer }
    ensures out_after { out.new ≡ (representative_record bytes.now out.old at).buffer }
{
    litmus::litmus_representative(bytes, out, at)
}

#[unsafe(no_mangle)]
pub extern "C" fn litmus_lesser(first: &[u8], second: &[u8]) -> Choice
    ensures { result ≡ choice_shown (choice_of first.now second.now) }
{
    litmus::litmus_lesser(first, second)
}

#[unsafe(no_mangle)]
pub extern "C" fn litmus_name(bytes: &[u8]) -> Part
    ensures { result ≡ part_shown (read_record bytes.now) }
{
    litmus::litmus_name(bytes)
}

// Where the name beside `litmus_judge` lies.
#[unsafe(no_mangle)]
pub extern "C" fn litmus_judged_name(bytes: &[u8], model: u64) -> Part
    ensures value { result ≡ judged_part model bytes.now }
    ensures result_value { bytes_of bytes.now result ≡ judged_name model bytes.now }
{
    litmus::litmus_judged_name(bytes, model)
}

// Where the name beside `litmus_renumber` into a buffer of so many bytes lies.
#[unsafe(no_mangle)]
pub extern "C" fn litmus_renumbered_name(
    bytes: &[u8],
    threads: u64,
    addresses: u64,
    room: usize,
    at: u64,
) -> Part
    ensures value { result ≡ renumbered_part threads addresses bytes.now room at }
    ensures result_value { bytes_of bytes.now result ≡ renumbered_name threads addresses bytes.now room at }
{
    litmus::litmus_renumbered_name(bytes, threads, addresses, room, at)
}

// The same calls on a case, which C hands over and gets by value.

#[unsafe(no_mangle)]
pub extern "C" fn litmus_case_read(bytes: &[u8]) -> CaseAnswer
    ensures { result ≡ case_shown (read_record bytes.now) }
{
    litmus::litmus_case_read(bytes)
}

#[unsafe(no_mangle)]
pub extern "C" fn litmus_case_write(c: Case, out: &mut [u8], at: u64) -> Answer
    ensures value { result ≡ shown (write_case (case_of c) out.old at).answer }
    ensures out_after { out.new ≡ (write_case (case_of c) out.old at).buffer }
{
    litmus::litmus_case_write(c, out, at)
}

#[unsafe(no_mangle)]
pub extern "C" fn litmus_case_judge(c: Case, model: u64) -> Answer
    ensures { result ≡ shown (judge_case model (case_of c)) }
{
    litmus::litmus_case_judge(c, model)
}

#[unsafe(no_mangle)]
pub extern "C" fn litmus_case_condition(c: Case, model: u64, text: &[u8]) -> ConditionAnswer
    ensures { result ≡ condition_shown (condition_case model (case_of c) text.now) }
{
    litmus::litmus_case_condition(c, model, text)
}

#[unsafe(no_mangle)]
pub extern "C" fn litmus_case_renumber(c: Case, threads: u64, addresses: u64) -> CaseAnswer
    ensures { result ≡ case_shown (renumber_case threads addresses (case_of c)) }
{
    litmus::litmus_case_renumber(c, threads, addresses)
}

#[unsafe(no_mangle)]
pub extern "C" fn litmus_case_representative(c: Case) -> CaseAnswer
    ensures { result ≡ case_shown (representative_case (case_of c)) }
{
    litmus::litmus_case_representative(c)
}

// Judges the records of bytes that begin at the place from of a log, the last of the log or not, and adds each to the tally of the caller.
#[unsafe(no_mangle)]
pub extern "C" fn litmus_log_judge(
    bytes: &[u8],
    from: u64,
    last: bool,
    tally: &mut Tally,
) -> LogAnswer
    ensures { (result ≡ answer_shown (judge_log from last bytes.now tally.old)) × (tally.new ≡ (judge_log from last bytes.now tally.old).tally) }
{
    litmus::litmus_log_judge(bytes, from, last, tally)
}

#[unsafe(no_mangle)]
pub extern "C" fn litmus_area_append(area: &mut [u8], bytes: &[u8], allowed: u64) -> Answer
    ensures value { result ≡ shown (append_area area.old bytes.now allowed).answer }
    ensures area_after { area.new ≡ (append_area area.old bytes.now allowed).buffer }
{
    litmus::litmus_area_append(area, bytes, allowed)
}

#[unsafe(no_mangle)]
pub extern "C" fn litmus_area_repair(area: &mut [u8], allowed: u64) -> Answer
    ensures value { result ≡ shown (repair_area area.old allowed).answer }
    ensures area_after { area.new ≡ (repair_area area.old allowed).buffer }
{
    litmus::litmus_area_repair(area, allowed)
}

#[unsafe(no_mangle)]
pub extern "C" fn litmus_area_next(area: &[u8], at: u64) -> Frame
    ensures { result ≡ frame_shown at (frame_at area.now at) }
{
    litmus::litmus_area_next(area, at)
}

#[unsafe(no_mangle)]
pub extern "C" fn litmus_trace(bytes: &[u8]) -> TraceAnswer
    ensures { result ≡ trace_shown (judge_trace bytes.now) }
{
    litmus::litmus_trace(bytes)
}

#[unsafe(no_mangle)]
pub extern "C" fn litmus_trace_read(bytes: &[u8]) -> TraceReading
    ensures { result ≡ reading_shown (read_trace bytes.now) }
{
    litmus::litmus_trace_read(bytes)
}

#[unsafe(no_mangle)]
pub extern "C" fn litmus_composite(first: u64, then: u64) -> u64
    ensures { result ≡ composite_of first then }
{
    litmus::litmus_composite(first, then)
}

#[unsafe(no_mangle)]
pub extern "C" fn litmus_inverse(q: u64) -> u64
    ensures { result ≡ inverse_of q }
{
    litmus::litmus_inverse(q)
}

#[unsafe(no_mangle)]
pub extern "C" fn litmus_fits(q: u64, labels: usize) -> bool
    ensures { result ≡ fits_of q labels }
{
    litmus::litmus_fits(q, labels)
}

#[unsafe(no_mangle)]
pub extern "C" fn litmus_rule11(
    rows: &[u64; Case::MOST_THREADS * Case::MOST_EVENTS],
    threads: usize,
    events: usize,
) -> u32
    ensures { result ≡ rule11_answer threads events rows.now }
{
    litmus::litmus_rule11(rows, threads, events)
}

#[unsafe(no_mangle)]
pub extern "C" fn litmus_rule11_by_threes(
    rows: &[u64; Case::MOST_THREADS * Case::MOST_EVENTS],
    threads: usize,
    events: usize,
) -> u32
    ensures { result ≡ rule11_answer threads events rows.now }
{
    litmus::litmus_rule11_by_threes(rows, threads, events)
}

#[unsafe(no_mangle)]
pub extern "C" fn litmus_rule11_tests_agree(
    rows: &[u64; Case::MOST_THREADS * Case::MOST_EVENTS],
    threads: usize,
    events: usize,
) -> bool
    ensures { result ≡ true }
{
    litmus::litmus_rule11_tests_agree(rows, threads, events)
}
