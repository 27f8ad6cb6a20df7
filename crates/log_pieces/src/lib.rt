// Judging a log of records as it comes: every record of a piece is added to a tally.
#![tactic(auto)]

ghost use Rattle.std.specs.Prelude.{◌≡◌, ◌+◌, ◌≤◌, true, length, drop};
ghost use Rattle.model.specs.Limits.{most_edition};
ghost use Rattle.model.specs.Bound.{most_bytes};
ghost use Rattle.model.specs.Rules.{PPCs, verdict};
ghost use Rattle.model.specs.Record.{read};
ghost use Rattle.case.specs.Held.{case_of};
ghost use Rattle.case.specs.Sound.{Sound};
ghost use Rattle.tally.specs.Tally.{zeros};
ghost use Rattle.log_model.specs.Pieces.{answer, waits, run, judge_log};
ghost use Rattle.log_pieces.specs.Shown.{Judged, stop_of, going_at, step_told, stopped_shown, next_turn, run_of, step_shown, answer_shown, GoesOn, PartJudged};

use case::Case;
use number::{Fault, Refusal};
use reader::Reading;
use rules::Model;
use tally::{NotAdded, Tally};

// A record's verdict under PPCs, 0 or the lowest rule that it breaks, and its length.
#[derive(Clone, Copy)]
pub struct Verdict {
    pub number: u32,
    pub length: usize,
}

// The verdict of a case that was read.
fn verdict_of(reading: Reading) -> Verdict
    requires { Sound reading.case }
    ensures { (result.number ≡ verdict (case_of reading.case) PPCs) × (result.length ≡ reading.length) }
{
    let number = match rules::verdict(reading.case, Model::Ppcs) {
        Ok(()) => 0,
        Err(rule) => u32::from(rule),
    };
    Verdict {
        number,
        length: reading.length,
    }
}

// Judges the record at the start of the bytes.
fn judge_first(bytes: &[u8]) -> Result<Verdict, Refusal>
    ensures { Judged (read bytes.now) result }
{
    let reading = reader::read_case(bytes)?;
    Ok(verdict_of(reading))
}

// Judges the record that begins at a place of the bytes.
fn judge_record(bytes: &[u8], from: usize) -> Result<Verdict, Refusal>
    requires { from ≤ length bytes.now }
    ensures { Judged (read (drop from bytes.now)) result }
{
    judge_first(&bytes[from..])
}

// Why judging stops: the refusal of the bytes that come next, or a count is full.
#[derive(Clone, Copy, Debug, PartialEq, Eq)]
pub enum Stop {
    Refused(Refusal),
    Full,
}

// Judges the record that begins at a place of the bytes, and adds it to the tally where that is kept; gives where the next one begins.
// A refusal is no verdict and is not added.
fn judge_next(bytes: &[u8], from: usize, tally: &mut Tally) -> Result<usize, Stop>
    requires { from ≤ length bytes.now }
    ensures { record { step = step_told from result; tally = tally.new } ≡ next_turn bytes.now (going_at from) tally.old }
{
    match judge_record(bytes, from) {
        Ok(judged) => match tally::add(tally, judged.number) {
            Ok(()) => Ok(from + judged.length),
            Err(_) => Err(Stop::Full),
        },
        Err(e) => Err(Stop::Refused(e.fault.at(from + e.place))),
    }
}

// Where judging stopped, behind the last record that was judged, and why.
#[derive(Clone, Copy)]
pub struct Stopped {
    pub judged: usize,
    pub why: Stop,
}

// Judges the records of the bytes, one after the other; each is added to the tally where that is kept.
fn judge_records(bytes: &[u8], tally: &mut Tally) -> Stopped
    ensures { (stopped_shown result ≡ step_shown (run bytes.now tally.old)) × (tally.new ≡ (run bytes.now tally.old).tally) }
{
    let mut judged = 0;
    loop {
        match judge_next(bytes, judged, tally) {
            Ok(next) => judged = next,
            Err(why) => return Stopped { judged, why },
        }
    }
}

// What a call answers that judges the records of some bytes of a log: whether the log has ended, by which refusal, 0 if by none, and at
// which place from the log's start; and how many of the bytes were judged. Those behind them have to come again, before any others.
#[repr(C)]
#[derive(Clone, Copy)]
pub struct LogAnswer {
    pub number: u32,
    pub ended: bool,
    pub place: u64,
    pub length: usize,
}

// The log has ended in size bytes that begin at the place from. No tally has a say in that.
fn ended_at(stopped: Stopped, size: usize, from: u64) -> LogAnswer
    ensures { result ≡ answer_shown (answer from true size (run_of (stopped_shown stopped) zeros)) }
{
    if size <= stopped.judged {
        return LogAnswer {
            number: 0,
            ended: true,
            place: 0,
            length: stopped.judged,
        };
    }
    match stopped.why {
        Stop::Full => LogAnswer {
            number: u32::from(NotAdded::Full),
            ended: true,
            place: 0,
            length: stopped.judged,
        },
        Stop::Refused(e) => LogAnswer {
            number: u32::from(e.fault),
            ended: true,
            place: from.wrapping_add(e.place as u64),
            length: stopped.judged,
        },
    }
}

// Whether the bytes ended where judging stopped, so that further ones may follow there.
fn waits(why: Stop) -> bool
    ensures { result ≡ waits (stop_of why) }
{
    match why {
        Stop::Refused(e) => e.fault == Fault::Ends,
        Stop::Full => false,
    }
}

// Whether the log has ended in size bytes that begin at the place from, and how.
fn answered(stopped: Stopped, size: usize, from: u64, last: bool) -> LogAnswer
    ensures { result ≡ answer_shown (answer from last size (run_of (stopped_shown stopped) zeros)) }
{
    if last {
        return ended_at(stopped, size, from);
    }
    if waits(stopped.why) {
        return LogAnswer {
            number: 0,
            ended: false,
            place: 0,
            length: stopped.judged,
        };
    }
    ended_at(stopped, size, from)
}

// Judges the records of bytes that begin at the place from of a log, the last of the log or not, and adds each to the tally.
pub fn judge_log(bytes: &[u8], from: u64, last: bool, tally: &mut Tally) -> LogAnswer
    ensures { (result ≡ answer_shown (judge_log from last bytes.now tally.old)) × (tally.new ≡ (judge_log from last bytes.now tally.old).tally) }
{
    let stopped = judge_records(bytes, tally);
    answered(stopped, bytes.len(), from, last)
}

// An answer, and the tally with the records that were judged.
#[derive(Clone, Copy)]
pub struct JudgedLog {
    pub answer: LogAnswer,
    pub tally: Tally,
}

// The bytes that the orders have of a case of so many threads and events, where each is a total order of them; 0 for too many.
fn orders_size(threads: usize, events: usize) -> usize
    ensures { result ≤ most_bytes most_edition }
{
    if Case::MOST_THREADS < threads || Case::MOST_EVENTS < events || events == 0 {
        return 0;
    }
    threads * events * (events - 1)
}

// About how many bytes the record has that begins at a place, by its first ones; 0 where they don't tell. A guess, on which no answer
// depends: a record that is not complete is read in vain.
fn likely_size(bytes: &[u8], from: usize) -> usize
    requires { from ≤ length bytes.now }
    ensures { result ≤ most_bytes most_edition }
{
    let left = bytes.len() - from;
    if left < 4 {
        return 0;
    }
    let addresses = usize::from(bytes[from + 2]);
    if left - 4 < addresses {
        return 0;
    }
    orders_size(
        usize::from(bytes[from + 1]),
        usize::from(bytes[from + 3 + addresses]),
    )
}

// Whether the record at a place is judged: of the last bytes of a log all are, and in its middle there are as many bytes as it seems to
// have.
fn goes_on(bytes: &[u8], last: bool, judged: usize) -> bool
    requires { judged ≤ length bytes.now }
    ensures { GoesOn bytes.now last (going_at judged) result }
{
    last || likely_size(bytes, judged) <= bytes.len() - judged
}

// As `judge_log`, with the tally by value. Where further bytes are to come, the last records may be left for later, once what is left is
// no more than one may have: a record that seems to be incomplete is not read.
pub fn judged_part(bytes: &[u8], from: u64, last: bool, tally: Tally) -> JudgedLog
    ensures { PartJudged from last bytes.now tally result }
{
    let mut judged = 0;
    let mut kept = tally;
    while goes_on(bytes, last, judged) {
        match judge_next(bytes, judged, &mut kept) {
            Ok(next) => judged = next,
            Err(why) => {
                return JudgedLog {
                    answer: answered(Stopped { judged, why }, bytes.len(), from, last),
                    tally: kept,
                };
            }
        }
    }
    let why = Stop::Refused(Fault::Ends.at(0));
    JudgedLog {
        answer: answered(Stopped { judged, why }, bytes.len(), from, last),
        tally: kept,
    }
}
