// The log on an input, judged piece by piece.
ghost use Rattle.std.specs.Prelude.{◌≡◌, ◌≤◌, length, IfOk};
ghost use Rattle.log_model.specs.Claim.{Placed};
ghost use Rattle.judge_log.specs.Progress.{Room, begun as begun_as, JudgedHeld, is_due, AfterRead, Ready, Stepped, Finished};

use case::Case;
use litmus::Tally;
use std::io;
use std::io::Read;
use stream::Got;

// How far a log is judged that goes on.
#[derive(Clone, Copy)]
pub struct Progress {
    // the bytes of the buffer from `at` up to `have` were not judged yet, and begin at this place of the log
    pub at: usize,
    pub have: usize,
    pub place: u64,
    pub tally: Tally,
    // what is held is judged once it is so many bytes
    pub due: usize,
}

// What a log came to: its tally, and the refusal that ended it, at that place. Its number stands as C gets it, 0 where the log ended
// between records.
#[derive(Clone, Copy)]
pub struct Outcome {
    pub tally: Tally,
    pub number: u32,
    pub place: u64,
}

// A log between two reads: it goes on, or has ended.
#[derive(Clone, Copy)]
pub enum State {
    Going(Progress),
    Over(Outcome),
}

// The bytes that the buffer holds: more than what is kept of any log, and with the program's other buffers at most 64 KiB.
const ROOM: usize = 56320;

fn room() -> [u8; ROOM]
    ensures { Room (length result) }
{
    [0u8; ROOM]
}

fn begun() -> Progress
    ensures { result ≡ begun_as }
{
    Progress {
        at: 0,
        have: 0,
        place: 0,
        tally: Tally::zeros(),
        due: 0,
    }
}

// Judges the bytes that the buffer holds up to `have`, the last of the log or not. Those that are left are due again once they are
// twice as many, so that a record is not read again with every byte that comes.
fn judge_held(buffer: &[u8], have: usize, last: bool, p: Progress) -> State
    requires room { Room (length buffer.now) }
    requires have_in_bounds { have ≤ length buffer.now }
    requires placed { Placed p.place p.tally }
    ensures { JudgedHeld buffer.now have last p result }
{
    let judged = litmus::judged_part(&buffer[..have], p.place, last, p.tally);
    let answer = judged.answer;
    if answer.ended {
        return State::Over(Outcome {
            tally: judged.tally,
            number: answer.number,
            place: answer.place,
        });
    }
    State::Going(Progress {
        at: answer.length,
        have,
        place: p.place + answer.length as u64,
        tally: judged.tally,
        due: 2 * (have - answer.length),
    })
}

// Whether so many bytes are judged now: the input has ended, they are due, or they are more than any record has, so that the buffer
// always has room.
fn is_due(ended: bool, have: usize, due: usize) -> bool
    ensures { result ≡ is_due ended have due }
{
    ended || due <= have || Case::MOST_BYTES < have
}

// What a read came to: judges what the buffer holds then, if it is due; else keeps it as it is, for further bytes to come behind it.
fn after_read(buffer: &[u8], got: io::Result<Got>, p: Progress) -> io::Result<State>
    requires room { Room (length buffer.now) }
    requires have_in_bounds { IfOk got (λ g. g.have ≤ length buffer.now) }
    requires placed { Placed p.place p.tally }
    ensures { AfterRead buffer.now got p result }
{
    let got = got?;
    if is_due(got.ended, got.have, p.due) {
        return Ok(judge_held(buffer, got.have, got.ended, p));
    }
    Ok(State::Going(Progress {
        at: 0,
        have: got.have,
        ..p
    }))
}

// Reads on once.
fn step<R: Read>(input: &mut R, buffer: &mut [u8], p: Progress) -> io::Result<State>
    requires room { Room (length buffer.old) }
    requires ready { Ready buffer.old p }
    ensures { Stepped buffer.old p buffer.new result }
{
    let got = stream::read_on(input, buffer, p.at, p.have);
    after_read(buffer, got, p)
}

// Judges the log on an input, to its end. Nothing says that an input ends, so the loop counts its turns, up to a number that no run
// uses up.
pub fn judge_input<R: Read>(input: &mut R) -> io::Result<State>
    ensures { Finished result }
{
    let mut space = room();
    let buffer: &mut [u8] = &mut space;
    let mut state = State::Going(begun());
    for _ in 0..u64::MAX {
        let State::Going(p) = state else {
            break;
        };
        state = step(input, buffer, p)?;
    }
    Ok(state)
}
