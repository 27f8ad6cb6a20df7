// Records back to back from an input that may be longer than the buffer.
ghost use Rattle.std.specs.Prelude.{◌≡◌, ℕ, ◌-◌, ◌*◌, ◌<◌, ◌≤◌, length, replicate, IfSome, IfOk};
ghost use Rattle.model.specs.Limits.{most_edition};
ghost use Rattle.model.specs.Bound.{most_bytes};
ghost use Rattle.judge.specs.Within.{Within};

use crate::answer::show;
use crate::text::say;
use case::Case;
use std::io;
use std::io::Read;

// How far an input is judged.
#[derive(Clone, Copy)]
pub struct Progress {
    // the bytes of the buffer from `at` up to `have` are still to be judged
    pub at: usize,
    pub have: usize,
    // the bytes and the records of the input that are judged
    pub passed: u64,
    pub records: u64,
    // the input has no byte that isn't in the buffer
    pub ended: bool,
}

// The last line for an input that was judged to its end.
fn say_end(rt: &impl Print, records: u64) {
    if records == 0 {
        say(rt, "No record: the input is empty.\n\n");
    } else {
        say(
            rt,
            format_args!("End of the input. Records judged: {records}\n\n"),
        );
    }
}

// The next record of the buffer, or the end of the input. Gives none where there is nothing left to do.
fn judge_next(rt: &impl Print, buffer: &[u8], p: Progress) -> Option<Progress>
    requires { Within p (length buffer.now) }
    ensures { IfSome result (λ r. Within r (length buffer.now)) }
{
    if p.at == p.have {
        say_end(rt, p.records);
        return None;
    }
    let records = p.records.wrapping_add(1);
    let length = show(rt, &buffer[p.at..p.have], p.passed, records)?;
    Some(Progress {
        at: p.at + length,
        passed: p.passed.wrapping_add(length as u64),
        records,
        ..p
    })
}

// Judges the next record once it is surely whole in the buffer, as no record is longer than Case::MOST_BYTES; reads on before.
fn step<R: Read>(
    rt: &impl Print,
    input: &mut R,
    buffer: &mut [u8],
    p: Progress,
) -> io::Result<Option<Progress>>
    requires within { Within p (length buffer.old) }
    requires most_edition_in_bounds { most_bytes most_edition ≤ length buffer.old }
    ensures within_2 { IfOk result (λ o. IfSome o (λ r. Within r (length buffer.old))) }
    ensures buffer_len_unchanged { length buffer.new ≡ length buffer.old }
{
    if p.ended || Case::MOST_BYTES <= p.have - p.at {
        return Ok(judge_next(rt, buffer, p));
    }
    let got = stream::read_on(input, buffer, p.at, p.have)?;
    Ok(Some(Progress {
        at: 0,
        have: got.have,
        ended: got.ended,
        ..p
    }))
}

// Room for two records of any length: bytes are moved up once for as many as a record may take.
fn room() -> [u8; 2 * Case::MOST_BYTES]
    ensures value { result ≡ replicate (2 * most_bytes most_edition) 0 }
    ensures by_index { (edition : ℕ) → most_bytes edition ≤ length result }
{
    [0u8; 2 * Case::MOST_BYTES]
}

// Judges the records of an input, one after the other, to its end or to the first that can't be read. Nothing says that an
// input ends, so the loop counts its turns, up to a number that no run uses up.
pub fn judge_input<R: Read>(rt: &impl Print, input: &mut R) -> io::Result<()> {
    let mut space = room();
    let buffer: &mut [u8] = &mut space;
    let mut p = Progress {
        at: 0,
        have: 0,
        passed: 0,
        records: 0,
        ended: false,
    };
    for _ in 0..u64::MAX {
        let Some(next) = step(rt, input, buffer, p)? else {
            break;
        };
        p = next;
    }
    Ok(())
}
