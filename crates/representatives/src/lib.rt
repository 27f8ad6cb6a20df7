// The calls about classes on records: a record's representative, and the lesser of two records.
#![tactic(auto)]

ghost use Rattle.std.specs.Prelude.{◌≡◌};
ghost use Rattle.answers.specs.Shown.{shown};
ghost use Rattle.classes.specs.Representative.{representative_record, choice as choice_of, lesser as lesser_of};
ghost use Rattle.representatives.specs.Shown.{choice_shown};

use answers::{Answer, Refused};

// Which of two records is the lesser, 1 or 2, and how many bytes it has; 0 and 0 where either can't be read.
#[repr(C)]
#[derive(Clone, Copy)]
pub struct Choice {
    pub which: u32,
    pub length: usize,
}

// One of the two can't be read.
const NEITHER: Choice = Choice {
    which: 0,
    length: 0,
};

// Writes the record's representative into another buffer from a place on: the record's 1 to 4 or 23; 6 for too little room; or 0
// and the record's length.
pub fn representative(bytes: &[u8], out: &mut [u8], at: usize) -> Answer
    ensures value { result ≡ shown (representative_record bytes.now out.old at).answer }
    ensures out_after { out.new ≡ (representative_record bytes.now out.old at).buffer }
{
    match reader::read_case(bytes) {
        Ok(reading) => answers::put(least::representative(reading.case), out, at),
        Err(e) => Answer::from(Refused::from(e)),
    }
}

// Which of two records is the lesser, the first if they are equal. Bytes behind them have no say.
pub fn compared(first: &[u8], second: &[u8]) -> Choice
    ensures { result ≡ choice_shown (choice_of first.now second.now) }
{
    let Ok(one) = reader::read_case(first) else {
        return NEITHER;
    };
    let Ok(other) = reader::read_case(second) else {
        return NEITHER;
    };
    let i = one.length;
    let j = other.length;
    if compare::at_most(&first[..i], &second[..j]) {
        Choice {
            which: 1,
            length: i,
        }
    } else {
        Choice {
            which: 2,
            length: j,
        }
    }
}

// The lesser of two records itself, the first if they are equal; an empty part where either can't be read.
pub fn lesser<'a>(first: &'a [u8], second: &'a [u8]) -> &'a [u8]
    ensures { result.now ≡ lesser_of first.now second.now }
{
    let chosen = compared(first, second);
    let length = chosen.length;
    if chosen.which == 1 {
        &first[..length]
    } else {
        &second[..length]
    }
}
