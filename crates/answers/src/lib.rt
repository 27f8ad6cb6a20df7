// The answers that callers get, and what they hold of a case without fault.
#![tactic(auto)]

ghost use Rattle.std.specs.Prelude.{◌≡◌};
ghost use Rattle.model.specs.Rules.{verdict as verdict_of};
ghost use Rattle.model.specs.Written.{record_of};
ghost use Rattle.model.specs.Answers.{refusal, done, judgement, put as put_record};
ghost use Rattle.case.specs.Held.{case_of};
ghost use Rattle.case.specs.Sound.{Sound};
ghost use Rattle.rules.specs.Models.{model_of};
ghost use Rattle.answers.specs.Shown.{cause_number, refusal_of, given, shown};
ghost use Rattle.answers.specs.declared.Cause.TheVariants.{Fault, NoRoom, NoModel};

use case::Case;
use number::Refusal;
use rules::Model;

// Why a call is refused.
#[derive(Clone, Copy, Debug, PartialEq, Eq)]
pub enum Cause {
    // the record, or a field of the case
    Fault(number::Fault),
    // the permutation does not map the labels onto themselves
    NoFit,
    // the record does not fit in the buffer
    NoRoom,
    // no model has the number
    NoModel,
    // bytes behind the last finished frame of a log are not unused
    Unrepaired,
    // a frame's flag is neither that of a finished frame nor unused
    BadFlag,
}

impl From<Cause> for u32 {
    ghost from_gives = { λ cause n. n ≡ cause_number cause };

    fn from(cause: Cause) -> u32 {
        match cause {
            Cause::Fault(fault) => u32::from(fault),
            Cause::NoFit => 5,
            Cause::NoRoom => 6,
            Cause::NoModel => 7,
            Cause::Unrepaired => 8,
            Cause::BadFlag => 9,
        }
    }
}

// Why a call is refused, and where what is faulty starts: 0 where it has no place in the bytes.
#[derive(Clone, Copy, Debug, PartialEq, Eq)]
pub struct Refused {
    pub cause: Cause,
    pub place: usize,
}

impl From<Cause> for Refused {
    ghost from_gives = { λ cause r. r ≡ record { cause = cause; place = 0 } };

    fn from(cause: Cause) -> Refused {
        Refused { cause, place: 0 }
    }
}

impl From<Refusal> for Refused {
    ghost from_gives = { λ e r. r ≡ record { cause = Fault e.fault; place = e.place } };

    fn from(e: Refusal) -> Refused {
        Refused {
            cause: Cause::Fault(e.fault),
            place: e.place,
        }
    }
}

impl From<number::Fault> for Refused {
    ghost from_gives = { λ fault r. r ≡ record { cause = Fault fault; place = 0 } };

    fn from(fault: number::Fault) -> Refused {
        Refused::from(Cause::Fault(fault))
    }
}

impl From<rules::NoModel> for Refused {
    ghost from_gives = { λ _ r. r ≡ record { cause = NoModel; place = 0 } };

    fn from(_none: rules::NoModel) -> Refused {
        Refused::from(Cause::NoModel)
    }
}

impl From<writer::NoRoom> for Refused {
    ghost from_gives = { λ _ r. r ≡ record { cause = NoRoom; place = 0 } };

    fn from(_none: writer::NoRoom) -> Refused {
        Refused::from(Cause::NoRoom)
    }
}

// The answer of a call. The number is 0 (accepted or done), a refusal 1 to 9 or 23, or the lowest broken rule 11 to 18. The
// place is where a faulty number starts, a name's first byte that is not printable, or a flag, the length that of the record or
// how many stores were made, and the finals are the final memory by address. Fields that an answer doesn't speak of are 0.
#[repr(C)]
#[derive(Clone, Copy)]
pub struct Answer {
    pub number: u32,
    pub place: usize,
    pub length: usize,
    pub finals: [u32; Case::MOST_ADDRESSES],
}

impl From<Refused> for Answer {
    ghost from_gives = { λ e a. a ≡ shown (refusal_of e) };

    fn from(e: Refused) -> Answer {
        Answer {
            number: u32::from(e.cause),
            place: e.place,
            length: 0,
            finals: [0u32; Case::MOST_ADDRESSES],
        }
    }
}

// What a call answers that may be refused.
pub fn given(answer: Result<Answer, Refused>) -> Answer
    ensures { result ≡ given answer }
{
    match answer {
        Ok(answer) => answer,
        Err(e) => Answer::from(e),
    }
}

// Done, with a record of so many bytes, or by so many stores.
pub fn finished(length: usize) -> Answer
    ensures { result ≡ shown (done length) }
{
    Answer {
        number: 0,
        place: 0,
        length,
        finals: [0u32; Case::MOST_ADDRESSES],
    }
}

// The verdict and the finals of a case whose record is so many bytes long.
pub fn judged(c: Case, length: usize, model: Model) -> Answer
    requires { Sound c }
    ensures { result ≡ shown (judgement (case_of c) length (verdict_of (case_of c) (model_of model))) }
{
    match rules::verdict(c, model) {
        Ok(()) => Answer {
            finals: rules::finals(c),
            ..finished(length)
        },
        Err(rule) => Answer {
            number: u32::from(rule),
            ..finished(length)
        },
    }
}

// Writes the record of a case without fault into the buffer from a place on, or 6.
pub fn put(c: Case, out: &mut [u8], at: usize) -> Answer
    requires { Sound c }
    ensures value { result ≡ shown (put_record (record_of (case_of c)) out.old at).answer }
    ensures out_after { out.new ≡ (put_record (record_of (case_of c)) out.old at).buffer }
{
    match writer::put(c, out, at) {
        Ok(length) => finished(length),
        Err(e) => Answer::from(Refused::from(e)),
    }
}
