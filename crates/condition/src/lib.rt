// Whether a condition in text holds for a case without fault.
#![tactic(auto)]

ghost use Rattle.std.specs.Prelude.{◌≡◌, ◌≤◌};
ghost use Rattle.number.specs.Reader.{next};
ghost use Rattle.model.specs.Limits.{most_addresses, most_events};
ghost use Rattle.model.specs.Answers.{refusal};
ghost use Rattle.case.specs.Held.{case_of};
ghost use Rattle.case.specs.Sound.{Sound};
ghost use Rattle.rules.specs.Models.{model_of};
ghost use Rattle.answers.specs.Shown.{refusal_of};
ghost use Rattle.condition_model.specs.Answers.{condition_out, without as without_truth};
ghost use Rattle.condition_reader.specs.Told.{text_number, told};
ghost use Rattle.condition.specs.Shown.{shown_with, condition_shown, condition_given, firsts, text_truth};

use answers::{Answer, Refused};
use case::Case;
use condition_reader::TextRefusal;
use rules::Model;

// The answer of judging, or the refusal of the text where the case is accepted; and whether the condition holds, 1 or 0, which is 0 under
// every number but 0.
#[repr(C)]
#[derive(Clone, Copy)]
pub struct ConditionAnswer {
    pub number: u32,
    pub place: usize,
    pub length: usize,
    pub finals: [u32; Case::MOST_ADDRESSES],
    pub holds: u32,
}

impl From<Refused> for ConditionAnswer {
    ghost from_gives = { λ e w. w ≡ condition_shown (without_truth (refusal_of e)) };

    fn from(e: Refused) -> ConditionAnswer {
        answered(Answer::from(e), false)
    }
}

impl From<TextRefusal> for ConditionAnswer {
    ghost from_gives = { λ e w. w ≡ condition_shown (without_truth (refusal (text_number e.fault) e.place)) };

    fn from(e: TextRefusal) -> ConditionAnswer {
        ConditionAnswer {
            number: u32::from(e.fault),
            place: e.place,
            length: 0,
            finals: [0u32; Case::MOST_ADDRESSES],
            holds: 0,
        }
    }
}

// What a call answers that may be refused.
pub fn given(answer: Result<ConditionAnswer, Refused>) -> ConditionAnswer
    ensures { result ≡ condition_given answer }
{
    match answer {
        Ok(answer) => answer,
        Err(e) => ConditionAnswer::from(e),
    }
}

// An answer and a truth.
fn answered(answer: Answer, truth: bool) -> ConditionAnswer
    ensures { result ≡ shown_with answer truth }
{
    let finals = answer.finals;
    ConditionAnswer {
        number: answer.number,
        place: answer.place,
        length: answer.length,
        finals,
        holds: u32::from(truth),
    }
}

// The truth of a text for a case with these finals.
fn truth_of(
    text: &[u8],
    c: &Case,
    finals: &[u32; Case::MOST_ADDRESSES],
) -> Result<(bool, usize), TextRefusal>
    requires addresses_le_most_addresses { c.now.addresses ≤ most_addresses }
    requires events_le_most_events { c.now.events ≤ most_events }
    ensures { told result ≡ text_truth (firsts c.now.addresses finals.now) (firsts c.now.events c.now.kind) (firsts c.now.events c.now.value) text.now }
{
    condition_reader::read_text(
        text,
        &finals[..c.addresses],
        &c.kind[..c.events],
        &c.value[..c.events],
    )
}

// The condition's answer for a case whose record is so many bytes long: 11 to 18 with that length; or the text's 3, 21 or 22 and its
// place; or 0 with length and finals, and whether the condition holds.
pub fn asked(c: Case, length: usize, model: Model, text: &[u8]) -> ConditionAnswer
    requires { Sound c }
    ensures { result ≡ condition_shown (condition_out (model_of model) text.now (next (case_of c) length)) }
{
    let answer = answers::judged(c, length, model);
    if answer.number != 0 {
        return answered(answer, false);
    }
    match truth_of(text, &c, &answer.finals) {
        Ok((truth, _)) => answered(answer, truth),
        Err(e) => ConditionAnswer::from(e),
    }
}
