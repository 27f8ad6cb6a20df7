// The tally of a log: how many records were judged, how many of them accepted, and by rule for how many it is the lowest that they break.
#![tactic(auto)]

ghost use Rattle.std.specs.Prelude.{◌≡◌, ◌+◌, ◌≤◌, ◌<◌, MatchResult};
ghost use Rattle.model.specs.Rules.{first_rule};
ghost use Rattle.tally.specs.Tally.{most_count, rules, zeros, number_of, addition_to, addition_left, adding};

// Its fields and their order are those of litmus_tally in include/litmus.h.
#[repr(C)]
#[derive(Clone, Copy)]
pub struct Tally {
    pub records: u32,
    pub accepted: u32,
    // by rule, from the first on
    pub broken: [u32; Tally::RULES],
}

impl Tally {
    // a count's most
    pub const MOST_COUNT: u32 = 4294967295;

    // rules 11 to 18, as numbers: a log counts the verdicts that any caller names
    pub const FIRST_RULE: u32 = 11;

    pub const LAST_RULE: u32 = 18;

    pub const RULES: usize = 8;

    // No record.
    pub fn zeros() -> Tally
        ensures { result ≡ zeros }
    {
        Tally {
            records: 0,
            accepted: 0,
            broken: [0u32; Tally::RULES],
        }
    }
}

// Why a record is not added. The numbers are those that answers give.
#[derive(Clone, Copy, Debug, PartialEq, Eq)]
pub enum NotAdded {
    // the number is no verdict
    NoVerdict = 3,
    // a count that would grow is at its most
    Full = 6,
}

impl From<NotAdded> for u32 {
    ghost from_gives = { λ why n. n ≡ number_of why };

    fn from(why: NotAdded) -> u32 {
        why as u32
    }
}

// One more in a count, where it is not at its most.
fn one_more(count: u32) -> Result<u32, NotAdded>
    ensures { MatchResult result (λ n. (count < most_count) × (n ≡ count + 1)) (λ why. (most_count ≤ count) × (why ≡ NotAdded.Full)) }
{
    if count < Tally::MOST_COUNT {
        Ok(count + 1)
    } else {
        Err(NotAdded::Full)
    }
}

// One record more that was accepted.
fn added_accepted(tally: Tally) -> Result<Tally, NotAdded>
    ensures { addition_to tally result ≡ adding tally 0 }
{
    Ok(Tally {
        records: one_more(tally.records)?,
        accepted: one_more(tally.accepted)?,
        broken: tally.broken,
    })
}

// One more record that broke a rule, counted from the first.
fn added_broken(tally: Tally, rule: usize) -> Result<Tally, NotAdded>
    requires { rule < rules }
    ensures { addition_to tally result ≡ adding tally (first_rule + rule) }
{
    let mut next = tally;
    next.records = one_more(tally.records)?;
    next.broken[rule] = one_more(tally.broken[rule])?;
    Ok(next)
}

// The tally with one more record of that verdict, or why there is none.
pub fn added(tally: Tally, verdict: u32) -> Result<Tally, NotAdded>
    ensures { addition_to tally result ≡ adding tally verdict }
{
    match verdict {
        0 => added_accepted(tally),
        Tally::FIRST_RULE..=Tally::LAST_RULE => {
            added_broken(tally, (verdict - Tally::FIRST_RULE) as usize)
        }
        _ => Err(NotAdded::NoVerdict),
    }
}

// Adds one more record of that verdict to the tally where it is kept, or says why not and leaves it as it was.
pub fn add(tally: &mut Tally, verdict: u32) -> Result<(), NotAdded>
    ensures { addition_left result tally.new ≡ adding tally.old verdict }
{
    *tally = added(*tally, verdict)?;
    Ok(())
}
