// A condition in text, read and evaluated in one pass.
#![tactic(auto)]

ghost use Rattle.std.specs.Prelude.{◌≡◌, ◌+◌, ◌*◌, ◌-◌, ◌≤◌, ◌<◌, eqb, length, drop};
ghost use Rattle.model.specs.Limits.{most_value};
ghost use Rattle.condition_model.specs.Reader.{is, skipped, sign, is_digit, digits, unfit as unfit_digits, number_in, valued as valued_in, equation_at, read_text};
ghost use Rattle.condition_model.specs.Truth.{truth_c, truth_f};
ghost use Rattle.condition_reader.specs.Told.{text_number, told, place_told, sign_told, map_out, value_in, is_value, held_at, held_ranges, Small, digits_in, sign_at, ReadAs, Phrase.disjunction, Phrase.conjunction, Phrase.single};

use case::Case;

// The most bytes of a text.
pub const MOST_TEXT: usize = 512;

// How deep `~` and brackets may be nested.
pub const MOST_DEPTH: usize = 16;

// Why a text can't be read. The numbers are those that answers give.
#[derive(Clone, Copy, Debug, PartialEq, Eq)]
pub enum TextFault {
    // a number is out of its range, or the text is too long
    Range = 3,
    // anything outside the grammar
    Grammar = 21,
    // `~` and brackets are nested too deep
    Depth = 22,
}

impl TextFault {
    // The fault of what stands at a place.
    pub fn at(self, place: usize) -> TextRefusal
        ensures { result ≡ record { fault = self; place = place } }
    {
        TextRefusal { fault: self, place }
    }
}

impl From<TextFault> for u32 {
    ghost from_gives = { λ fault n. n ≡ text_number fault };

    fn from(fault: TextFault) -> u32 {
        fault as u32
    }
}

// A fault of a text and its place.
#[derive(Clone, Copy, Debug, PartialEq, Eq)]
pub struct TextRefusal {
    pub fault: TextFault,
    pub place: usize,
}

// What a text may name: the final value of each address, and the kind and the value of each event.
#[derive(Clone, Copy)]
struct Known<'a> {
    finals: &'a [u32],
    kinds: &'a [u8],
    values: &'a [u32],
    ghost small: { Small finals.now kinds.now values.now },
}

impl<'a> Known<'a> {
    // The final value of an address, or the value of a load, which n has to be the number of.
    fn held(&self, memory: bool, n: usize) -> Option<u32>
        ensures { result ≡ held_at memory self.now.finals.now self.now.kinds.now self.now.values.now n }
    {
        if memory {
            self.finals.get(n).copied()
        } else if self.kinds.get(n) == Some(&Case::LOAD) {
            Some(self.values[n])
        } else {
            None
        }
    }
}

// Whether the byte b stands at a place.
fn stands(text: &[u8], i: usize, b: u8) -> bool
    ensures { result ≡ is b text.now i }
{
    text.get(i) == Some(&b)
}

// What stands from a place on.
fn rest(text: &[u8], at: usize) -> &[u8]
    ensures { result.now ≡ drop at text.now }
{
    &text[at.min(text.len())..]
}

// The place behind the spaces that stand at one.
fn skip(text: &[u8], at: usize) -> usize
    ensures { result ≡ skipped text.now at }
{
    at + rest(text, at).iter().take_while(|&&b| b == b' ').count()
}

// How many digits stand from a place on.
fn digits(text: &[u8], at: usize) -> usize
    ensures { result ≡ length (digits (drop at text.now)) }
{
    rest(text, at)
        .iter()
        .take_while(|b| b.is_ascii_digit())
        .count()
}

// The value of the digits from a place on, which are `count`.
fn value_of(text: &[u8], at: usize, count: usize) -> Result<(u32, usize), TextRefusal>
    requires { count ≡ length (digits (drop at text.now)) }
    ensures { told result ≡ digits_in text.now at }
{
    let end = at + count;
    let mut value: u64 = 0;
    for i in at..end {
        value = value * 10 + u64::from(text[i] - b'0');
        if u64::from(Case::MOST_VALUE) < value {
            return Err(TextFault::Range.at(at));
        }
    }
    Ok((value as u32, end))
}

// Whether no digit stands at a place, or a needless zero; the digits from there on are `count`.
fn unfit(text: &[u8], at: usize, count: usize) -> bool
    requires { count ≡ length (digits (drop at text.now)) }
    ensures { result ≡ unfit_digits (digits (drop at text.now)) }
{
    count == 0 || 1 < count && text[at] == b'0'
}

// The decimal number at a place.
fn number(text: &[u8], at: usize) -> Result<(u32, usize), TextRefusal>
    ensures { told result ≡ number_in is_value text.now at }
{
    let count = digits(text, at);
    if unfit(text, at, count) {
        return Err(TextFault::Grammar.at(at));
    }
    value_of(text, at, count)
}

// The byte b, which has to stand at a place; gives the next place.
fn expect(text: &[u8], at: usize, b: u8) -> Result<usize, TextRefusal>
    ensures { place_told result ≡ sign b text.now at }
{
    if stands(text, at, b) {
        Ok(at + 1)
    } else {
        Err(TextFault::Grammar.at(at))
    }
}

// `=` and a value, compared with x.
fn valued(text: &[u8], at: usize, x: u32) -> Result<(bool, usize), TextRefusal>
    ensures { told result ≡ map_out (eqb x) (valued_in is_value text.now at) }
{
    let start = expect(text, at, b'=')?;
    let (v, end) = number(text, skip(text, start))?;
    Ok((x == v, skip(text, end)))
}

// `m` and an address, or `e` and a load's number; `=` and a value.
fn equation(text: &[u8], known: &Known, at: usize) -> Result<(bool, usize), TextRefusal>
    ensures { told result ≡ map_out (truth_f (value_in known.now.finals.now) (value_in known.now.values.now)) (equation_at (held_ranges known.now.finals.now known.now.kinds.now) text.now at) }
{
    let memory = stands(text, at, b'm');
    if !memory {
        expect(text, at, b'e')?;
    }
    let start = at + 1;
    let (n, next) = number(text, start)?;
    let Some(x) = known.held(memory, n as usize) else {
        return Err(TextFault::Range.at(start));
    };
    valued(text, skip(text, next), x)
}

// The place behind the sign of the bytes x and y, if x stands at a place.
fn sign_at(text: &[u8], at: usize, x: u8, y: u8) -> Result<Option<usize>, TextRefusal>
    ensures { sign_told at result ≡ sign_at x y text.now at }
{
    if !stands(text, at, x) {
        return Ok(None);
    }
    let end = expect(text, at + 1, y)?;
    Ok(Some(skip(text, end)))
}

// Terms joined by `\/`, where `left` levels of nesting are left.
#[cycle(condition_factor_term)]
fn condition(
    text: &[u8],
    known: &Known,
    at: usize,
    left: usize,
) -> Result<(bool, usize), TextRefusal>
    ensures { ReadAs disjunction known.now.finals.now known.now.kinds.now known.now.values.now left text.now at (told result) }
{
    let (first, p) = term(text, known, at, left)?;
    let Some(q) = sign_at(text, p, b'\\', b'/')? else {
        return Ok((first, p));
    };
    let (rest, end) = condition(text, known, q, left)?;
    Ok((first || rest, end))
}

// Factors joined by `/\`.
#[cycle(condition_factor_term)]
fn term(text: &[u8], known: &Known, at: usize, left: usize) -> Result<(bool, usize), TextRefusal>
    ensures { ReadAs conjunction known.now.finals.now known.now.kinds.now known.now.values.now left text.now at (told result) }
{
    let (first, p) = factor(text, known, at, left)?;
    let Some(q) = sign_at(text, p, b'/', b'\\')? else {
        return Ok((first, p));
    };
    let (rest, end) = term(text, known, q, left)?;
    Ok((first && rest, end))
}

// `~` and a factor, a bracketed condition, or an equation.
#[cycle(condition_factor_term)]
fn factor(text: &[u8], known: &Known, at: usize, left: usize) -> Result<(bool, usize), TextRefusal>
    ensures { ReadAs single known.now.finals.now known.now.kinds.now known.now.values.now left text.now at (told result) }
{
    if stands(text, at, b'~') {
        if left == 0 {
            return Err(TextFault::Depth.at(at));
        }
        let (inner, end) = factor(text, known, skip(text, at + 1), left - 1)?;
        return Ok((!inner, end));
    }
    if stands(text, at, b'(') {
        if left == 0 {
            return Err(TextFault::Depth.at(at));
        }
        let (inner, p) = condition(text, known, skip(text, at + 1), left - 1)?;
        let end = expect(text, p, b')')?;
        return Ok((inner, skip(text, end)));
    }
    equation(text, known, at)
}

// The truth of the condition in a text and the text's end, or its leftmost fault.
pub fn read_text(
    text: &[u8],
    finals: &[u32],
    kinds: &[u8],
    values: &[u32],
) -> Result<(bool, usize), TextRefusal>
    requires { Small finals.now kinds.now values.now }
    ensures { told result ≡ map_out (truth_c (value_in finals.now) (value_in values.now)) (read_text (held_ranges finals.now kinds.now) text.now) }
{
    if MOST_TEXT < text.len() {
        return Err(TextFault::Range.at(MOST_TEXT));
    }
    let known = Known {
        finals,
        kinds,
        values,
    };
    let (truth, end) = condition(text, &known, skip(text, 0), MOST_DEPTH)?;
    if end == text.len() {
        Ok((truth, end))
    } else {
        Err(TextFault::Grammar.at(end))
    }
}
