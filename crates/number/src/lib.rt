// A record's numbers: groups of seven bits, lowest group first, shortest form.
#![tactic(auto)]

ghost use Rattle.std.specs.Prelude.{◌≡◌, ◌+◌, ◌≤◌, ◌<◌, length};
ghost use Rattle.number.specs.Number.{read_number, encode, widest, splice};
ghost use Rattle.number.specs.Reader.{number_of, outcome, within, under};

// The most groups of a number.
pub const GROUPS: usize = 5;

// Why bytes can't be read. The numbers are those that answers give.
#[derive(Clone, Copy, Debug, PartialEq, Eq)]
pub enum Fault {
    // they end
    Ends = 1,
    // a number has too many groups, or a needless one
    Form = 2,
    // a number is out of its range
    Range = 3,
    // what was read may not stand where it does
    Turn = 4,
    // a byte of a name is not printable
    Unprintable = 23,
}

impl Fault {
    // The fault of what starts at a place.
    pub fn at(self, place: usize) -> Refusal
        ensures { result ≡ record { fault = self; place = place } }
    {
        Refusal { fault: self, place }
    }
}

impl From<Fault> for u32 {
    ghost from_gives = { λ fault n. n ≡ number_of fault };

    fn from(fault: Fault) -> u32 {
        fault as u32
    }
}

// A fault, and where what is faulty starts.
#[derive(Clone, Copy, Debug, PartialEq, Eq)]
pub struct Refusal {
    pub fault: Fault,
    pub place: usize,
}

// Reads a number from least to most; gives it, and where the next one starts.
pub fn read_within(bytes: &[u8], at: usize, least: u32, most: u32) -> Result<(u32, usize), Refusal>
    ensures { outcome result ≡ within least most bytes.now at }
{
    let (v, next) = read_number(bytes, at, most)?;
    if v < least {
        return Err(Fault::Range.at(at));
    }
    Ok((v, next))
}

// Reads a number below a bound, which may be 0: then there is none.
pub fn read_under(bytes: &[u8], at: usize, bound: u32) -> Result<(u32, usize), Refusal>
    ensures { outcome result ≡ under bound bytes.now at }
{
    let (v, next) = read_number(bytes, at, bound)?;
    if v < bound {
        return Ok((v, next));
    }
    Err(Fault::Range.at(at))
}

// Reads a number up to a limit.
pub fn read_number(bytes: &[u8], at: usize, limit: u32) -> Result<(u32, usize), Refusal>
    ensures { outcome result ≡ read_number bytes.now at limit }
{
    let mut place = at;
    let mut least: u64 = 0;
    let mut value: u64 = 0;
    let mut scale: u64 = 1;
    for _ in 0..GROUPS {
        if bytes.len() <= place {
            return Err(Fault::Ends.at(at));
        }
        let b = u64::from(bytes[place]);
        place += 1;
        if b < 128 {
            if b < least {
                return Err(Fault::Form.at(at));
            }
            let v = value + b * scale;
            if u64::from(limit) < v {
                return Err(Fault::Range.at(at));
            }
            return Ok((v as u32, place));
        }
        value += (b - 128) * scale;
        scale *= 128;
        least = 1;
    }
    Err(Fault::Form.at(at))
}

// How many bytes v takes.
pub fn size(v: u32) -> usize
    ensures { (result ≡ length (encode v)) × (result ≤ widest) }
{
    let mut rest = v;
    let mut size: usize = 1;
    while 128 <= rest {
        rest /= 128;
        size += 1;
    }
    size
}

// Writes v from at on; gives where the next number starts.
pub fn write_number(out: &mut [u8], at: usize, v: u32) -> usize
    requires { at + length (encode v) ≤ length out.old }
    ensures { (result ≡ at + length (encode v)) × (out.new ≡ splice out.old at (encode v)) }
{
    let mut place = at;
    let mut rest = v;
    while 128 <= rest {
        out[place] = (128 + rest % 128) as u8;
        rest /= 128;
        place += 1;
    }
    out[place] = rest as u8;
    place + 1
}
