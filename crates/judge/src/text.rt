// Words on standard output.
ghost use Rattle.std.specs.Prelude.{◌≡◌, true};
ghost use Rattle.finite.specs.Lists.{every};
ghost use Rattle.model.specs.Case.{printable};

use std::fmt;

// Where a write fails the program goes on.
pub fn say(rt: &impl Print, text: impl fmt::Display + Drop) {
    let _ = rt.print(text);
}

// A path, so that none of its bytes reaches a terminal unescaped: a byte as it stands if it prints, else as \xHH; a backslash as two.
#[derive(Clone, Copy)]
pub struct Escaped<'a>(pub &'a [u8]);

impl fmt::Display for Escaped<'_> {
    fn fmt<W: fmt::Write>(&self, f: &mut fmt::Formatter<W>) -> fmt::Result {
        for b in self.0 {
            match *b {
                b'\\' => f.write_str("\\\\")?,
                b if case::printable(b) => f.write_char(char::from(b))?,
                b => write!(f, "\\x{b:02x}")?,
            }
        }
        Ok(())
    }
}

// Bytes of the input, which are printable and so safe for a terminal as they stand.
pub fn say_printable(rt: &impl Print, text: &[u8])
    requires { every printable text.now ≡ true }
{
    let _ = rt.write_all(text);
}

// What a refusal of a record's bytes means. By its number and not by an enum: the answer, which C gets too, holds it so.
pub fn refusal(number: u32) -> &'static str {
    match number {
        1 => "the bytes end inside a number or the name",
        2 => "a number has too many groups, or is not in its shortest form",
        3 => "a number is outside its range",
        4 =>
            "a dependency is unfit, a write order entry is not a store to that address or was listed before, or a dependency or a pair is not above the one before",
        23 => "a byte of the name is not printable (32 to 126)",
        _ => "no such refusal of bytes",
    }
}

// What a broken rule means, by its number likewise.
pub fn rule(number: u32) -> &'static str {
    match number {
        11 => "(strict partial order): a thread's order is not irreflexive and transitive",
        12 => "(own events): a thread's order leaves two of its own events unordered",
        13 =>
            "(program order): a thread's order breaks its program order at a barrier, on one address or against a dependency",
        14 => "(Coherence): a thread's order of two stores to one address is not the write order's",
        15 =>
            "(V1): a load does not hold the initial value, and no store to its address comes before it",
        16 =>
            "(V2): a load holds another value than some store to its address, does not come before it, and no other store lies between",
        17 =>
            "(F1): two events that a barrier orders, one before it and one after it on its thread, are not in that order for every thread",
        18 =>
            "(F2): two events that a barrier orders, one before it and one after a load of a store behind it, are not in that order for every thread",
        _ => "(no such rule)",
    }
}
