// Words on standard output.
use litmus::Answer;
use std::fmt;

// Where a write fails the program goes on.
pub fn say(rt: &impl Print, text: impl fmt::Display + Drop) {
    let _ = rt.print(text);
}

// An answer with all its fields.
#[derive(Clone, Copy)]
pub struct Shown(pub Answer);

impl fmt::Display for Shown {
    fn fmt<W: fmt::Write>(&self, f: &mut fmt::Formatter<W>) -> fmt::Result {
        let a = &self.0;
        write!(
            f,
            "{}, place {}, length {}, finals",
            a.number, a.place, a.length
        )?;
        for value in &a.finals {
            write!(f, " {value}")?;
        }
        Ok(())
    }
}

// Bytes as two hexadecimal digits each.
#[derive(Clone, Copy)]
pub struct Hex<'a>(pub &'a [u8]);

impl fmt::Display for Hex<'_> {
    fn fmt<W: fmt::Write>(&self, f: &mut fmt::Formatter<W>) -> fmt::Result {
        for b in self.0 {
            write!(f, " {b:02x}")?;
        }
        Ok(())
    }
}
