// Reading an input into a buffer, behind the bytes that are kept of it.
#![tactic(auto)]

ghost use Rattle.std.specs.Prelude.{◌≡◌, ◌≢◌, IfOk, IfErr, ◌+◌, ◌-◌, ◌^◌, ◌<◌, length};
ghost use Rattle.std.specs.IoError.{error_kind};
ghost use Rattle.stream.specs.Kept.{Kept, moved_up, got_by, interrupted, ReadOn};

use std::io;
use std::io::{ErrorKind, Read};

// What one read came to: how many bytes the buffer holds now, and whether the input has ended.
#[derive(Clone, Copy, Debug, PartialEq, Eq)]
pub struct Got {
    pub have: usize,
    pub ended: bool,
}

// Writes a line to the standard error: what failed, and why. Where that fails too, nobody is told.
pub fn fail(errors: &impl Print, what: &[u8], why: &io::Error) {
    let _ = errors.write_all(what);
    let _ = errors.println(format_args!(": {why}"));
}

// Moves the bytes from `at` up to `have` to the front, and gives how many they are. The bytes behind them stay. Bytes that stand at the
// front already are not copied, so that a small read costs no more than what it brings.
pub fn moved_up(buffer: &mut [u8], at: usize, have: usize) -> usize
    requires { Kept at have (length buffer.old) }
    ensures value { result ≡ have - at }
    ensures buffer_after { buffer.new ≡ moved_up buffer.old at have }
{
    if 0 < at {
        buffer.copy_within(at..have, 0);
    }
    have - at
}

// What a read behind so many bytes came to. The input has ended where it gave none, and goes on where a signal interrupted it.
fn outcome(have: usize, answer: io::Result<usize>) -> io::Result<Got>
    requires { IfOk answer (λ count. have + count < 2 ^ 64) }
    ensures read { IfOk answer (λ count. result ≡ Ok (got_by have count)) }
    ensures interrupted { IfErr answer (λ e. error_kind e ≡ ErrorKind.Interrupted → result ≡ Ok (interrupted have)) }
    ensures failed { IfErr answer (λ e. error_kind e ≢ ErrorKind.Interrupted → result ≡ Err e) }
{
    match answer {
        Ok(count) => Ok(Got {
            have: have + count,
            ended: count == 0,
        }),
        Err(e) if e.kind() == ErrorKind::Interrupted => Ok(Got { have, ended: false }),
        Err(e) => Err(e),
    }
}

// Keeps the bytes from `at` up to `have` and reads once behind them, where there is room for one at least, so that an input has ended
// where no byte comes.
pub fn read_on<R: Read>(input: &mut R, buffer: &mut [u8], at: usize, have: usize) -> io::Result<Got>
    requires kept { Kept at have (length buffer.old) }
    requires at_in_bounds { have - at < length buffer.old }
    ensures { ReadOn buffer.old at have buffer.new result }
{
    let held = moved_up(buffer, at, have);
    outcome(held, input.read(&mut buffer[held..]))
}
