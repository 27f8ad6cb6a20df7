// Judges litmus records: back to back from standard input, or from the files named as arguments. Prints for each its name, its
// events by thread, the verdict under both models and the final memory; or why it can't be read, and where.
#![tactic(auto)]

mod answer;
mod input;
mod text;

use input::judge_input;
use std::env::FillError;
use std::fs::File;
use std::io;
use std::io::ErrorKind;
use std::rt::{Env, Files};
use stream::fail;
use text::{Escaped, say};

// Room for an argument, as long as a path may be.
const ROOM: usize = 4096;

// Linux's number of the error that a name is too long.
const TOO_LONG: i32 = 36;

const USAGE: &str = "\
Judges litmus records under the models PPCw and PPCs. Records may lie back to back.

    judge             judges the records of standard input
    judge FILE ..     judges the records of each file
    judge --help      prints this text

Each record is answered by its name, its place and length, its events by thread (in edition 2
also how many dependencies it has), and under each model either 'accepted' with the final
memory or the lowest rule that it breaks.
After a record that can't be read the rest of that input is left, since the next record
can't be found. Bytes of FILE that don't print are shown as \\xHH, a backslash as two.
";

// Opens a file. The system is asked only for names that are text.
fn opened<R: Files>(rt: &R, path: &[u8]) -> io::Result<R::File> {
    match str::from_utf8(path) {
        Ok(text) => File::open(rt, text),
        Err(_) => Err(io::Error::from(ErrorKind::InvalidFilename)),
    }
}

fn judge_path(rt: &(impl Files + Print), path: &[u8]) -> io::Result<()> {
    let mut file = opened(rt, path)?;
    say(rt, format_args!("file {}\n\n", Escaped(path)));
    judge_input(rt, &mut file)
}

// What an argument asks for.
fn take_word(rt: &(impl Files + Print), errors: &impl Print, word: &[u8]) {
    if word == b"--help".as_slice() {
        say(rt, USAGE);
    } else if let Err(e) = judge_path(rt, word) {
        fail(errors, word, &e);
    }
}

// Does what argument i asks for, if there is one.
fn take_argument(rt: &(impl Env + Files + Print), errors: &impl Print, i: usize) -> bool {
    let mut word = [0u8; ROOM];
    match rt.arg(i, &mut word) {
        Ok(length) => take_word(rt, errors, &word[..length]),
        Err(FillError::TooLong) => {
            fail(errors, b"argument", &io::Error::from_raw_os_error(TOO_LONG));
        }
        Err(FillError::NotPresent) => return false,
    }
    true
}

// Does what the arguments from the second on ask for.
fn take_arguments(rt: &(impl Env + Files + Print), errors: &impl Print) {
    for i in 2..usize::MAX {
        if !take_argument(rt, errors, i) {
            return;
        }
    }
}

fn main(rt: HostRuntime) {
    let errors = rt.stderr();
    if take_argument(&rt, &errors, 1) {
        take_arguments(&rt, &errors);
    } else if let Err(e) = judge_input(&rt, &mut rt.stdin()) {
        fail(&errors, b"standard input", &e);
    }
}
