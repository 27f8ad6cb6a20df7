// Judges a log of records under PPCs as it comes on standard input, and prints its tally and how it ended: records, accepted, the counts
// of rules 11 to 18, the ending refusal and its place, one number a line.
#![tactic(auto)]

mod input;

ghost use Rattle.judge_log.specs.Progress.{WholeLog};

use input::{Outcome, State, judge_input};
use std::env::FillError;
use std::fmt;
use std::io::Read;
use std::rt::Env;
use stream::fail;

// How long the one argument is that is known.
const ROOM: usize = 6;

const USAGE: &str = "\
Judges a log of litmus records, back to back on standard input, under the model PPCs.

    judge_log < LOG      judges the log
    judge_log --help     prints this text

Prints twelve numbers, one a line: how many records there are; how many of them are accepted;
for how many each of the rules 11 to 18 is the lowest that they break; the number of the refusal
that ended the log, and its byte. An end between records is 0 and 0. Where the input can't be
read, the error alone is printed, on standard error.
";

// Where a write fails the program goes on.
fn say(rt: &impl Print, text: impl fmt::Display + Drop) {
    let _ = rt.print(text);
}

fn say_line(rt: &impl Print, n: impl fmt::Display + Drop) {
    let _ = rt.println(n);
}

// The twelve numbers of a log that was judged whole.
fn say_summary(rt: &impl Print, log: Outcome)
    requires { WholeLog log }
{
    say_line(rt, log.tally.records);
    say_line(rt, log.tally.accepted);
    for n in log.tally.broken {
        say_line(rt, n);
    }
    say_line(rt, log.number);
    say_line(rt, log.place);
}

fn judge_standard_input<R: Read>(rt: &impl Print, errors: &impl Print, input: &mut R) {
    match judge_input(input) {
        Ok(State::Over(log)) => say_summary(rt, log),
        Ok(State::Going(_)) => {}
        Err(e) => fail(errors, b"standard input", &e),
    }
}

// The first argument, which can only ask for help.
fn take_argument(rt: &impl Print, errors: &impl Print, word: &[u8]) {
    if word == b"--help".as_slice() {
        say(rt, USAGE);
    } else {
        say(
            errors,
            "judge_log: takes no argument but --help: the log comes on standard input\n",
        );
    }
}

fn main(rt: HostRuntime) {
    let errors = rt.stderr();
    let mut word = [0u8; ROOM];
    match rt.arg(1, &mut word) {
        Ok(length) => take_argument(&rt, &errors, &word[..length]),
        Err(FillError::TooLong) => take_argument(&rt, &errors, b""),
        Err(FillError::NotPresent) => judge_standard_input(&rt, &errors, &mut rt.stdin()),
    }
}
