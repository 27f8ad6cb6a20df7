// What is printed of a record.
ghost use Rattle.std.specs.Prelude.{◌≤◌, length, IfSome};

use crate::text::{refusal, rule, say, say_printable};
use case::Case;
use std::fmt;

// The numbers of the models, as callers from C give them.
const PPCW: u64 = 0;

const PPCS: u64 = 1;

// What stands before an entry of a list.
fn separator(i: usize) -> &'static str {
    if i == 0 { "" } else { ", " }
}

// How many events each thread has.
#[derive(Clone, Copy)]
struct Threads<'a>(&'a Case);

impl fmt::Display for Threads<'_> {
    fn fmt<W: fmt::Write>(&self, f: &mut fmt::Formatter<W>) -> fmt::Result {
        let c = self.0;
        for p in 0..c.threads {
            let own = c
                .thread
                .iter()
                .take(c.events)
                .filter(|t| usize::from(**t) == p);
            write!(f, "{}{} on thread {p}", separator(p), own.count())?;
        }
        Ok(())
    }
}

// The final value of each address.
#[derive(Clone, Copy)]
struct Finals<'a>(&'a [u32]);

impl fmt::Display for Finals<'_> {
    fn fmt<W: fmt::Write>(&self, f: &mut fmt::Formatter<W>) -> fmt::Result {
        for (x, value) in self.0.iter().enumerate() {
            write!(f, "{}{value} at address {x}", separator(x))?;
        }
        Ok(())
    }
}

// The verdict on a record under a model.
fn say_verdict(rt: &impl Print, record: &[u8], model: u64, addresses: usize) {
    let answer = litmus::judge(record, model);
    if answer.number == 0 {
        let finals = &answer.finals[..addresses.min(Case::MOST_ADDRESSES)];
        say(
            rt,
            format_args!("accepted; final values: {}", Finals(finals)),
        );
    } else {
        say(
            rt,
            format_args!("breaks rule {} {}", answer.number, rule(answer.number)),
        );
    }
}

// The name of the record at the start of the bytes.
fn say_name(rt: &impl Print, bytes: &[u8]) {
    let name = litmus::name(bytes);
    if name.is_empty() {
        say(rt, ", without a name");
    } else {
        say(rt, ": ");
        say_printable(rt, name);
    }
}

// A record that was read, and starts at the byte of the input.
fn say_record(rt: &impl Print, bytes: &[u8], c: &Case, length: usize, from: u64) {
    say_name(rt, bytes);
    say(
        rt,
        format_args!(
            "\n  place    byte {from}, {length} bytes long\n  events   {}",
            Threads(c)
        ),
    );
    if case::is_second(c.edition) {
        say(
            rt,
            format_args!("\n  edition  2; dependencies: {}", c.dependencies),
        );
    }
    say(rt, "\n  PPCw     ");
    say_verdict(rt, bytes, PPCW, c.addresses);
    say(rt, "\n  PPCs     ");
    say_verdict(rt, bytes, PPCS, c.addresses);
    say(rt, "\n\n");
}

// A record that can't be read, and starts at the byte of the input.
fn say_refused(rt: &impl Print, number: u32, place: usize, from: u64) {
    let at = from.wrapping_add(place as u64);
    say(
        rt,
        format_args!(
            "\n  place    byte {from}\n  refused  number {number} at byte {at}: {}\n  The rest of the input is left: where its next record starts can't be known.\n\n",
            refusal(number)
        ),
    );
}

// The record at the start of the bytes. Gives its length, or none where it can't be read.
pub fn show(rt: &impl Print, bytes: &[u8], from: u64, record: u64) -> Option<usize>
    ensures { IfSome result (λ n. n ≤ length bytes.now) }
{
    let reading = litmus::read(bytes);
    let answer = reading.answer;
    say(rt, format_args!("record {record}"));
    if answer.number != 0 {
        say_refused(rt, answer.number, answer.place, from);
        return None;
    }
    say_record(rt, bytes, &reading.case, answer.length, from);
    Some(answer.length)
}
