// A line for each call.
use crate::cases::case_agrees;
use crate::text::{Hex, Shown, say};
use litmus::Answer;
use std::fmt;

// The numbers of the models, as callers from C give them.
const PPCW: u64 = 0;

const PPCS: u64 = 1;

// Whether the calls on the case read from the record agree with those on its bytes.
fn agreement(record: &[u8]) -> &'static str {
    if litmus::read(record).answer.number != 0 {
        "no case"
    } else if case_agrees(record) {
        "calls on the case: same"
    } else {
        "calls on the case: DIFFERENT"
    }
}

// A record judged under both models, and its case beside it.
pub fn judged(rt: &impl Print, name: impl fmt::Display + Drop, record: &[u8]) {
    let weak = Shown(litmus::judge(record, PPCW));
    let strong = Shown(litmus::judge(record, PPCS));
    say(
        rt,
        format_args!(
            "{name}: PPCw {weak}; PPCs {strong}; {}\n",
            agreement(record)
        ),
    );
}

// Records judged one after the other, each with its name.
pub fn judged_each(rt: &impl Print, cases: &[(&str, &[u8])]) {
    for (name, record) in cases {
        judged(rt, *name, record);
    }
}

// An answer by itself.
pub fn answered(rt: &impl Print, name: &str, answer: Answer) {
    say(rt, format_args!("{name}: {}\n", Shown(answer)));
}

// An answer and what its call left in the buffer.
pub fn stored(rt: &impl Print, name: impl fmt::Display + Drop, answer: Answer, out: &[u8]) {
    say(
        rt,
        format_args!("{name}: {}; buffer{}\n", Shown(answer), Hex(out)),
    );
}

// A record renumbered into a buffer of 23 bytes from a place on.
pub fn renumbered(
    rt: &impl Print,
    name: &str,
    record: &[u8],
    threads: u64,
    addresses: u64,
    at: usize,
) {
    let mut space = [0xEEu8; 23];
    let out: &mut [u8] = &mut space;
    let answer = litmus::renumber(record, threads, addresses, out, at);
    stored(rt, name, answer, out);
}
