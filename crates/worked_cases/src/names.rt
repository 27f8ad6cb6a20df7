// Names with bytes that are not printable (02 (xi)), in records and in cases handed without bytes.
use crate::lines::{answered, judged, judged_each, renumbered, stored};
use crate::records;
use crate::text::say;
use case::Case;

// The small record with a name of three bytes.
fn small_named(name: [u8; 3]) -> [u8; 21] {
    let mut record = records::SMALL_NAMED;
    record[18..].copy_from_slice(&name);
    record
}

// The byte as the first, the middle and the last of a name.
fn named_with(rt: &impl Print, b: u8) {
    for (place, name) in [
        ("first", [b, b'a', b'a']),
        ("in the middle", [b'a', b, b'a']),
        ("last", [b'a', b'a', b]),
    ] {
        judged(
            rt,
            format_args!("Name with byte {b} {place}"),
            &small_named(name),
        );
    }
}

// 23 beside the other answers of a judging.
fn judged_beside(rt: &impl Print) {
    judged_each(
        rt,
        &[
            (
                "Unprintable name, load 2 breaks rule 16",
                &records::UNPRINTABLE_LOAD_2,
            ),
            (
                "Unprintable name in edition 2",
                &records::UNPRINTABLE_SECOND,
            ),
            ("Unprintable name cut short", &records::UNPRINTABLE_SHORT),
        ],
    );
    answered(
        rt,
        "Unprintable name, model 2",
        litmus::judge(&records::UNPRINTABLE, 2),
    );
}

// 23 beside the other refusals of a renumbering.
fn renumbered_beside(rt: &impl Print, record: &[u8]) {
    renumbered(rt, "Unprintable name, renumbered", record, 0, 0, 2);
    renumbered(rt, "Unprintable name, threads by 6", record, 6, 0, 2);
    renumbered(rt, "Unprintable name, addresses by 6", record, 0, 6, 2);
    renumbered(rt, "Unprintable name, too little room", record, 0, 0, 5);
}

fn handed_back(rt: &impl Print, record: &[u8]) {
    let length = litmus::name(record).len();
    say(
        rt,
        format_args!("Bytes of the name handed back: {length}\n"),
    );
}

// The small record's case with a byte 0 for its name.
fn unprintable_case() -> Case {
    let mut c = litmus::read(&records::SMALL).case;
    c.name[0] = 0;
    c
}

// A case written into a buffer of 23 bytes from a place on.
fn written(rt: &impl Print, name: &str, c: Case, at: usize) {
    let mut space = [0xEEu8; 23];
    let out: &mut [u8] = &mut space;
    let answer = litmus::write(c, out, at);
    stored(rt, name, answer, out);
}

// The same of a case.
fn case_answers(rt: &impl Print, c: Case) {
    answered(
        rt,
        "Case with an unprintable name",
        litmus::judge_case(c, 0),
    );
    answered(
        rt,
        "Case with an unprintable name, model 2",
        litmus::judge_case(c, 2),
    );
    answered(
        rt,
        "Case with an unprintable name, threads by 24",
        litmus::renumber_case(c, 24, 0).answer,
    );
    written(rt, "Case with an unprintable name, written", c, 2);
    written(
        rt,
        "Case with an unprintable name, written, too little room",
        c,
        5,
    );
}

pub fn unprintable_names(rt: &impl Print) {
    for b in [31, 32, 126, 127, 0, 255] {
        named_with(rt, b);
    }
    judged_beside(rt);
    renumbered_beside(rt, &records::UNPRINTABLE);
    handed_back(rt, &records::UNPRINTABLE);
    case_answers(rt, unprintable_case());
}
