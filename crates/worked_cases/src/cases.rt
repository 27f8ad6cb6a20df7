// The calls on a case against those on its record.
use case::Case;
use litmus::Answer;

const IDENTITY: u64 = 0;

fn same_answer(a: Answer, b: Answer) -> bool {
    a.number == b.number && a.place == b.place && a.length == b.length && a.finals == b.finals
}

// Whether judging the case answers as judging the record does.
fn judged_alike(record: &[u8], c: Case, model: u64) -> bool {
    same_answer(litmus::judge(record, model), litmus::judge_case(c, model))
}

// Whether both start with the same n bytes.
fn same_start(a: &[u8], b: &[u8], n: usize) -> bool {
    n <= a.len() && n <= b.len() && &a[..n] == &b[..n]
}

// Whether writing the case answers as reading its record did, and gives its bytes.
fn written_back(record: &[u8], c: Case, read: Answer) -> bool {
    let mut space = [0u8; Case::MOST_BYTES];
    let out: &mut [u8] = &mut space;
    same_answer(litmus::write(c, out, 0), read) && same_start(out, record, read.length)
}

// Whether renumbering the case by the identity answers as reading did, and leaves the case.
fn renumbered_alike(record: &[u8], c: Case, read: Answer) -> bool {
    let renumbered = litmus::renumber_case(c, IDENTITY, IDENTITY);
    same_answer(renumbered.answer, read) && written_back(record, renumbered.case, read)
}

// The case with something in the room of dependencies, which edition 1 does not have.
fn with_spare_links(c: Case) -> Case {
    let mut spare = c;
    if !case::is_second(c.edition) {
        spare.dependencies = Case::MOST_DEPENDENCIES + 1;
        spare.class[0] = Case::LWSYNC;
    }
    spare
}

// Whether judging and writing the case agree with the calls on its record.
fn agrees(record: &[u8], c: Case, read: Answer) -> bool {
    judged_alike(record, c, 0)
        && judged_alike(record, c, 1)
        && written_back(record, c, read)
        && renumbered_alike(record, c, read)
}

// Whether every call on the case read from a record agrees with the calls on the record.
pub fn case_agrees(record: &[u8]) -> bool {
    let reading = litmus::read(record);
    let read = reading.answer;
    let case = reading.case;
    agrees(record, case, read) && agrees(record, with_spare_links(case), read)
}
