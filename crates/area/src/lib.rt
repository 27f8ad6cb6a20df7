// Records in a lent area, stored one byte at a time, so that a cut loses no finished frame.
#![tactic(auto)]

ghost use Rattle.std.specs.Prelude.{◌≡◌, suc, ◌+◌, ◌≤◌, ◌<◌, leb, length, take, drop};
ghost use Rattle.finite.specs.Lists.{every};
ghost use Rattle.model.specs.Record.{read};
ghost use Rattle.model.specs.Answers.{refusal};
ghost use Rattle.answers.specs.Shown.{shown};
ghost use Rattle.area_model.specs.Area.{is_unused, none, by_reading, frame_at, found, after_stores, appending, clearing, store_some, append_at, append_read, append as appended, repair as repaired};
ghost use Rattle.area.specs.Shown.{frame_shown, sized, frame_told, EndOf, stores_given, refusal_number, refusal_at, Answered, Made, Cleared};

use answers::{Answer, Cause, Refused};

// The flag of a finished frame, and the byte that ends the log.
const FINISHED: u8 = 0;

const UNUSED: u8 = 255;

// What stands at a place of an area. Where it is a finished frame, its record begins at `at` and has `length` bytes. Where it is none, the
// log has ended there, and `number` and `place` are its own fault, 0 if it has none. The other fields are 0.
#[repr(C)]
#[derive(Clone, Copy)]
pub struct Frame {
    pub number: u32,
    pub ended: bool,
    pub place: usize,
    pub at: usize,
    pub length: usize,
}

// No finished frame: the log ends, with that fault.
fn no_frame(number: u32, place: usize) -> Frame
    ensures { result ≡ frame_shown 0 (none (record { number = number; place = place })) }
{
    Frame {
        number,
        ended: true,
        place,
        at: 0,
        length: 0,
    }
}

// How many bytes the record has whose frame's flag stands at a place.
fn finished_size(area: &[u8], at: usize) -> Result<usize, Refused>
    requires { at < length area.now }
    ensures { frame_told (sized result) ≡ by_reading at (read (drop (suc at) area.now)) }
{
    let start = at + 1;
    match reader::read_case(&area[start..]) {
        Ok(reading) => Ok(reading.length),
        Err(e) => Err(Refused {
            cause: Cause::Fault(e.fault),
            place: start + e.place,
        }),
    }
}

// How many bytes the record of the frame at a place has; none where the log ends there, as it does past the area's end; or the log's
// own fault.
fn frame_size(area: &[u8], at: usize) -> Result<Option<usize>, Refused>
    ensures { frame_told result ≡ frame_at area.now at }
{
    if area.len() <= at {
        return Ok(None);
    }
    match area[at] {
        UNUSED => Ok(None),
        FINISHED => Ok(Some(finished_size(area, at)?)),
        _ => Err(Refused {
            cause: Cause::BadFlag,
            place: at,
        }),
    }
}

// What stands at a place of an area; past its end no frame. The next frame begins behind the record of this one.
pub fn next_frame(area: &[u8], at: usize) -> Frame
    ensures { result ≡ frame_shown at (frame_at area.now at) }
{
    match frame_size(area, at) {
        Ok(Some(length)) => Frame {
            number: 0,
            ended: false,
            place: 0,
            at: at + 1,
            length,
        },
        Ok(None) => no_frame(0, 0),
        Err(e) => no_frame(u32::from(e.cause), e.place),
    }
}

// The place behind the last finished frame of a log, or its own fault. Each record is read once.
fn find_end(area: &[u8]) -> Result<usize, Refused>
    ensures { EndOf (found area.now) result }
{
    let mut at = 0;
    while let Some(size) = frame_size(area, at)? {
        at += 1 + size;
    }
    Ok(at)
}

// Stores one byte of a frame behind the end of the log: the next of its record of so many bytes, or the flag once all of them are stored.
fn store_next(area: &mut [u8], end: usize, bytes: &[u8], size: usize, made: usize)
    requires { (made ≤ size) × (size ≤ length bytes.now) × (end + 1 + size ≤ length area.old) }
    ensures { area.new ≡ after_stores area.old (take 1 (drop made (appending end (take size bytes.now)))) }
{
    if made < size {
        area[end + 1 + made] = bytes[made];
        return;
    }
    area[end] = FINISHED;
}

// Stores a frame behind the end of the log, its record of so many bytes first and its flag last, one byte at a time, and stops after as
// many stores as allowed. Gives the stores made.
fn store_frame(area: &mut [u8], end: usize, bytes: &[u8], size: usize, allowed: usize) -> usize
    requires { (size ≤ length bytes.now) × (end + 1 + size ≤ length area.old) }
    ensures { Made (store_some allowed (appending end (take size bytes.now)) area.old) result area.new }
{
    let stores = allowed.min(size + 1);
    for made in 0..stores {
        store_next(area, end, bytes, size, made);
    }
    stores
}

// Whether every byte from a place on is unused.
fn all_unused(area: &[u8], from: usize) -> bool
    ensures { result ≡ every is_unused (drop from area.now) }
{
    area.iter().skip(from).all(|b| *b == UNUSED)
}

// Whether a frame whose record has so many bytes has room behind the end of the log.
fn has_room(area: &[u8], end: usize, size: usize) -> bool
    requires { end ≤ length area.now }
    ensures { result ≡ leb (end + 1 + size) (length area.now) }
{
    size < area.len() - end
}

// Why a record of so many bytes is not appended behind the end of a log without fault: 6, then 8.
fn check_room(area: &[u8], end: usize, size: usize) -> Result<(), Cause>
    requires { end ≤ length area.now }
    ensures { refusal_number result ≡ refusal_at end size area.now }
{
    if !has_room(area, end, size) {
        return Err(Cause::NoRoom);
    }
    if !all_unused(area, end) {
        return Err(Cause::Unrepaired);
    }
    Ok(())
}

// Appends a record of so many bytes behind the end of a log without fault: 6, 8, or the stores made.
fn append_at(
    area: &mut [u8],
    end: usize,
    bytes: &[u8],
    size: usize,
    allowed: usize,
) -> Result<usize, Refused>
    requires { (size ≤ length bytes.now) × (end ≤ length area.old) }
    ensures { Answered (append_at end allowed (take size bytes.now) area.old) (stores_given result) area.new }
{
    check_room(area, end, size)?;
    Ok(store_frame(area, end, bytes, size, allowed))
}

// Appends the record at the start of the bytes: its own fault comes first.
fn append_read(area: &mut [u8], end: usize, bytes: &[u8], allowed: usize) -> Result<usize, Refused>
    requires { end ≤ length area.old }
    ensures { Answered (append_read end allowed bytes.now area.old (read bytes.now)) (stores_given result) area.new }
{
    let reading = reader::read_case(bytes)?;
    append_at(area, end, bytes, reading.length, allowed)
}

// Appends the record at the start of the bytes to the log in an area: the log's own fault comes before the record's.
fn append_log(area: &mut [u8], bytes: &[u8], allowed: usize) -> Result<usize, Refused>
    ensures { Answered (appended area.old bytes.now allowed) (stores_given result) area.new }
{
    let end = find_end(area)?;
    append_read(area, end, bytes, allowed)
}

// What a call answers that makes stores.
fn stored(stores: Result<usize, Refused>) -> Answer
    ensures { result ≡ stores_given stores }
{
    answers::given(stores.map(answers::finished))
}

// Appends the record at the start of the bytes to the log in an area, by at most so many stores: the log's own fault; the record's 1 to 4
// or 23; 6 for too little room; 8 where bytes behind the last finished frame are not unused; or 0 and the stores made.
pub fn append(area: &mut [u8], bytes: &[u8], allowed: usize) -> Answer
    ensures value { result ≡ shown (appended area.old bytes.now allowed).answer }
    ensures area_after { area.new ≡ (appended area.old bytes.now allowed).buffer }
{
    stored(append_log(area, bytes, allowed))
}

// Makes a byte unused, and gives how many stores that took.
fn clear_byte(area: &mut [u8], at: usize) -> usize
    requires { at < length area.old }
    ensures { Cleared area.old at result area.new }
{
    if area[at] == UNUSED {
        return 0;
    }
    area[at] = UNUSED;
    1
}

// Makes every byte from a place on unused, front to back, and stops after as many stores as allowed. Gives the stores made.
fn clear(area: &mut [u8], from: usize, allowed: usize) -> usize
    ensures { Made (store_some allowed (clearing from (drop from area.old)) area.old) result area.new }
{
    let mut stores = 0;
    for i in from..area.len() {
        if allowed <= stores {
            return stores;
        }
        stores += clear_byte(area, i);
    }
    stores
}

// Makes everything behind the last finished frame of a log without fault unused.
fn repair_log(area: &mut [u8], allowed: usize) -> Result<usize, Refused>
    ensures { Answered (repaired area.old allowed) (stores_given result) area.new }
{
    let end = find_end(area)?;
    Ok(clear(area, end, allowed))
}

// Makes everything behind the last finished frame unused, by at most so many stores: the log's own fault, or 0 and the stores made.
pub fn repair(area: &mut [u8], allowed: usize) -> Answer
    ensures value { result ≡ shown (repaired area.old allowed).answer }
    ensures area_after { area.new ≡ (repaired area.old allowed).buffer }
{
    stored(repair_log(area, allowed))
}
