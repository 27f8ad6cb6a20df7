// The reading of a record into a case. A record lies in a slice of bytes from a place on; what lies behind it is not read.
#![tactic(auto)]

ghost use Rattle.std.specs.Prelude.{◌≡◌, [], ◌-◌, ◌*◌, ◌≤◌, ◌<◌, ◌&&◌, eqb, leb, length, replicate};
ghost use Rattle.number.specs.Reader.{times, turns, up_to, outcome, outcome_by, next};
ghost use Rattle.bits.specs.Bit.{bit};
ghost use Rattle.model.specs.Limits.{most_threads, most_addresses, most_events, most_dependencies, most_value, most_name};
ghost use Rattle.model.specs.Record.{event, rising_dependency, rising_dependencies, dependencies as dependencies_of, rising_pair, order, unlisted, write_order, next_write_order, text, head as head_of, listing as listing_of, rest as rest_of, case as case_at, read};
ghost use Rattle.model.specs.Answers.{name as name_of, name_part};
ghost use Rattle.case.specs.Held.{good_at, link_of};
ghost use Rattle.case.specs.Stores.{store_at};
ghost use Rattle.reader.specs.Answers.{model_event, model_pair, model_head, Stores, StoresCounted, Events, Links, pairs, Ran, at_once, follows_at, Rose, Padded, Tabled, ListingStored, RestStored, ReadingOf, ReadingFrom, part_of};

mod front;
mod listing;

use case::{Case, Link};
use front::Head;
use listing::Listed;
use number::{Fault, Refusal};

// Numbers that were read go from u32 to usize by `as`: usize has no From<u32>.

// A record's case and its length.
#[derive(Clone, Copy)]
pub struct Reading {
    pub case: Case,
    pub length: usize,
}

// Where a record's name stands in it, and the name's length. Zeros and no None under a refusal: C gets these two numbers.
#[derive(Clone, Copy)]
pub struct NamePart {
    pub at: usize,
    pub length: usize,
}

// An event as a Case holds it. Its kind is a number and not an enum: the arrays of C hold any byte.
#[derive(Clone, Copy)]
pub struct Event {
    pub kind: u8,
    pub thread: u8,
    pub address: u8,
    pub value: u32,
}

// Where a run of a row's pairs ends: the next place, the least event that may follow in the row, the row, and how many pairs are left.
#[derive(Clone, Copy)]
pub struct Run {
    pub place: usize,
    pub low: usize,
    pub row: u64,
    pub left: usize,
}

// A pair of an order: event a comes before event b.
#[derive(Clone, Copy)]
pub struct Pair {
    pub a: usize,
    pub b: usize,
}

// Reads an event of a record with the head; gives it, and where the next one starts.
#[tactic(auto, unfolding(model::specs::Record::event, number::specs::Reader::up_to, number::specs::Reader::below))]
fn read_event(bytes: &[u8], at: usize, head: Head) -> Result<(Event, usize), Refusal>
    ensures { outcome_by model_event result ≡ event head.edition head.threads head.addresses bytes.now at }
{
    let most_kind = u32::from(case::most_kind(head.edition));
    let (kind, after_kind) = number::read_number(bytes, at, most_kind)?;
    let (thread, after_thread) = number::read_number(bytes, after_kind, (head.threads - 1) as u32)?;
    let kind = kind as u8;
    let thread = thread as u8;
    if case::bare(kind) {
        let event = Event {
            kind,
            thread,
            address: 0,
            value: 0,
        };
        return Ok((event, after_thread));
    }
    let most_address = (head.addresses - 1) as u32;
    let (address, after_address) = number::read_number(bytes, after_thread, most_address)?;
    let (value, end) = number::read_number(bytes, after_address, Case::MOST_VALUE)?;
    let event = Event {
        kind,
        thread,
        address: address as u8,
        value,
    };
    Ok((event, end))
}

// Reads count events into four arrays that hold zeros; gives where they end. They are a Case's, whose fields C has as arrays.
fn read_events(
    bytes: &[u8],
    at: usize,
    head: Head,
    count: usize,
    kinds: &mut [u8; Case::MOST_EVENTS],
    owners: &mut [u8; Case::MOST_EVENTS],
    targets: &mut [u8; Case::MOST_EVENTS],
    values: &mut [u32; Case::MOST_EVENTS],
) -> Result<usize, Refusal>
    requires count_le_most_events { count ≤ most_events }
    requires events { Events kinds.old owners.old targets.old values.old [] }
    ensures { Stores (Events kinds.new owners.new targets.new values.new) (times count (event head.edition head.threads head.addresses) bytes.now at) result }
{
    let mut place = at;
    for e in 0..count {
        let (event, next) = read_event(bytes, place, head)?;
        kinds[e] = event.kind;
        owners[e] = event.thread;
        targets[e] = event.address;
        values[e] = event.value;
        place = next;
    }
    Ok(place)
}

// Reads a dependency among the events, of rank least or above; gives it, and where the next one starts.
#[tactic(auto, unfolding(model::specs::Record::rising_dependency, model::specs::Record::dependency, number::specs::Reader::unless, number::specs::Reader::up_to))]
fn read_link(
    bytes: &[u8],
    at: usize,
    least: usize,
    events: Listed,
) -> Result<(Link, usize), Refusal>
    ensures { outcome_by link_of result ≡ rising_dependency events.entry.count least (good_at events.entry.count events.entry.kinds.now events.entry.owners.now) bytes.now at }
{
    let (class, after_class) = number::read_number(bytes, at, Case::MOST_CLASS as u32)?;
    let (from, after_from) = number::read_under(bytes, after_class, events.count as u32)?;
    let (to, after_to) = number::read_under(bytes, after_from, events.count as u32)?;
    let link = Link {
        class: class as usize,
        from: from as usize,
        to: to as usize,
    };
    if link.follows(events.kinds, events.owners, events.count, least) {
        return Ok((link, after_to));
    }
    Err(Fault::Turn.at(at))
}

// Reads count dependencies into three arrays that hold zeros; gives where they end.
fn read_links(
    bytes: &[u8],
    at: usize,
    events: Listed,
    count: usize,
    classes: &mut [u8; Case::MOST_DEPENDENCIES],
    froms: &mut [u8; Case::MOST_DEPENDENCIES],
    tos: &mut [u8; Case::MOST_DEPENDENCIES],
) -> Result<usize, Refusal>
    requires count_le_most_dependencies { count ≤ most_dependencies }
    requires links { Links classes.old froms.old tos.old [] }
    ensures { Stores (Links classes.new froms.new tos.new) (rising_dependencies events.entry.count (good_at events.entry.count events.entry.kinds.now events.entry.owners.now) count bytes.now at) result }
{
    let mut place = at;
    let mut least: usize = 0;
    for i in 0..count {
        let (link, next) = read_link(bytes, place, least, events)?;
        classes[i] = link.class as u8;
        froms[i] = link.from as u8;
        tos[i] = link.to as u8;
        least = link.rank(events.count) + 1;
        place = next;
    }
    Ok(place)
}

// Reads the dependencies of a record of the edition into three arrays that hold zeros; gives how many, none in edition 1, and where they end.
fn read_dependencies(
    bytes: &[u8],
    at: usize,
    edition: usize,
    events: Listed,
    classes: &mut [u8; Case::MOST_DEPENDENCIES],
    froms: &mut [u8; Case::MOST_DEPENDENCIES],
    tos: &mut [u8; Case::MOST_DEPENDENCIES],
) -> Result<(usize, usize), Refusal>
    requires { Links classes.old froms.old tos.old [] }
    ensures { StoresCounted (λ ds. length ds) (Links classes.new froms.new tos.new) (dependencies_of edition events.entry.count (good_at events.entry.count events.entry.kinds.now events.entry.owners.now) bytes.now at) result }
{
    if !case::is_second(edition) {
        return Ok((0, at));
    }
    let (count, after_count) = number::read_number(bytes, at, Case::MOST_DEPENDENCIES as u32)?;
    let count = count as usize;
    let end = read_links(bytes, after_count, events, count, classes, froms, tos)?;
    Ok((count, end))
}

// How many pairs of two bytes are taken at a time.
const AT_ONCE: usize = 8;

// Reads a pair of event numbers below k, of rank least or above. Here k is a number with its bound in a clause and no type of its own,
// since what reads orders compares with it and multiplies by it.
#[tactic(auto, unfolding(model::specs::Record::rising_pair, model::specs::Record::pair, number::specs::Reader::unless, number::specs::Reader::up_to, number::specs::Reader::below))]
fn read_pair(bytes: &[u8], at: usize, k: usize, least: usize) -> Result<(Pair, usize), Refusal>
    requires { (0 < k) × (k ≤ most_events) }
    ensures { outcome_by model_pair result ≡ rising_pair k least bytes.now at }
{
    let (first, after_first) = number::read_number(bytes, at, (k - 1) as u32)?;
    let (second, after_second) = number::read_number(bytes, after_first, (k - 1) as u32)?;
    let pair = Pair {
        a: first as usize,
        b: second as usize,
    };
    if least <= pair.a * k + pair.b {
        return Ok((pair, after_second));
    }
    Err(Fault::Turn.at(at))
}

// How many of so many pairs of two bytes have no room between a place and the end of size bytes.
fn without_room(size: usize, at: usize, pairs: usize) -> usize
    ensures { ((pairs - result) * 2 ≤ size - at) × (result ≤ pairs) }
{
    pairs.saturating_sub(size.saturating_sub(at) / 2)
}

// Whether a pair of the run is left, and the two bytes at its place are one of row a that rises.
#[tactic(auto, unfolding(crate::specs::Answers::follows_at))]
fn follows(bytes: &[u8], a: usize, run: Run) -> bool
    requires { run.left * 2 ≤ length bytes.now - run.place }
    ensures { result ≡ follows_at bytes.now run.place a run.low run.left }
{
    0 < run.left
        && usize::from(bytes[run.place]) == a
        && run.low <= usize::from(bytes[run.place + 1])
}

// Takes the pairs of a run of row a, of two bytes each, as long as they rise. Since they do, the caller need only ask whether the last is below k.
// The loop counts by hand: where it ends, what is left of the run is the answer.
fn take_pairs(bytes: &[u8], a: usize, start: Run) -> Run
    requires { start.left * 2 ≤ length bytes.now - start.place }
    ensures { Rose bytes.now a start.place start.low start.row start.left result.place result.low result.row result.left }
{
    let mut run = start;
    while follows(bytes, a, run) {
        let b = usize::from(bytes[run.place + 1]);
        run.row = bits::with(run.row, b % Case::MOST_EVENTS);
        run.low = b + 1;
        run.place += 2;
        run.left -= 1;
    }
    run
}

// Whether all of the pairs tried last were taken, and as many again are left that have room.
fn goes_on(missed: usize, last: usize, left: usize) -> bool
    requires { last ≤ left }
    ensures { result ≡ (eqb missed 0 && leb at_once (left - last)) }
{
    missed == 0 && AT_ONCE <= left - last
}

// Takes the pairs of a run of row a that stand in two bytes each and rise, up to the first that does not: that one is read_pair's. Nothing is refused here.
fn take_run(bytes: &[u8], k: usize, a: usize, start: Run) -> Run
    requires a_lt_k { (a < k) × (k ≤ most_events) }
    requires low_le_k { start.low ≤ k }
    ensures { Ran bytes.now k a start.place start.low start.row start.left result.place result.low result.row result.left }
{
    let last = without_room(bytes.len(), start.place, start.left);
    let mut run = start;
    let mut missed: usize = 0;
    while goes_on(missed, last, run.left) {
        let taken = take_pairs(
            bytes,
            a,
            Run {
                left: AT_ONCE,
                ..run
            },
        );
        missed = taken.left;
        run = Run {
            left: run.left - AT_ONCE + missed,
            ..taken
        };
    }
    if k < run.low {
        return start;
    }
    run
}

// Reads a pair as read_pair does; one that stands in two bytes, at once.
fn read_next(bytes: &[u8], at: usize, k: usize, least: usize) -> Result<(Pair, usize), Refusal>
    requires { (0 < k) × (k ≤ most_events) }
    ensures { outcome_by model_pair result ≡ rising_pair k least bytes.now at }
{
    if without_room(bytes.len(), at, 1) == 0 {
        let a = usize::from(bytes[at]);
        let b = usize::from(bytes[at + 1]);
        if a < k && b < k && least <= a * k + b {
            return Ok((Pair { a, b }, at + 2));
        }
    }
    read_pair(bytes, at, k, least)
}

// Reads count pairs of an order of k events into rows that hold zeros: the first of each run by read_next, which refuses, then the rest of the run.
// A while: a turn takes as many pairs as the run has.
fn read_pairs(
    bytes: &[u8],
    at: usize,
    k: usize,
    count: usize,
    rows: &mut [u64],
) -> Result<usize, Refusal>
    requires k_le_most_events { (k ≤ most_events) × (count ≤ k * k) }
    requires rows_value { rows.old ≡ replicate most_events 0 }
    ensures { Stores (Padded most_events rows.new) (pairs k count bytes.now at) result }
{
    let mut place = at;
    let mut least: usize = 0;
    let mut left = count;
    while 0 < left {
        let (pair, next) = read_next(bytes, place, k, least)?;
        let start = Run {
            place: next,
            low: pair.b + 1,
            row: bits::with(rows[pair.a], pair.b),
            left: left - 1,
        };
        let run = take_run(bytes, k, pair.a, start);
        rows[pair.a] = run.row;
        least = pair.a * k + run.low;
        place = run.place;
        left = run.left;
    }
    Ok(place)
}

// Reads an order of k events into rows that hold zeros.
fn read_order(bytes: &[u8], at: usize, k: usize, rows: &mut [u64]) -> Result<usize, Refusal>
    requires k_le_most_events { k ≤ most_events }
    requires rows_value { rows.old ≡ replicate most_events 0 }
    ensures { Stores (Padded most_events rows.new) (order k bytes.now at) result }
{
    let (count, after_count) = number::read_number(bytes, at, (k * k) as u32)?;
    read_pairs(bytes, after_count, k, count as usize, rows)
}

// Reads the orders of so many threads, one at least, into rows that hold zeros. The first is read by itself: as read_order is called from two places,
// it is compiled as a function of its own, whose loop then has the registers. By parts and not by chunks_mut, behind which a proof knows no element.
fn read_orders(
    bytes: &[u8],
    at: usize,
    threads: usize,
    k: usize,
    rows: &mut [u64],
) -> Result<usize, Refusal>
    requires le_threads { (1 ≤ threads) × (threads ≤ most_threads) }
    requires k_le_most_events { k ≤ most_events }
    requires rows_value { rows.old ≡ replicate (most_threads * most_events) 0 }
    ensures { Stores (Tabled (most_threads * most_events) rows.new) (times threads (order k) bytes.now at) result }
{
    let mut place = read_order(bytes, at, k, &mut rows[..Case::MOST_EVENTS])?;
    for p in 1..threads {
        let start = p * Case::MOST_EVENTS;
        place = read_order(bytes, place, k, &mut rows[start..start + Case::MOST_EVENTS])?;
    }
    Ok(place)
}

// Reads the initial values of so many addresses into an array that holds zeros; gives where they end.
pub fn read_initials(
    bytes: &[u8],
    at: usize,
    addresses: usize,
    values: &mut [u32; Case::MOST_ADDRESSES],
) -> Result<usize, Refusal>
    requires addresses_le_most_addresses { addresses ≤ most_addresses }
    requires values_value { values.old ≡ replicate most_addresses 0 }
    ensures { Stores (Padded most_addresses values.new) (times addresses (up_to most_value) bytes.now at) result }
{
    let mut place = at;
    for x in 0..addresses {
        let (value, next) = number::read_number(bytes, place, Case::MOST_VALUE)?;
        values[x] = value;
        place = next;
    }
    Ok(place)
}

// Reads the number of a store to x that is not among those before it; gives it, and where the next one starts.
#[tactic(auto, unfolding(model::specs::Record::unlisted, number::specs::Reader::unless, number::specs::Reader::up_to, number::specs::Reader::below))]
fn read_store(
    bytes: &[u8],
    at: usize,
    x: usize,
    events: Listed,
    before: u64,
) -> Result<(usize, usize), Refusal>
    requires { 0 < events.count }
    ensures { outcome result ≡ unlisted events.entry.count (store_at events.entry.kinds.now events.entry.targets.now x) (bit before) bytes.now at }
{
    let (number, next) = number::read_number(bytes, at, (events.count - 1) as u32)?;
    let e = number as usize;
    if case::store_at(events.kinds, events.targets, x, e) && !bits::has(before, e) {
        return Ok((e, next));
    }
    Err(Fault::Turn.at(at))
}

// Reads the write order of x into a part that holds zeros.
fn read_write_order(
    bytes: &[u8],
    at: usize,
    x: usize,
    events: Listed,
    writes: &mut [u8],
) -> Result<usize, Refusal>
    requires { writes.old ≡ replicate most_events 0 }
    ensures { Stores (Padded most_events writes.new) (write_order events.entry.count (store_at events.entry.kinds.now events.entry.targets.now x) bytes.now at) result }
{
    let count = case::count_stores(events.kinds, events.targets, events.count, x);
    let mut place = at;
    let mut before: u64 = 0;
    for j in 0..count {
        let (e, next) = read_store(bytes, place, x, events, before)?;
        writes[j] = e as u8;
        before = bits::with(before, e);
        place = next;
    }
    Ok(place)
}

// Reads the write orders of so many addresses into an array that holds zeros: by parts, as read_orders does.
fn read_writes(
    bytes: &[u8],
    at: usize,
    addresses: usize,
    events: Listed,
    writes: &mut [u8],
) -> Result<usize, Refusal>
    requires addresses_le_most_addresses { addresses ≤ most_addresses }
    requires writes_value { writes.old ≡ replicate (most_addresses * most_events) 0 }
    ensures { Stores (Tabled (most_addresses * most_events) writes.new) (turns addresses (next_write_order events.entry.count (store_at events.entry.kinds.now events.entry.targets.now)) [] bytes.now at) result }
{
    let mut place = at;
    for x in 0..addresses {
        let start = x * Case::MOST_EVENTS;
        let part = &mut writes[start..start + Case::MOST_EVENTS];
        place = read_write_order(bytes, place, x, events, part)?;
    }
    Ok(place)
}

// Reads a name of i bytes into an array that holds zeros.
fn read_name(
    bytes: &[u8],
    at: usize,
    i: usize,
    name: &mut [u8; Case::MOST_NAME],
) -> Result<usize, Refusal>
    requires i_le_most_name { i ≤ most_name }
    requires name_value { name.old ≡ replicate most_name 0 }
    ensures { Stores (Padded most_name name.new) (text i bytes.now at) result }
{
    if bytes.len() < at || bytes.len() - at < i {
        return Err(Fault::Ends.at(at));
    }
    for j in 0..i {
        let b = bytes[at + j];
        if !case::printable(b) {
            return Err(Fault::Unprintable.at(at + j));
        }
        name[j] = b;
    }
    Ok(at + i)
}

// Reads the edition, and the counts of threads and addresses.
#[tactic(auto, unfolding(model::specs::Record::head))]
fn read_head(bytes: &[u8], at: usize) -> Result<(Head, usize), Refusal>
    ensures { outcome_by model_head result ≡ head_of bytes.now at }
{
    let (edition, after_edition) = number::read_within(
        bytes,
        at,
        Case::LEAST_EDITION as u32,
        Case::MOST_EDITION as u32,
    )?;
    let (threads, after_threads) = number::read_within(
        bytes,
        after_edition,
        1,
        Case::MOST_THREADS as u32,
    )?;
    let (addresses, end) = number::read_within(
        bytes,
        after_threads,
        1,
        Case::MOST_ADDRESSES as u32,
    )?;
    let head = Head {
        edition: edition as usize,
        threads: threads as usize,
        addresses: addresses as usize,
    };
    Ok((head, end))
}

// Reads the initial values and the events into arrays that hold zeros; gives how many events, and where they end.
fn read_listing(
    bytes: &[u8],
    at: usize,
    head: Head,
    initial: &mut [u32; Case::MOST_ADDRESSES],
    kinds: &mut [u8; Case::MOST_EVENTS],
    owners: &mut [u8; Case::MOST_EVENTS],
    targets: &mut [u8; Case::MOST_EVENTS],
    values: &mut [u32; Case::MOST_EVENTS],
) -> Result<(usize, usize), Refusal>
    requires initial_value { initial.old ≡ replicate most_addresses 0 }
    requires events { Events kinds.old owners.old targets.old values.old [] }
    ensures { StoresCounted (λ l. l.k) (ListingStored initial.new kinds.new owners.new targets.new values.new) (listing_of head.edition head.threads head.addresses bytes.now at) result }
{
    let after_initials = read_initials(bytes, at, head.addresses, initial)?;
    let (count, after_count) = number::read_number(
        bytes,
        after_initials,
        Case::MOST_EVENTS as u32,
    )?;
    let k = count as usize;
    let end = read_events(bytes, after_count, head, k, kinds, owners, targets, values)?;
    Ok((k, end))
}

// Reads the write orders, the orders and the name into arrays that hold zeros; gives the name's length, and where the record ends.
fn read_rest(
    bytes: &[u8],
    at: usize,
    head: Head,
    events: Listed,
    writes: &mut [u8],
    rows: &mut [u64],
    name: &mut [u8; Case::MOST_NAME],
) -> Result<(usize, usize), Refusal>
    requires writes_value { writes.old ≡ replicate (most_addresses * most_events) 0 }
    requires rows_value { rows.old ≡ replicate (most_threads * most_events) 0 }
    requires name_value { name.old ≡ replicate most_name 0 }
    ensures { StoresCounted (λ t. length t.name) (RestStored writes.new rows.new name.new) (rest_of head.threads head.addresses events.entry.count (store_at events.entry.kinds.now events.entry.targets.now) bytes.now at) result }
{
    let after_writes = read_writes(bytes, at, head.addresses, events, writes)?;
    let after_orders = read_orders(bytes, after_writes, head.threads, events.count, rows)?;
    let (count, after_count) = number::read_number(bytes, after_orders, Case::MOST_NAME as u32)?;
    let i = count as usize;
    let end = read_name(bytes, after_count, i, name)?;
    Ok((i, end))
}

// Reads what follows the head of a record that starts at start.
fn read_body(bytes: &[u8], start: usize, head: Head, at: usize) -> Result<Reading, Refusal>
    requires { head_of bytes.now start ≡ next (model_head head) at }
    ensures { ReadingFrom start (case_at bytes.now start) result }
{
    let mut case = Case::empty();
    let (count, after_events) = read_listing(
        bytes,
        at,
        head,
        &mut case.initial,
        &mut case.kind,
        &mut case.thread,
        &mut case.address,
        &mut case.value,
    )?;
    let events = Listed {
        count,
        kinds: &case.kind,
        owners: &case.thread,
        targets: &case.address,
    };
    let (dependencies, after_links) = read_dependencies(
        bytes,
        after_events,
        head.edition,
        events,
        &mut case.class,
        &mut case.from,
        &mut case.to,
    )?;
    let (namelength, end) = read_rest(
        bytes,
        after_links,
        head,
        events,
        &mut case.writes,
        &mut case.rows,
        &mut case.name,
    )?;
    case.edition = head.edition;
    case.threads = head.threads;
    case.addresses = head.addresses;
    case.events = count;
    case.dependencies = dependencies;
    case.namelength = namelength;
    let length = end - start;
    Ok(Reading { case, length })
}

// Bytes that records lie in, and the place of the record to be read.
#[derive(Clone, Copy)]
pub struct Reader<'a> {
    pub bytes: &'a [u8],
    pub place: usize,
}

impl<'a> Reader<'a> {
    pub fn new(bytes: &'a [u8], place: usize) -> Reader<'a>
        ensures { (result.bytes ≡ bytes.entry) × (result.place ≡ place) }
    {
        Reader { bytes, place }
    }

    // Reads the record at the reader's place.
    pub fn read(self) -> Result<Reading, Refusal>
        ensures { ReadingFrom self.entry.place (case_at self.entry.bytes.now self.entry.place) result }
    {
        let (head, after_head) = read_head(self.bytes, self.place)?;
        read_body(self.bytes, self.place, head, after_head)
    }
}

// Reads the record that starts at a place: records may lie back to back.
pub fn read_from(bytes: &[u8], at: usize) -> Result<Reading, Refusal>
    ensures { ReadingFrom at (case_at bytes.now at) result }
{
    Reader::new(bytes, at).read()
}

// Reads the record that the bytes start with.
pub fn read_case(bytes: &[u8]) -> Result<Reading, Refusal>
    ensures { ReadingOf (read bytes.now) result }
{
    read_from(bytes, 0)
}

// Where the record's name stands; no part under a refusal.
pub fn name_part(bytes: &[u8]) -> NamePart
    ensures { result ≡ part_of (name_part (read bytes.now)) }
{
    match read_case(bytes) {
        Ok(reading) => {
            let length = reading.case.namelength;
            NamePart {
                at: reading.length - length,
                length,
            }
        }
        Err(_) => NamePart { at: 0, length: 0 },
    }
}

// The record's name, as a part of its own bytes; empty under a refusal.
pub fn name(bytes: &[u8]) -> &[u8]
    ensures { result.now ≡ name_of bytes.now }
{
    let part = name_part(bytes);
    let start = part.at;
    let end = start + part.length;
    &bytes[start..end]
}
