// A case to its record, in a lent buffer.
#![tactic(auto)]

ghost use Rattle.std.specs.Prelude.{ℕ, List, ◌≡◌, ◌++◌, ◌+◌, ◌*◌, ◌≤◌, ◌<◌, length, get_or};
ghost use Rattle.number.specs.Number.{encode};
ghost use Rattle.model.specs.Limits.{most_threads, most_addresses, most_events, most_dependencies, most_name};
ghost use Rattle.model.specs.Written.{record_of};
ghost use Rattle.model.specs.Answers.{put as put_of};
ghost use Rattle.case.specs.Held.{case_of};
ghost use Rattle.case.specs.Sound.{Sound};
ghost use Rattle.writer.specs.Stages.{run, initial_at, event_at, listing_bytes, link_at, links_bytes, entry_at, writes_of, row_at, pairs, order_at, name_bytes, rest_bytes, most_number, most_two, most_three, most_event, most_listing, most_links, most_entries, most_row, most_order, most_rest, most_record};
ghost use Rattle.writer.specs.Sinks.{SinkLaws, may_count, Counted, may_write, Wrote};
ghost use Rattle.writer.specs.SinksKeep.{counter_laws, writer_laws};
ghost use Rattle.writer.specs.Stored.{stored_of};

use case::Case;

// The record does not fit in the buffer from the place on: 6.
#[derive(Clone, Copy, Debug, PartialEq, Eq)]
pub struct NoRoom;

// The row of event a in p's order. Over the array and not the case, as in `count_pairs`: `compare` calls both with an array alone.
pub fn row(rows: &[u64; Case::MOST_THREADS * Case::MOST_EVENTS], p: usize, a: usize) -> u64
    requires { (p < most_threads) × (a < most_events) }
    ensures { result ≡ get_or rows.now (p * most_events + a) 0 }
{
    rows[p * Case::MOST_EVENTS + a]
}

// How many pairs p's order has.
pub fn count_pairs(
    rows: &[u64; Case::MOST_THREADS * Case::MOST_EVENTS],
    p: usize,
    k: usize,
) -> usize
    requires { (p < most_threads) × (k ≤ most_events) }
    ensures { (result ≡ pairs rows.now p k) × (result ≤ most_events * most_events) }
{
    let mut n = 0;
    for a in 0..k {
        n += bits::size_below(row(rows, p, a), k);
    }
    n
}

// What takes the bytes of a record. A stage of the record is written once, for any sink: it counts its bytes or writes them as the sink
// does. `may s most w`: s may take the bytes w, at most so many; `took s most w t`: it took them and is t then.
trait Sink {
    ghost may: { Self → ℕ → List ℕ → Type 0 };

    ghost took: { Self → ℕ → List ℕ → Self → Type 0 };

    fn number(&mut self, v: u32)
        requires { may self.old most_number (encode v) }
        ensures { took self.old most_number (encode v) self.new };

    fn bytes(&mut self, bytes: &[u8])
        requires { may self.old (length bytes.now) bytes.now }
        ensures { took self.old (length bytes.now) bytes.now self.new };

    ghost laws: { SinkLaws may took };
}

// Counts the bytes.
#[derive(Clone, Copy)]
struct Counter {
    count: usize,
}

impl Sink for Counter {
    ghost may = { may_count };

    ghost took = { Counted };

    fn number(&mut self, v: u32) {
        self.count += number::size(v);
    }

    fn bytes(&mut self, bytes: &[u8]) {
        self.count += bytes.len();
    }

    ghost laws = { counter_laws };
}

// Writes the bytes into a lent buffer, from a place on.
#[derive(Drop)]
struct Writer<'a> {
    out: &'a mut [u8],
    at: usize,
}

impl Sink for Writer<'_> {
    ghost may = { may_write };

    ghost took = { Wrote };

    fn number(&mut self, v: u32) {
        self.at = number::write_number(self.out, self.at, v);
    }

    fn bytes(&mut self, bytes: &[u8]) {
        let end = self.at + bytes.len();
        self.out[self.at..end].copy_from_slice(bytes);
        self.at = end;
    }

    ghost laws = { writer_laws };
}

// ---- the stages of the record
// Each asks for `Sound` in a clause: a struct around the case with that fact would put its name before every field that a stage reads.
// `as u32`: there is no From of usize for u32, and what is written is below 2^32.

// Two numbers.
fn put_two<S: Sink>(sink: &mut S, a: u32, b: u32)
    requires { S.may sink.old most_two (encode a ++ encode b) }
    ensures { S.took sink.old most_two (encode a ++ encode b) sink.new }
{
    sink.number(a);
    sink.number(b);
}

// Three numbers.
fn put_three<S: Sink>(sink: &mut S, a: u32, b: u32, d: u32)
    requires { S.may sink.old most_three (encode a ++ (encode b ++ encode d)) }
    ensures { S.took sink.old most_three (encode a ++ (encode b ++ encode d)) sink.new }
{
    sink.number(a);
    put_two(sink, b, d);
}

// Kind and thread of event e, and unless the kind is bare, address and value.
fn put_event<S: Sink>(sink: &mut S, c: &Case, e: usize)
    requires within { e < most_events }
    requires may { S.may sink.old most_event (event_at c.now.kind c.now.thread c.now.address c.now.value e) }
    ensures { S.took sink.old most_event (event_at c.now.kind c.now.thread c.now.address c.now.value e) sink.new }
{
    let kind = c.kind[e];
    put_two(sink, u32::from(kind), u32::from(c.thread[e]));
    if !case::bare(kind) {
        put_two(sink, u32::from(c.address[e]), c.value[e]);
    }
}

// Class of dependency j and the events that it goes from and to.
fn put_link<S: Sink>(sink: &mut S, c: &Case, j: usize)
    requires within { j < most_dependencies }
    requires may { S.may sink.old most_three (link_at c.now.class c.now.from c.now.to j) }
    ensures { S.took sink.old most_three (link_at c.now.class c.now.from c.now.to j) sink.new }
{
    put_three(
        sink,
        u32::from(c.class[j]),
        u32::from(c.from[j]),
        u32::from(c.to[j]),
    );
}

// The initial values.
fn put_initials<S: Sink>(sink: &mut S, c: &Case)
    requires sound { Sound c.now }
    requires may { S.may sink.old (most_addresses * most_number) (run (initial_at c.now.initial) c.now.addresses) }
    ensures { S.took sink.old (most_addresses * most_number) (run (initial_at c.now.initial) c.now.addresses) sink.new }
{
    for &v in &c.initial[..c.addresses] {
        sink.number(v);
    }
}

// The events.
fn put_events<S: Sink>(sink: &mut S, c: &Case)
    requires sound { Sound c.now }
    requires may { S.may sink.old (most_events * most_event) (run (event_at c.now.kind c.now.thread c.now.address c.now.value) c.now.events) }
    ensures { S.took sink.old (most_events * most_event) (run (event_at c.now.kind c.now.thread c.now.address c.now.value) c.now.events) sink.new }
{
    for e in 0..c.events {
        put_event(sink, c, e);
    }
}

// The initial values, the number of events and the events.
fn put_listing<S: Sink>(sink: &mut S, c: &Case)
    requires sound { Sound c.now }
    requires may { S.may sink.old most_listing (listing_bytes c.now.initial c.now.kind c.now.thread c.now.address c.now.value c.now.addresses c.now.events) }
    ensures { S.took sink.old most_listing (listing_bytes c.now.initial c.now.kind c.now.thread c.now.address c.now.value c.now.addresses c.now.events) sink.new }
{
    put_initials(sink, c);
    sink.number(c.events as u32);
    put_events(sink, c);
}

// The first i dependencies.
fn put_links<S: Sink>(sink: &mut S, c: &Case, i: usize)
    requires few { i ≤ most_dependencies }
    requires may { S.may sink.old (most_dependencies * most_three) (run (link_at c.now.class c.now.from c.now.to) i) }
    ensures { S.took sink.old (most_dependencies * most_three) (run (link_at c.now.class c.now.from c.now.to) i) sink.new }
{
    for j in 0..i {
        put_link(sink, c, j);
    }
}

// The number of dependencies, and the dependencies; nothing in edition 1, which has no such field.
fn put_dependencies<S: Sink>(sink: &mut S, c: &Case, i: usize)
    requires few { i ≤ most_dependencies }
    requires may { S.may sink.old most_links (links_bytes c.now.edition c.now.class c.now.from c.now.to i) }
    ensures { S.took sink.old most_links (links_bytes c.now.edition c.now.class c.now.from c.now.to i) sink.new }
{
    if case::is_second(c.edition) {
        sink.number(i as u32);
        put_links(sink, c, i);
    }
}

// The first n entries of the write order of x.
fn put_entries<S: Sink>(sink: &mut S, c: &Case, x: usize, n: usize)
    requires within { (x < most_addresses) × (n ≤ most_events) }
    requires may { S.may sink.old most_entries (run (entry_at c.now.writes x) n) }
    ensures { S.took sink.old most_entries (run (entry_at c.now.writes x) n) sink.new }
{
    let start = x * Case::MOST_EVENTS;
    for &e in &c.writes[start..start + n] {
        sink.number(u32::from(e));
    }
}

// The write order of x: one entry for each store to x.
fn put_stores<S: Sink>(sink: &mut S, c: &Case, x: usize)
    requires sound { Sound c.now }
    requires within { x < c.now.addresses }
    requires may { S.may sink.old most_entries (writes_of c.now.kind c.now.address c.now.writes c.now.events x) }
    ensures { S.took sink.old most_entries (writes_of c.now.kind c.now.address c.now.writes c.now.events x) sink.new }
{
    let n = case::count_stores(&c.kind, &c.address, c.events, x);
    put_entries(sink, c, x, n);
}

// The write orders.
fn put_writes<S: Sink>(sink: &mut S, c: &Case)
    requires sound { Sound c.now }
    requires may { S.may sink.old (most_addresses * most_entries) (run (writes_of c.now.kind c.now.address c.now.writes c.now.events) c.now.addresses) }
    ensures { S.took sink.old (most_addresses * most_entries) (run (writes_of c.now.kind c.now.address c.now.writes c.now.events) c.now.addresses) sink.new }
{
    for x in 0..c.addresses {
        put_stores(sink, c, x);
    }
}

// The pairs of a's row in p's order.
fn put_row<S: Sink>(sink: &mut S, c: &Case, p: usize, a: usize)
    requires sound { Sound c.now }
    requires within { (p < c.now.threads) × (a < c.now.events) }
    requires may { S.may sink.old most_row (row_at c.now.rows p c.now.events a) }
    ensures { S.took sink.old most_row (row_at c.now.rows p c.now.events a) sink.new }
{
    for b in bits::members_below(row(&c.rows, p, a), c.events) {
        put_two(sink, a as u32, b as u32);
    }
}

// The pairs of p's order.
fn put_rows<S: Sink>(sink: &mut S, c: &Case, p: usize)
    requires sound { Sound c.now }
    requires within { p < c.now.threads }
    requires may { S.may sink.old (most_events * most_row) (run (row_at c.now.rows p c.now.events) c.now.events) }
    ensures { S.took sink.old (most_events * most_row) (run (row_at c.now.rows p c.now.events) c.now.events) sink.new }
{
    for a in 0..c.events {
        put_row(sink, c, p, a);
    }
}

// The number of p's pairs, and the pairs.
fn put_order<S: Sink>(sink: &mut S, c: &Case, p: usize)
    requires sound { Sound c.now }
    requires within { p < c.now.threads }
    requires may { S.may sink.old most_order (order_at c.now.rows c.now.events p) }
    ensures { S.took sink.old most_order (order_at c.now.rows c.now.events p) sink.new }
{
    let n = count_pairs(&c.rows, p, c.events);
    sink.number(n as u32);
    put_rows(sink, c, p);
}

// The threads' orders.
fn put_orders<S: Sink>(sink: &mut S, c: &Case)
    requires sound { Sound c.now }
    requires may { S.may sink.old (most_threads * most_order) (run (order_at c.now.rows c.now.events) c.now.threads) }
    ensures { S.took sink.old (most_threads * most_order) (run (order_at c.now.rows c.now.events) c.now.threads) sink.new }
{
    for p in 0..c.threads {
        put_order(sink, c, p);
    }
}

// The name's length and its bytes.
fn put_name<S: Sink>(sink: &mut S, c: &Case)
    requires sound { Sound c.now }
    requires may { S.may sink.old (most_number + most_name) (name_bytes c.now.name c.now.namelength) }
    ensures { S.took sink.old (most_number + most_name) (name_bytes c.now.name c.now.namelength) sink.new }
{
    sink.number(c.namelength as u32);
    sink.bytes(&c.name[..c.namelength]);
}

// The write orders, the orders, the name's length and its bytes.
fn put_rest<S: Sink>(sink: &mut S, c: &Case)
    requires sound { Sound c.now }
    requires may { S.may sink.old most_rest (rest_bytes c.now.kind c.now.address c.now.writes c.now.rows c.now.name c.now.threads c.now.addresses c.now.events c.now.namelength) }
    ensures { S.took sink.old most_rest (rest_bytes c.now.kind c.now.address c.now.writes c.now.rows c.now.name c.now.threads c.now.addresses c.now.events c.now.namelength) sink.new }
{
    put_writes(sink, c);
    put_orders(sink, c);
    put_name(sink, c);
}

// The record of a case.
fn put_record<S: Sink>(sink: &mut S, c: &Case)
    requires sound { Sound c.now }
    requires may { S.may sink.old most_record (record_of (case_of c.now)) }
    ensures { S.took sink.old most_record (record_of (case_of c.now)) sink.new }
{
    put_three(sink, c.edition as u32, c.threads as u32, c.addresses as u32);
    put_listing(sink, c);
    put_dependencies(sink, c, case::link_count(c.edition, c.dependencies));
    put_rest(sink, c);
}

// How many bytes the record of a case takes.
pub fn size(c: Case) -> usize
    requires { Sound c }
    ensures { result ≡ length (record_of (case_of c)) }
{
    let mut counter = Counter { count: 0 };
    put_record(&mut counter, &c);
    counter.count
}

// Writes the record of a case into the part of a lent buffer that starts at the given place, and gives its length; where it does not
// fit there, nothing is written.
pub fn put(c: Case, out: &mut [u8], at: usize) -> Result<usize, NoRoom>
    requires { Sound c }
    ensures { stored_of result out.new ≡ put_of (record_of (case_of c)) out.old at }
{
    let length = size(c);
    if out.len() < at || out.len() - at < length {
        return Err(NoRoom);
    }
    let mut writer = Writer { out, at };
    put_record(&mut writer, &c);
    Ok(length)
}
