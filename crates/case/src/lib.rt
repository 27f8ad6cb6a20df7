// A case by value: one candidate execution, with what each thread saw in which order.
#![tactic(auto)]

ghost use Rattle.std.specs.Prelude.{◌≡◌, ◌&&◌, ◌||◌, not, [], ◌∷◌, ◌+◌, ◌*◌, ◌≤◌, ◌<◌, leb, eqb, get_or};
ghost use Rattle.finite.specs.Tests.{all, count};
ghost use Rattle.finite.specs.Lists.{table};
ghost use Rattle.bits.specs.Bit.{bit};
ghost use Rattle.model.specs.Limits.{between, least_edition, most_edition, second, most_threads, most_addresses, most_events, most_dependencies, most_value, most_name};
ghost use Rattle.model.specs.Case.{bare as bare_kind, most_kind, store, by_address, most_class, printable as printable_byte};
ghost use Rattle.model.specs.Record.{dependency_rank};
ghost use Rattle.model.specs.Fault.{event_good, dependency_within, dependency_fault, write_fault, writes_fault, name_fault, fault as fault_of};
ghost use Rattle.model.specs.Bound.{most_bytes};
ghost use Rattle.case.specs.Held.{event_at, link_count, link_of, Among, links_of, good_at, links_fault, case_of, empty_case};
ghost use Rattle.case.specs.Faults.{fault_number};
ghost use Rattle.case.specs.Stores.{store_at, writes_at};

use number::Fault;

// Its fields and their order are those of litmus_case in include/litmus.h.
#[repr(C)]
#[derive(Clone, Copy)]
pub struct Case {
    pub edition: usize,
    // how many threads, addresses and events
    pub threads: usize,
    pub addresses: usize,
    pub events: usize,
    // by address
    pub initial: [u32; Case::MOST_ADDRESSES],
    // by event
    pub kind: [u8; Case::MOST_EVENTS],
    pub thread: [u8; Case::MOST_EVENTS],
    pub address: [u8; Case::MOST_EVENTS],
    pub value: [u32; Case::MOST_EVENTS],
    // in edition 2, how many dependencies, and by dependency its class and the events that it goes from and to
    pub dependencies: usize,
    pub class: [u8; Case::MOST_DEPENDENCIES],
    pub from: [u8; Case::MOST_DEPENDENCIES],
    pub to: [u8; Case::MOST_DEPENDENCIES],
    // by address, MOST_EVENTS places each: its stores in write order, first to last
    pub writes: [u8; Case::MOST_ADDRESSES * Case::MOST_EVENTS],
    // by thread and event a: bit b says that a comes before b in the thread's order
    pub rows: [u64; Case::MOST_THREADS * Case::MOST_EVENTS],
    pub name: [u8; Case::MOST_NAME],
    pub namelength: usize,
}

impl Case {
    pub const LEAST_EDITION: usize = 1;

    pub const MOST_EDITION: usize = 2;

    // the edition that has lwsync and dependencies
    pub const SECOND_EDITION: usize = 2;

    pub const MOST_THREADS: usize = 4;

    pub const MOST_ADDRESSES: usize = 4;

    pub const MOST_EVENTS: usize = 64;

    pub const MOST_DEPENDENCIES: usize = 96;

    pub const MOST_VALUE: u32 = 4294967295;

    pub const MOST_NAME: usize = 32;

    // the bytes of a name
    pub const LEAST_PRINTABLE: usize = 32;

    pub const MOST_PRINTABLE: usize = 126;

    // the most bytes that a record takes: of the first edition, and of any
    pub const MOST_FIRST_BYTES: usize = 33409;

    pub const MOST_BYTES: usize = 33697;

    // The kinds of events. Numbers and not an enum: the arrays of C hold any byte, also one that is no kind.
    pub const LOAD: u8 = 0;

    pub const STORE: u8 = 1;

    pub const SYNC: u8 = 2;

    pub const LWSYNC: u8 = 3;

    // The classes of dependencies: numbers for the same reason.
    pub const BY_ADDRESS: usize = 0;

    pub const BY_DATA: usize = 1;

    pub const BY_CONTROL: usize = 2;

    pub const MOST_CLASS: usize = Case::BY_CONTROL;

    // A case with nothing in it, which no record gives: what stands beside a refusal.
    pub fn empty() -> Case
        ensures { result ≡ empty_case }
    {
        Case {
            edition: 0,
            threads: 0,
            addresses: 0,
            events: 0,
            initial: [0u32; Case::MOST_ADDRESSES],
            kind: [0u8; Case::MOST_EVENTS],
            thread: [0u8; Case::MOST_EVENTS],
            address: [0u8; Case::MOST_EVENTS],
            value: [0u32; Case::MOST_EVENTS],
            dependencies: 0,
            class: [0u8; Case::MOST_DEPENDENCIES],
            from: [0u8; Case::MOST_DEPENDENCIES],
            to: [0u8; Case::MOST_DEPENDENCIES],
            writes: [0u8; Case::MOST_ADDRESSES * Case::MOST_EVENTS],
            rows: [0u64; Case::MOST_THREADS * Case::MOST_EVENTS],
            name: [0u8; Case::MOST_NAME],
            namelength: 0,
        }
    }

    // The most bytes that a record of an edition takes, by the limits.
    pub fn most_bytes(edition: usize) -> usize
        ensures { result ≡ most_bytes edition }
    {
        if edition == Case::SECOND_EDITION {
            Case::MOST_BYTES
        } else {
            Case::MOST_FIRST_BYTES
        }
    }
}

// Whether the edition has lwsync and dependencies.
pub fn is_second(edition: usize) -> bool
    ensures { result ≡ second edition }
{
    edition == Case::SECOND_EDITION
}

// The greatest kind of an edition.
pub fn most_kind(edition: usize) -> u8
    ensures { result ≡ most_kind edition }
{
    if is_second(edition) {
        Case::LWSYNC
    } else {
        Case::SYNC
    }
}

// How many dependencies a case of the edition has: none in edition 1.
pub fn link_count(edition: usize, dependencies: usize) -> usize
    ensures { result ≡ link_count edition dependencies }
{
    if is_second(edition) { dependencies } else { 0 }
}

// Whether v is from least to most.
fn within(v: usize, least: usize, most: usize) -> bool
    ensures { result ≡ between least most v }
{
    least <= v && v <= most
}

// Whether edition, threads and addresses are in their ranges.
fn head_good(c: &Case) -> bool
    ensures { result ≡ (between least_edition most_edition c.now.edition && (between 1 most_threads c.now.threads && between 1 most_addresses c.now.addresses)) }
{
    within(c.edition, Case::LEAST_EDITION, Case::MOST_EDITION)
        && within(c.threads, 1, Case::MOST_THREADS)
        && within(c.addresses, 1, Case::MOST_ADDRESSES)
}

// Whether the initial values are in their range.
fn initials_good(c: &Case) -> bool
    requires { c.now.addresses ≤ most_addresses }
    ensures { result ≡ all c.now.addresses (λ x. leb (get_or c.now.initial x 0) most_value) }
{
    c.initial[..c.addresses]
        .iter()
        .all(|&v| v <= Case::MOST_VALUE)
}

// Whether a name may hold the byte.
pub fn printable(b: u8) -> bool
    ensures { result ≡ printable_byte b }
{
    within(usize::from(b), Case::LEAST_PRINTABLE, Case::MOST_PRINTABLE)
}

// Whether events of the kind have neither address nor value.
pub fn bare(kind: u8) -> bool
    ensures { result ≡ bare_kind kind }
{
    kind == Case::SYNC || kind == Case::LWSYNC
}

// Whether event e has its numbers in their ranges.
fn event_good(c: &Case, e: usize) -> bool
    requires { e < most_events }
    ensures { result ≡ event_good c.now.edition c.now.threads c.now.addresses (event_at c.now e) }
{
    let kind = c.kind[e];
    kind <= most_kind(c.edition)
        && usize::from(c.thread[e]) < c.threads
        && (bare(kind) || usize::from(c.address[e]) < c.addresses && c.value[e] <= Case::MOST_VALUE)
}

// Whether the events are good.
fn events_good(c: &Case) -> bool
    requires { c.now.events ≤ most_events }
    ensures { result ≡ all c.now.events (λ e. event_good c.now.edition c.now.threads c.now.addresses (event_at c.now e)) }
{
    (0..c.events).all(|e| event_good(c, e))
}

// A dependency: its class and the events that it goes from and to.
#[derive(Clone, Copy, Debug, PartialEq, Eq)]
pub struct Link {
    pub class: usize,
    pub from: usize,
    pub to: usize,
}

impl Link {
    // Whether class and events are in their ranges, among k events.
    fn is_within(self, k: usize) -> bool
        ensures { result ≡ dependency_within k (link_of self) }
    {
        self.class <= Case::MOST_CLASS && self.from < k && self.to < k
    }

    // Its rank among k events: by the event it goes from, the one it goes to, and its class.
    pub fn rank(self, k: usize) -> usize
        requires k_le_most_events { k ≤ most_events }
        requires among { Among k self }
        ensures { result ≡ dependency_rank k (link_of self) }
    {
        (self.from * k + self.to) * (Case::MOST_CLASS + 1) + self.class
    }

    // Whether it is good: from a load to a load or store listed later in its thread, by its address if to a load.
    fn is_good(
        self,
        kinds: &[u8; Case::MOST_EVENTS],
        owners: &[u8; Case::MOST_EVENTS],
        k: usize,
    ) -> bool
        requires k_le_most_events { k ≤ most_events }
        requires among { Among k self }
        ensures { result ≡ good_at k kinds.now owners.now (link_of self) }
    {
        kinds[self.from] == Case::LOAD
            && self.from < self.to
            && owners[self.from] == owners[self.to]
            && may_end(self.class, kinds[self.to])
    }

    // Whether it may follow those below rank least.
    pub fn follows(
        self,
        kinds: &[u8; Case::MOST_EVENTS],
        owners: &[u8; Case::MOST_EVENTS],
        k: usize,
        least: usize,
    ) -> bool
        requires k_le_most_events { k ≤ most_events }
        requires among { Among k self }
        ensures { result ≡ (leb least (dependency_rank k (link_of self)) && good_at k kinds.now owners.now (link_of self)) }
    {
        least <= self.rank(k) && self.is_good(kinds, owners, k)
    }

    // Its fault, where it has to have rank least or above.
    fn check(
        self,
        kinds: &[u8; Case::MOST_EVENTS],
        owners: &[u8; Case::MOST_EVENTS],
        k: usize,
        least: usize,
    ) -> Result<(), Fault>
        requires { k ≤ most_events }
        ensures { fault_number result ≡ dependency_fault k (good_at k kinds.now owners.now) least (link_of self ∷ []) }
    {
        if !self.is_within(k) {
            return Err(Fault::Range);
        }
        if !self.follows(kinds, owners, k, least) {
            return Err(Fault::Turn);
        }
        Ok(())
    }
}

// Whether a dependency of the class must end in a store: by data and by control, and not by address.
fn ends_in_store(class: usize) -> bool
    requires { class ≤ most_class }
    ensures { result ≡ not (eqb class by_address) }
{
    class == Case::BY_DATA || class == Case::BY_CONTROL
}

// Whether a dependency of the class may end in an event of the kind.
fn may_end(class: usize, kind: u8) -> bool
    requires { class ≤ most_class }
    ensures { result ≡ (not (bare_kind kind) && (eqb class by_address || eqb kind store)) }
{
    !bare(kind) && (!ends_in_store(class) || kind == Case::STORE)
}

// Dependency i of a case.
fn link_at(c: &Case, i: usize) -> Link
    requires { i < most_dependencies }
    ensures { result ≡ record { class = get_or c.now.class i 0; from = get_or c.now.from i 0; to = get_or c.now.to i 0 } }
{
    Link {
        class: usize::from(c.class[i]),
        from: usize::from(c.from[i]),
        to: usize::from(c.to[i]),
    }
}

// The first fault of so many of a case's dependencies.
fn check_links(c: &Case, count: usize) -> Result<(), Fault>
    requires events_le_most_events { c.now.events ≤ most_events }
    requires count_le_most_dependencies { count ≤ most_dependencies }
    ensures { fault_number result ≡ dependency_fault c.now.events (good_at c.now.events c.now.kind c.now.thread) 0 (links_of count c.now.class c.now.from c.now.to) }
{
    let mut least: usize = 0;
    for i in 0..count {
        let link = link_at(c, i);
        link.check(&c.kind, &c.thread, c.events, least)?;
        least = link.rank(c.events) + 1;
    }
    Ok(())
}

// Whether event e is a store to x.
pub fn store_at(
    kinds: &[u8; Case::MOST_EVENTS],
    targets: &[u8; Case::MOST_EVENTS],
    x: usize,
    e: usize,
) -> bool
    requires { e < most_events }
    ensures { result ≡ store_at kinds.now targets.now x e }
{
    kinds[e] == Case::STORE && usize::from(targets[e]) == x
}

// How many of k events are stores to x.
pub fn count_stores(
    kinds: &[u8; Case::MOST_EVENTS],
    targets: &[u8; Case::MOST_EVENTS],
    k: usize,
    x: usize,
) -> usize
    requires { k ≤ most_events }
    ensures { result ≡ count k (store_at kinds.now targets.now x) }
{
    (0..k).filter(|&e| store_at(kinds, targets, x, e)).count()
}

// Whether event e is a store to x that is not listed yet.
fn unlisted(c: &Case, x: usize, e: usize, listed: u64) -> bool
    requires { e < most_events }
    ensures { result ≡ (store_at c.now.kind c.now.address x e && not (bit listed e)) }
{
    store_at(&c.kind, &c.address, x, e) && !bits::has(listed, e)
}

// The fault of the write order of x.
fn check_write_order(c: &Case, x: usize) -> Result<(), Fault>
    requires { (c.now.events ≤ most_events) × (x < most_addresses) }
    ensures { fault_number result ≡ write_fault c.now.events (store_at c.now.kind c.now.address x) [] (writes_at c.now.kind c.now.address c.now.writes c.now.events x) }
{
    let n = count_stores(&c.kind, &c.address, c.events, x);
    let start = x * Case::MOST_EVENTS;
    let mut listed: u64 = 0;
    for &event in &c.writes[start..start + n] {
        let e = usize::from(event);
        if c.events <= e {
            return Err(Fault::Range);
        }
        if !unlisted(c, x, e, listed) {
            return Err(Fault::Turn);
        }
        listed = bits::with(listed, e);
    }
    Ok(())
}

// The first fault of the write orders.
fn check_write_orders(c: &Case) -> Result<(), Fault>
    requires { (c.now.events ≤ most_events) × (c.now.addresses ≤ most_addresses) }
    ensures { fault_number result ≡ writes_fault c.now.events (store_at c.now.kind c.now.address) 0 (table 0 c.now.addresses (writes_at c.now.kind c.now.address c.now.writes c.now.events)) }
{
    for x in 0..c.addresses {
        check_write_order(c, x)?;
    }
    Ok(())
}

// The first fault of a case's dependencies, their number included.
fn check_dependencies(c: &Case) -> Result<(), Fault>
    requires { c.now.events ≤ most_events }
    ensures { fault_number result ≡ links_fault c.now }
{
    let count = link_count(c.edition, c.dependencies);
    if Case::MOST_DEPENDENCIES < count {
        return Err(Fault::Range);
    }
    check_links(c, count)
}

// Whether a name's bytes are printable.
fn name_printable(c: &Case) -> bool
    requires { c.now.namelength ≤ most_name }
    ensures { result ≡ all c.now.namelength (λ i. printable_byte (get_or c.now.name i 0)) }
{
    c.name[..c.namelength].iter().all(|&b| printable(b))
}

// The fault of a name.
fn check_name(c: &Case) -> Result<(), Fault>
    ensures { fault_number result ≡ name_fault (table 0 c.now.namelength (λ i. get_or c.now.name i 0)) }
{
    if Case::MOST_NAME < c.namelength {
        return Err(Fault::Range);
    }
    if !name_printable(c) {
        return Err(Fault::Unprintable);
    }
    Ok(())
}

// The refusal of a case that is handed without bytes: Range or Turn, as the reader would give it for the first bad field, then
// Unprintable for a byte of its name.
pub fn check(c: Case) -> Result<(), Fault>
    ensures { fault_number result ≡ fault_of (case_of c) }
{
    if !head_good(&c) || !initials_good(&c) || Case::MOST_EVENTS < c.events || !events_good(&c) {
        return Err(Fault::Range);
    }
    check_dependencies(&c)?;
    check_write_orders(&c)?;
    check_name(&c)
}
