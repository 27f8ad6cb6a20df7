// Rules 15 to 18: the values that loads hold, and what barriers carry. `known` holds what a rule presupposes, `asked` what
// it asks for. They are not one with the tests of by_columns: without columns, what comes before an event costs a pass over the rows,
// so these tests loop over other sets.
#![tactic(auto)]

ghost use Rattle.std.specs.Prelude.{◌≡◌, true, ◌&&◌, ℕ, ◌*◌, ◌<◌, ◌≤◌, eqb, ltb, get_or};
ghost use Rattle.finite.specs.Tests.{all, some, ◌⇒◌};
ghost use Rattle.bits.specs.Bit.{bit};
ghost use Rattle.model.specs.Limits.{most_threads, most_events};
ghost use Rattle.rows.specs.Sets.{Set, Sets, order_in, set_in, store_in, applicable_in};
ghost use Rattle.rows.specs.May.{may15, may16, may17, may18, must_read};
ghost use Rattle.values.specs.Parts.{equal_in, thread_in, supplied, explained, overwritten, carried as carried_of, cumulative, must_read_of, reached as reached_of, carried_on};

use case::Case;

// Load l, one of the judged, holds the initial value, or some store to its address comes before it.
fn supplied_load(
    judged: u64,
    fresh: u64,
    stores: u64,
    partners: &[u64; Case::MOST_EVENTS],
    asked: &[u64; Case::MOST_THREADS * Case::MOST_EVENTS],
    k: usize,
    p: usize,
    l: usize,
) -> bool
    requires k_le_most_events { k ≤ most_events }
    requires p_lt_most_threads { p < most_threads }
    requires l_lt_k { l < k }
    requires l_value { bit judged l ≡ true }
    ensures { result ≡ supplied k (bit judged) (bit fresh) (store_in stores partners.now) (order_in asked.now p) l }
{
    let sources = bits::both(stores, partners[l]);
    bits::has(fresh, l) || rows::any(rows::before_of(asked, k, p, sources, l), k)
}

// Rule 15 of thread p.
fn supplied_order(
    judged: u64,
    fresh: u64,
    stores: u64,
    partners: &[u64; Case::MOST_EVENTS],
    asked: &[u64; Case::MOST_THREADS * Case::MOST_EVENTS],
    k: usize,
    p: usize,
) -> bool
    requires k_le_most_events { k ≤ most_events }
    requires p_lt_most_threads { p < most_threads }
    ensures { result ≡ all k (supplied k (bit judged) (bit fresh) (store_in stores partners.now) (order_in asked.now p)) }
{
    bits::members_below(judged, k).all(|l| supplied_load(
        judged, fresh, stores, partners, asked, k, p, l,
    ))
}

// Rule 15. `judged` holds, by thread, the loads that it speaks of; `fresh` those that hold the initial value; `partners`, by
// event, the events that use its address.
pub fn rule15<'a>(
    judged: &'a [u64; Case::MOST_THREADS],
    fresh: u64,
    stores: u64,
    partners: &'a [u64; Case::MOST_EVENTS],
    asked: &'a [u64; Case::MOST_THREADS * Case::MOST_EVENTS],
    n: usize,
    k: usize,
) -> bool
    requires n_le_most_threads { n ≤ most_threads }
    requires k_le_most_events { k ≤ most_events }
    ensures { result ≡ may15 n k (set_in judged.now) (bit fresh) (store_in stores partners.now) (order_in asked.now) }
{
    (0..n).all(|p| supplied_order(judged[p], fresh, stores, partners, asked, k, p))
}

// Store s, one of those: another lies between s and load l, or the values are equal, or l comes before s.
fn explained_store(
    those: u64,
    between: u64,
    values: &[u32; Case::MOST_EVENTS],
    asked: &[u64; Case::MOST_THREADS * Case::MOST_EVENTS],
    k: usize,
    p: usize,
    l: usize,
    s: usize,
) -> bool
    requires k_le_most_events { k ≤ most_events }
    requires p_lt_most_threads { p < most_threads }
    requires l_lt_k { l < k }
    requires s_lt_k { s < k }
    requires s_value { bit those s ≡ true }
    ensures { result ≡ explained k (bit those) (bit between) (equal_in values.now) (order_in asked.now p) l s }
{
    let later = bits::both(between, rows::row(asked, p, s));
    values[l] == values[s]
        || rows::precedes(asked, p, l, s)
        || rows::any(rows::without(later, s), k)
}

// Every store of those.
fn explained_stores(
    those: u64,
    between: u64,
    values: &[u32; Case::MOST_EVENTS],
    asked: &[u64; Case::MOST_THREADS * Case::MOST_EVENTS],
    k: usize,
    p: usize,
    l: usize,
) -> bool
    requires k_le_most_events { k ≤ most_events }
    requires p_lt_most_threads { p < most_threads }
    requires l_lt_k { l < k }
    ensures { result ≡ all k (explained k (bit those) (bit between) (equal_in values.now) (order_in asked.now p) l) }
{
    bits::members_below(those, k).all(|s| explained_store(
        those, between, values, asked, k, p, l, s,
    ))
}

// Rule 16 of thread p at load l, one of the judged.
fn overwritten_load(
    judged: u64,
    seen: u64,
    stores: u64,
    partners: &[u64; Case::MOST_EVENTS],
    values: &[u32; Case::MOST_EVENTS],
    asked: &[u64; Case::MOST_THREADS * Case::MOST_EVENTS],
    k: usize,
    p: usize,
    l: usize,
) -> bool
    requires k_le_most_events { k ≤ most_events }
    requires p_lt_most_threads { p < most_threads }
    requires l_lt_k { l < k }
    requires l_value { bit judged l ≡ true }
    ensures { result ≡ overwritten k (bit judged) (bit seen) (store_in stores partners.now) (equal_in values.now) (order_in asked.now p) l }
{
    let sources = bits::both(stores, partners[l]);
    let between = rows::before_of(asked, k, p, sources, l);
    explained_stores(bits::both(sources, seen), between, values, asked, k, p, l)
}

// Rule 16 of thread p.
fn overwritten_order(
    judged: u64,
    seen: u64,
    stores: u64,
    partners: &[u64; Case::MOST_EVENTS],
    values: &[u32; Case::MOST_EVENTS],
    asked: &[u64; Case::MOST_THREADS * Case::MOST_EVENTS],
    k: usize,
    p: usize,
) -> bool
    requires k_le_most_events { k ≤ most_events }
    requires p_lt_most_threads { p < most_threads }
    ensures { result ≡ all k (overwritten k (bit judged) (bit seen) (store_in stores partners.now) (equal_in values.now) (order_in asked.now p)) }
{
    bits::members_below(judged, k).all(|l| overwritten_load(
        judged, seen, stores, partners, values, asked, k, p, l,
    ))
}

// Rule 16. `seen` holds, by thread, the events that it sees.
pub fn rule16<'a>(
    judged: &'a [u64; Case::MOST_THREADS],
    seen: &'a [u64; Case::MOST_THREADS],
    stores: u64,
    partners: &'a [u64; Case::MOST_EVENTS],
    values: &'a [u32; Case::MOST_EVENTS],
    asked: &'a [u64; Case::MOST_THREADS * Case::MOST_EVENTS],
    n: usize,
    k: usize,
) -> bool
    requires n_le_most_threads { n ≤ most_threads }
    requires k_le_most_events { k ≤ most_events }
    ensures { result ≡ may16 n k (set_in judged.now) (set_in seen.now) (store_in stores partners.now) (equal_in values.now) (order_in asked.now) }
{
    (0..n).all(|p| overwritten_order(judged[p], seen[p], stores, partners, values, asked, k, p))
}

// Event e comes before every event of the set in thread q's order.
fn leads(
    asked: &[u64; Case::MOST_THREADS * Case::MOST_EVENTS],
    k: usize,
    set: u64,
    e: usize,
    q: usize,
) -> bool
    requires k_le_most_events { k ≤ most_events }
    requires e_lt_k { e < k }
    requires q_lt_most_threads { q < most_threads }
    ensures { result ≡ all k (λ g. bit set g ⇒ order_in asked.now q e g) }
{
    bits::inside_below(set, rows::row(asked, q, e), k)
}

// Event e comes before every event of the set in every thread's order.
fn leads_everywhere(
    asked: &[u64; Case::MOST_THREADS * Case::MOST_EVENTS],
    n: usize,
    k: usize,
    set: u64,
    e: usize,
) -> bool
    requires n_le_most_threads { n ≤ most_threads }
    requires k_le_most_events { k ≤ most_events }
    requires e_lt_k { e < k }
    ensures { result ≡ all n (λ q. all k (λ g. bit set g ⇒ order_in asked.now q e g)) }
{
    (0..n).all(|q| leads(asked, k, set, e, q))
}

// Of the set, what barrier f orders after event e: `light` holds, by event, what a light one does.
fn ordered_after(set: u64, syncs: u64, light: &[u64; Case::MOST_EVENTS], f: usize, e: usize) -> u64
    requires f_lt_most_events { f < most_events }
    requires e_lt_most_events { e < most_events }
    ensures { Set result (λ g. bit set g && applicable_in syncs light.now f e g) }
{
    if bits::has(syncs, f) {
        set
    } else {
        set & light[e]
    }
}

// Event e, one of the first, comes before what barrier f orders after it, in every thread's order.
fn carried_event(
    first: u64,
    then: u64,
    syncs: u64,
    light: &[u64; Case::MOST_EVENTS],
    f: usize,
    asked: &[u64; Case::MOST_THREADS * Case::MOST_EVENTS],
    n: usize,
    k: usize,
    e: usize,
) -> bool
    requires n_le_most_threads { n ≤ most_threads }
    requires k_le_most_events { k ≤ most_events }
    requires f_lt_k { f < k }
    requires e_lt_k { e < k }
    requires e_value { bit first e ≡ true }
    ensures { result ≡ (bit first e ⇒ all n (λ q. all k (λ g. (bit then g && applicable_in syncs light.now f e g) ⇒ order_in asked.now q e g))) }
{
    leads_everywhere(asked, n, k, ordered_after(then, syncs, light, f, e), e)
}

// Every event of the first set comes before every event of the second that barrier f orders after it.
fn carried(
    first: u64,
    then: u64,
    syncs: u64,
    light: &[u64; Case::MOST_EVENTS],
    f: usize,
    asked: &[u64; Case::MOST_THREADS * Case::MOST_EVENTS],
    n: usize,
    k: usize,
) -> bool
    requires n_le_most_threads { n ≤ most_threads }
    requires k_le_most_events { k ≤ most_events }
    requires f_lt_k { f < k }
    ensures { result ≡ carried_of k n (bit first) (bit then) (applicable_in syncs light.now f) (order_in asked.now) }
{
    bits::members_below(first, k).all(|e| carried_event(
        first, then, syncs, light, f, asked, n, k, e,
    ))
}

// The events of the set that come after f, in p's order.
fn after_of(
    known: &[u64; Case::MOST_THREADS * Case::MOST_EVENTS],
    p: usize,
    set: u64,
    f: usize,
) -> u64
    requires p_lt_most_threads { p < most_threads }
    requires f_lt_most_events { f < most_events }
    ensures { Set result (λ e. bit set e && order_in known.now p f e) }
{
    bits::both(set, rows::row(known, p, f))
}

// Rule 17 at barrier f of thread p.
fn cumulative_barrier(
    own: u64,
    barriers: u64,
    syncs: u64,
    light: &[u64; Case::MOST_EVENTS],
    known: &[u64; Case::MOST_THREADS * Case::MOST_EVENTS],
    asked: &[u64; Case::MOST_THREADS * Case::MOST_EVENTS],
    n: usize,
    k: usize,
    p: usize,
    f: usize,
) -> bool
    requires n_le_most_threads { n ≤ most_threads }
    requires k_le_most_events { k ≤ most_events }
    requires p_lt_most_threads { p < most_threads }
    requires f_lt_k { f < k }
    requires f_value { (bit barriers f && bit own f) ≡ true }
    ensures { result ≡ cumulative k n (bit own) (bit barriers) (applicable_in syncs light.now) (order_in known.now p) (order_in asked.now) f }
{
    let first = rows::before(known, k, p, f);
    let then = after_of(known, p, own, f);
    carried(first, then, syncs, light, f, asked, n, k)
}

// Rule 17 of thread p.
fn cumulative_order(
    own: u64,
    barriers: u64,
    syncs: u64,
    light: &[u64; Case::MOST_EVENTS],
    known: &[u64; Case::MOST_THREADS * Case::MOST_EVENTS],
    asked: &[u64; Case::MOST_THREADS * Case::MOST_EVENTS],
    n: usize,
    k: usize,
    p: usize,
) -> bool
    requires n_le_most_threads { n ≤ most_threads }
    requires k_le_most_events { k ≤ most_events }
    requires p_lt_most_threads { p < most_threads }
    ensures { result ≡ all k (cumulative k n (bit own) (bit barriers) (applicable_in syncs light.now) (order_in known.now p) (order_in asked.now)) }
{
    let fences = bits::both(barriers, own);
    bits::members_below(fences, k).all(|f| cumulative_barrier(
        own, barriers, syncs, light, known, asked, n, k, p, f,
    ))
}

// Rule 17. `own` holds each thread's events; `light`, by event, what a light barrier orders after it; of the barriers, the
// syncs order every two events.
pub fn rule17<'a>(
    own: &'a [u64; Case::MOST_THREADS],
    barriers: u64,
    syncs: u64,
    light: &'a [u64; Case::MOST_EVENTS],
    known: &'a [u64; Case::MOST_THREADS * Case::MOST_EVENTS],
    asked: &'a [u64; Case::MOST_THREADS * Case::MOST_EVENTS],
    n: usize,
    k: usize,
) -> bool
    requires n_le_most_threads { n ≤ most_threads }
    requires k_le_most_events { k ≤ most_events }
    ensures { result ≡ may17 n k (set_in own.now) (bit barriers) (applicable_in syncs light.now) (order_in known.now) (order_in asked.now) }
{
    (0..n).all(|p| cumulative_order(own[p], barriers, syncs, light, known, asked, n, k, p))
}

// Load l must read from s, one of its sources: every rival comes before s.
fn must_read(
    sources: u64,
    rivals: u64,
    known: &[u64; Case::MOST_THREADS * Case::MOST_EVENTS],
    k: usize,
    t: usize,
    l: usize,
    s: usize,
) -> bool
    requires k_le_most_events { k ≤ most_events }
    requires t_lt_most_threads { t < most_threads }
    requires l_lt_k { l < k }
    requires s_lt_k { s < k }
    requires s_value { bit sources s ≡ true }
    ensures { result ≡ must_read_of k (bit sources) (bit rivals) (order_in known.now t) l s }
{
    rows::precedes(known, t, s, l)
        && bits::inside_below(
            rivals,
            bits::with(rows::before_of(known, k, t, rivals, s), s),
            k,
        )
}

// Store s, one of the sources of load l, if it must read from it.
fn read_store(
    sources: u64,
    rivals: u64,
    known: &[u64; Case::MOST_THREADS * Case::MOST_EVENTS],
    k: usize,
    t: usize,
    l: usize,
    s: usize,
) -> u64
    requires k_le_most_events { k ≤ most_events }
    requires t_lt_most_threads { t < most_threads }
    requires l_lt_k { l < k }
    requires s_lt_k { s < k }
    requires s_value { bit sources s ≡ true }
    ensures { Set result (λ e. must_read_of k (bit sources) (bit rivals) (order_in known.now t) l s && eqb e s) }
{
    rows::where_so(
        must_read(sources, rivals, known, k, t, l, s),
        rows::alone(s),
    )
}

// The stores from which load l must read.
fn read_stores(
    sources: u64,
    rivals: u64,
    known: &[u64; Case::MOST_THREADS * Case::MOST_EVENTS],
    k: usize,
    t: usize,
    l: usize,
) -> u64
    requires k_le_most_events { k ≤ most_events }
    requires t_lt_most_threads { t < most_threads }
    requires l_lt_k { l < k }
    ensures { Set result (λ s. ltb s k && must_read_of k (bit sources) (bit rivals) (order_in known.now t) l s) }
{
    let mut found: u64 = 0;
    for s in bits::members_below(sources, k) {
        found |= read_store(sources, rivals, known, k, t, l, s);
    }
    found
}

// The same of event l, if it is a load.
fn read_by(
    loads: u64,
    stores: u64,
    partners: &[u64; Case::MOST_EVENTS],
    threads: &[u8; Case::MOST_EVENTS],
    known: &[u64; Case::MOST_THREADS * Case::MOST_EVENTS],
    asked: &[u64; Case::MOST_THREADS * Case::MOST_EVENTS],
    k: usize,
    l: usize,
) -> u64
    requires k_le_most_events { k ≤ most_events }
    requires l_lt_k { l < k }
    requires l_bound { get_or threads.now l 0 < most_threads }
    ensures { Set result (λ s. ltb s k && must_read k (bit loads) (store_in stores partners.now) (thread_in threads.now) (order_in known.now) (order_in asked.now) l s) }
{
    if bits::has(loads, l) {
        let t = usize::from(threads[l]);
        let sources = bits::both(stores, partners[l]);
        let rivals = rows::before_of(asked, k, t, sources, l);
        read_stores(sources, rivals, known, k, t, l)
    } else {
        0
    }
}

// By load, the stores from which it must read. The entries from k on are left open: there is no such event.
pub fn reads_from<'a>(
    loads: u64,
    stores: u64,
    partners: &'a [u64; Case::MOST_EVENTS],
    threads: &'a [u8; Case::MOST_EVENTS],
    known: &'a [u64; Case::MOST_THREADS * Case::MOST_EVENTS],
    asked: &'a [u64; Case::MOST_THREADS * Case::MOST_EVENTS],
    k: usize,
) -> [u64; Case::MOST_EVENTS]
    requires k_le_most_events { k ≤ most_events }
    requires by_index { (l : ℕ) → l < k → get_or threads.now l 0 < most_threads }
    ensures { Sets k result (λ l s. ltb s k && must_read k (bit loads) (store_in stores partners.now) (thread_in threads.now) (order_in known.now) (order_in asked.now) l s) }
{
    let mut out = [0u64; Case::MOST_EVENTS];
    for l in 0..k {
        out[l] = read_by(loads, stores, partners, threads, known, asked, k, l);
    }
    out
}

// What comes after load l in its thread's order, if it must read from an event of the set.
fn reached_by(
    read: &[u64; Case::MOST_EVENTS],
    threads: &[u8; Case::MOST_EVENTS],
    known: &[u64; Case::MOST_THREADS * Case::MOST_EVENTS],
    k: usize,
    set: u64,
    l: usize,
) -> u64
    requires k_le_most_events { k ≤ most_events }
    requires l_lt_k { l < k }
    requires l_bound { get_or threads.now l 0 < most_threads }
    ensures { Set result (λ g. some k (λ s. set_in read.now l s && bit set s) && order_in known.now (thread_in threads.now l) l g) }
{
    let reads_it = rows::any(bits::both(read[l], set), k);
    rows::where_so(reads_it, rows::row(known, usize::from(threads[l]), l))
}

// What comes after a load that must read from an event of the set, in its thread's order.
fn reached(
    read: &[u64; Case::MOST_EVENTS],
    threads: &[u8; Case::MOST_EVENTS],
    known: &[u64; Case::MOST_THREADS * Case::MOST_EVENTS],
    k: usize,
    set: u64,
) -> u64
    requires k_le_most_events { k ≤ most_events }
    requires by_index { (l : ℕ) → l < k → get_or threads.now l 0 < most_threads }
    ensures { Set result (reached_of k (set_in read.now) (thread_in threads.now) (order_in known.now) (bit set)) }
{
    let mut found: u64 = 0;
    for l in 0..k {
        found |= reached_by(read, threads, known, k, set, l);
    }
    found
}

// What comes after a load that must read from a store of thread p after f, in the load's thread's order.
fn reached_from(
    own: u64,
    stores: u64,
    read: &[u64; Case::MOST_EVENTS],
    threads: &[u8; Case::MOST_EVENTS],
    known: &[u64; Case::MOST_THREADS * Case::MOST_EVENTS],
    k: usize,
    p: usize,
    f: usize,
) -> u64
    requires k_le_most_events { k ≤ most_events }
    requires p_lt_most_threads { p < most_threads }
    requires f_lt_k { f < k }
    requires by_index { (l : ℕ) → l < k → get_or threads.now l 0 < most_threads }
    ensures { Set result (reached_of k (set_in read.now) (thread_in threads.now) (order_in known.now) (λ s. bit stores s && bit own s && order_in known.now p f s)) }
{
    let those = after_of(known, p, bits::both(stores, own), f);
    reached(read, threads, known, k, those)
}

// Rule 18 at barrier f of thread p.
fn carried_on_barrier(
    own: u64,
    barriers: u64,
    syncs: u64,
    light: &[u64; Case::MOST_EVENTS],
    stores: u64,
    read: &[u64; Case::MOST_EVENTS],
    threads: &[u8; Case::MOST_EVENTS],
    known: &[u64; Case::MOST_THREADS * Case::MOST_EVENTS],
    asked: &[u64; Case::MOST_THREADS * Case::MOST_EVENTS],
    n: usize,
    k: usize,
    p: usize,
    f: usize,
) -> bool
    requires n_le_most_threads { n ≤ most_threads }
    requires k_le_most_events { k ≤ most_events }
    requires p_lt_most_threads { p < most_threads }
    requires f_lt_k { f < k }
    requires f_value { (bit barriers f && bit own f) ≡ true }
    requires by_index { (l : ℕ) → l < k → get_or threads.now l 0 < most_threads }
    ensures { result ≡ carried_on k n (bit own) (bit barriers) (applicable_in syncs light.now) (bit stores) (set_in read.now) (thread_in threads.now) p (order_in known.now) (order_in asked.now) f }
{
    let before = rows::before(known, k, p, f);
    let then = reached_from(own, stores, read, threads, known, k, p, f);
    carried(before, then, syncs, light, f, asked, n, k)
}

// Rule 18 of thread p.
fn carried_on_order(
    own: u64,
    barriers: u64,
    syncs: u64,
    light: &[u64; Case::MOST_EVENTS],
    stores: u64,
    read: &[u64; Case::MOST_EVENTS],
    threads: &[u8; Case::MOST_EVENTS],
    known: &[u64; Case::MOST_THREADS * Case::MOST_EVENTS],
    asked: &[u64; Case::MOST_THREADS * Case::MOST_EVENTS],
    n: usize,
    k: usize,
    p: usize,
) -> bool
    requires n_le_most_threads { n ≤ most_threads }
    requires k_le_most_events { k ≤ most_events }
    requires p_lt_most_threads { p < most_threads }
    requires by_index { (l : ℕ) → l < k → get_or threads.now l 0 < most_threads }
    ensures { result ≡ all k (carried_on k n (bit own) (bit barriers) (applicable_in syncs light.now) (bit stores) (set_in read.now) (thread_in threads.now) p (order_in known.now) (order_in asked.now)) }
{
    let fences = bits::both(barriers, own);
    bits::members_below(fences, k).all(|f| {
        carried_on_barrier(
            own, barriers, syncs, light, stores, read, threads, known, asked, n, k, p, f,
        )
    })
}

// Rule 18. `read` holds, by load, the stores from which it must read.
pub fn rule18<'a>(
    own: &'a [u64; Case::MOST_THREADS],
    barriers: u64,
    syncs: u64,
    light: &'a [u64; Case::MOST_EVENTS],
    stores: u64,
    read: &'a [u64; Case::MOST_EVENTS],
    threads: &'a [u8; Case::MOST_EVENTS],
    known: &'a [u64; Case::MOST_THREADS * Case::MOST_EVENTS],
    asked: &'a [u64; Case::MOST_THREADS * Case::MOST_EVENTS],
    n: usize,
    k: usize,
) -> bool
    requires n_le_most_threads { n ≤ most_threads }
    requires k_le_most_events { k ≤ most_events }
    requires by_index { (l : ℕ) → l < k → get_or threads.now l 0 < most_threads }
    ensures { result ≡ may18 n k (set_in own.now) (bit barriers) (applicable_in syncs light.now) (bit stores) (set_in read.now) (thread_in threads.now) (order_in known.now) (order_in asked.now) }
{
    (0..n).all(|p| {
        carried_on_order(
            own[p], barriers, syncs, light, stores, read, threads, known, asked, n, k, p,
        )
    })
}
