// Rules 11 to 14: what each thread's order and the write orders have to be. `known` holds what a rule presupposes, `asked`
// what it asks for.
#![tactic(auto)]

ghost use Rattle.std.specs.Prelude.{◌≡◌, true, ◌&&◌, ◌||◌, ℕ, ◌+◌, ◌*◌, ◌<◌, ◌≤◌, get_or};
ghost use Rattle.finite.specs.Tests.{all, count, ◌⇒◌};
ghost use Rattle.bits.specs.Bit.{bit};
ghost use Rattle.model.specs.Limits.{most_threads, most_addresses, most_events};
ghost use Rattle.model.specs.Rules.{first};
ghost use Rattle.rows.specs.Sets.{Set, order_in, set_in, store_in};
ghost use Rattle.rows.specs.May.{may11, may12, may13, may14};
ghost use Rattle.orders.specs.Parts.{closed, transitive_at, connected, listed, coherent, writes_in, written_in};

use case::Case;

// The row of a, of thread p's order, against the rows of what is in it.
fn closed_row(
    known: &[u64; Case::MOST_THREADS * Case::MOST_EVENTS],
    asked: &[u64; Case::MOST_THREADS * Case::MOST_EVENTS],
    k: usize,
    p: usize,
    a: usize,
) -> bool
    requires k_le_most_events { k ≤ most_events }
    requires p_lt_most_threads { p < most_threads }
    requires a_lt_k { a < k }
    ensures { result ≡ closed k (order_in known.now p) (order_in asked.now p) a }
{
    let mine = rows::row(known, p, a);
    !bits::has(mine, a)
        && bits::inside_below(rows::after(known, k, p, mine), rows::row(asked, p, a), k)
}

// Thread p's order is irreflexive and transitive.
fn closed_order(
    known: &[u64; Case::MOST_THREADS * Case::MOST_EVENTS],
    asked: &[u64; Case::MOST_THREADS * Case::MOST_EVENTS],
    k: usize,
    p: usize,
) -> bool
    requires k_le_most_events { k ≤ most_events }
    requires p_lt_most_threads { p < most_threads }
    ensures { result ≡ all k (closed k (order_in known.now p) (order_in asked.now p)) }
{
    (0..k).all(|a| closed_row(known, asked, k, p, a))
}

// Rule 11, a whole row at once. Judging has a test of one order, `one_order::rule11`.
pub fn rule11(
    known: &[u64; Case::MOST_THREADS * Case::MOST_EVENTS],
    asked: &[u64; Case::MOST_THREADS * Case::MOST_EVENTS],
    n: usize,
    k: usize,
) -> bool
    requires n_le_most_threads { n ≤ most_threads }
    requires k_le_most_events { k ≤ most_events }
    ensures { result ≡ may11 n k (order_in known.now) (order_in asked.now) }
{
    (0..n).all(|p| closed_order(known, asked, k, p))
}

// Three events: where a comes before b and b before d, a comes before d.
fn three(
    known: &[u64; Case::MOST_THREADS * Case::MOST_EVENTS],
    asked: &[u64; Case::MOST_THREADS * Case::MOST_EVENTS],
    p: usize,
    a: usize,
    b: usize,
    d: usize,
) -> bool
    requires p_lt_most_threads { p < most_threads }
    requires a_lt_most_events { a < most_events }
    requires b_lt_most_events { b < most_events }
    requires d_lt_most_events { d < most_events }
    ensures { result ≡ transitive_at (order_in known.now p) (order_in asked.now p) a b d }
{
    !(rows::precedes(known, p, a, b) && rows::precedes(known, p, b, d))
        || rows::precedes(asked, p, a, d)
}

// Events a and b of thread p's order, with every third.
fn closed_pair_by_threes(
    known: &[u64; Case::MOST_THREADS * Case::MOST_EVENTS],
    asked: &[u64; Case::MOST_THREADS * Case::MOST_EVENTS],
    k: usize,
    p: usize,
    a: usize,
    b: usize,
) -> bool
    requires k_le_most_events { k ≤ most_events }
    requires p_lt_most_threads { p < most_threads }
    requires a_lt_k { a < k }
    requires b_lt_k { b < k }
    ensures { result ≡ all k (transitive_at (order_in known.now p) (order_in asked.now p) a b) }
{
    (0..k).all(|d| three(known, asked, p, a, b, d))
}

// Event a of thread p's order, with every second and third.
fn closed_by_threes(
    known: &[u64; Case::MOST_THREADS * Case::MOST_EVENTS],
    asked: &[u64; Case::MOST_THREADS * Case::MOST_EVENTS],
    k: usize,
    p: usize,
    a: usize,
) -> bool
    requires k_le_most_events { k ≤ most_events }
    requires p_lt_most_threads { p < most_threads }
    requires a_lt_k { a < k }
    ensures { result ≡ closed k (order_in known.now p) (order_in asked.now p) a }
{
    !rows::precedes(known, p, a, a)
        && (0..k).all(|b| closed_pair_by_threes(known, asked, k, p, a, b))
}

// Thread p's order is irreflexive and transitive, by every three events.
fn closed_order_by_threes(
    known: &[u64; Case::MOST_THREADS * Case::MOST_EVENTS],
    asked: &[u64; Case::MOST_THREADS * Case::MOST_EVENTS],
    k: usize,
    p: usize,
) -> bool
    requires k_le_most_events { k ≤ most_events }
    requires p_lt_most_threads { p < most_threads }
    ensures { result ≡ all k (closed k (order_in known.now p) (order_in asked.now p)) }
{
    (0..k).all(|a| closed_by_threes(known, asked, k, p, a))
}

// Rule 11 by every three events: the plain test beside the one that takes whole rows, with the same contract.
pub fn rule11_by_threes(
    known: &[u64; Case::MOST_THREADS * Case::MOST_EVENTS],
    asked: &[u64; Case::MOST_THREADS * Case::MOST_EVENTS],
    n: usize,
    k: usize,
) -> bool
    requires n_le_most_threads { n ≤ most_threads }
    requires k_le_most_events { k ≤ most_events }
    ensures { result ≡ may11 n k (order_in known.now) (order_in asked.now) }
{
    (0..n).all(|p| closed_order_by_threes(known, asked, k, p))
}

// Event a of thread p and every other of its events are ordered.
fn connected_event(
    own: u64,
    asked: &[u64; Case::MOST_THREADS * Case::MOST_EVENTS],
    k: usize,
    p: usize,
    a: usize,
) -> bool
    requires k_le_most_events { k ≤ most_events }
    requires p_lt_most_threads { p < most_threads }
    requires a_lt_k { a < k }
    requires a_value { bit own a ≡ true }
    ensures { result ≡ connected k (bit own) (order_in asked.now p) a }
{
    let around = rows::row(asked, p, a) | rows::before_of(asked, k, p, own, a);
    bits::inside_below(own, bits::with(around, a), k)
}

// Every two events of thread p are ordered.
fn connected_order(
    own: u64,
    asked: &[u64; Case::MOST_THREADS * Case::MOST_EVENTS],
    k: usize,
    p: usize,
) -> bool
    requires k_le_most_events { k ≤ most_events }
    requires p_lt_most_threads { p < most_threads }
    ensures { result ≡ all k (connected k (bit own) (order_in asked.now p)) }
{
    for a in bits::members_below(own, k) {
        if !connected_event(own, asked, k, p, a) {
            return false;
        }
    }
    true
}

// Rule 12. `own` holds each thread's events.
pub fn rule12(
    own: &[u64; Case::MOST_THREADS],
    asked: &[u64; Case::MOST_THREADS * Case::MOST_EVENTS],
    n: usize,
    k: usize,
) -> bool
    requires n_le_most_threads { n ≤ most_threads }
    requires k_le_most_events { k ≤ most_events }
    ensures { result ≡ may12 n k (set_in own.now) (order_in asked.now) }
{
    (0..n).all(|p| connected_order(own[p], asked, k, p))
}

// Of thread p's events, those before which a has to stay if it is listed before them: all where a is a barrier, else the barriers,
// those that use its address and those that depend on it.
fn bound_to(own: u64, barriers: u64, partner: u64, dependent: u64, a: usize) -> u64
    requires { a < most_events }
    ensures { Set result (λ b. bit own b && (bit barriers a || bit barriers b || bit partner b || bit dependent b)) }
{
    if bits::has(barriers, a) {
        own
    } else {
        own & (barriers | partner | dependent)
    }
}

// Event a of thread p comes before those that are listed after it and before which it has to stay.
fn listed_event(
    own: u64,
    barriers: u64,
    partners: &[u64; Case::MOST_EVENTS],
    dependents: &[u64; Case::MOST_EVENTS],
    asked: &[u64; Case::MOST_THREADS * Case::MOST_EVENTS],
    k: usize,
    p: usize,
    a: usize,
) -> bool
    requires k_le_most_events { k ≤ most_events }
    requires p_lt_most_threads { p < most_threads }
    requires a_lt_k { a < k }
    requires a_value { bit own a ≡ true }
    ensures { result ≡ listed k (bit own) (bit barriers) (set_in partners.now) (set_in dependents.now) (order_in asked.now p) a }
{
    let placed = rows::row(asked, p, a) | bits::below(a + 1);
    let bound = bound_to(own, barriers, partners[a], dependents[a], a);
    bits::inside_below(bound, placed, k)
}

// Thread p's order keeps its program order.
fn listed_order(
    own: u64,
    barriers: u64,
    partners: &[u64; Case::MOST_EVENTS],
    dependents: &[u64; Case::MOST_EVENTS],
    asked: &[u64; Case::MOST_THREADS * Case::MOST_EVENTS],
    k: usize,
    p: usize,
) -> bool
    requires k_le_most_events { k ≤ most_events }
    requires p_lt_most_threads { p < most_threads }
    ensures { result ≡ all k (listed k (bit own) (bit barriers) (set_in partners.now) (set_in dependents.now) (order_in asked.now p)) }
{
    for a in bits::members_below(own, k) {
        if !listed_event(own, barriers, partners, dependents, asked, k, p, a) {
            return false;
        }
    }
    true
}

// Rule 13. `partners` holds, by event, the events that use its address, `dependents` those that depend on it.
pub fn rule13(
    own: &[u64; Case::MOST_THREADS],
    barriers: u64,
    partners: &[u64; Case::MOST_EVENTS],
    dependents: &[u64; Case::MOST_EVENTS],
    asked: &[u64; Case::MOST_THREADS * Case::MOST_EVENTS],
    n: usize,
    k: usize,
) -> bool
    requires n_le_most_threads { n ≤ most_threads }
    requires k_le_most_events { k ≤ most_events }
    ensures { result ≡ may13 n k (set_in own.now) (bit barriers) (set_in partners.now) (set_in dependents.now) (order_in asked.now) }
{
    (0..n).all(|p| listed_order(own[p], barriers, partners, dependents, asked, k, p))
}

// In the write order of address x, count stores long, a stands before every event of the set.
fn in_write_order(
    writes: &[u8; Case::MOST_ADDRESSES * Case::MOST_EVENTS],
    x: usize,
    count: usize,
    k: usize,
    set: u64,
    a: usize,
) -> bool
    requires k_le_most_events { k ≤ most_events }
    requires x_lt_most_addresses { x < most_addresses }
    requires count_le_k { count ≤ k }
    requires by_index { (i : ℕ) → i < count → get_or writes.now (x * most_events + i) 0 < k }
    ensures { result ≡ all k (λ b. bit set b ⇒ first a b (writes_in writes.now x count)) }
{
    let start = x * Case::MOST_EVENTS;
    for store in &writes[start..start + count] {
        let e = usize::from(*store);
        if e == a {
            return true;
        }
        if bits::has(set, e) {
            return false;
        }
    }
    !rows::any(set, k)
}

// Coherence at a: the stores to its address that some thread orders after it stand so in the write order.
fn coherent_event(
    known: &[u64; Case::MOST_THREADS * Case::MOST_EVENTS],
    stores: u64,
    partners: &[u64; Case::MOST_EVENTS],
    addresses: &[u8; Case::MOST_EVENTS],
    writes: &[u8; Case::MOST_ADDRESSES * Case::MOST_EVENTS],
    n: usize,
    k: usize,
    a: usize,
) -> bool
    requires n_le_most_threads { n ≤ most_threads }
    requires k_le_most_events { k ≤ most_events }
    requires a_lt_k { a < k }
    requires a_value { bit stores a ≡ true }
    requires a_bound { get_or addresses.now a 0 < most_addresses }
    requires i_bound { (i : ℕ) → i < count k (store_in stores partners.now a) → get_or writes.now (get_or addresses.now a 0 * most_events + i) 0 < k }
    ensures { result ≡ coherent k n (bit stores) (store_in stores partners.now) (written_in k stores partners.now addresses.now writes.now) (order_in known.now) a }
{
    let sources = bits::both(stores, partners[a]);
    let later = bits::both(sources, rows::after_anywhere(known, n, a));
    let count = bits::size_below(sources, k);
    in_write_order(writes, usize::from(addresses[a]), count, k, later, a)
}

// Rule 14. `addresses` and `writes` are a case's.
pub fn rule14(
    known: &[u64; Case::MOST_THREADS * Case::MOST_EVENTS],
    stores: u64,
    partners: &[u64; Case::MOST_EVENTS],
    addresses: &[u8; Case::MOST_EVENTS],
    writes: &[u8; Case::MOST_ADDRESSES * Case::MOST_EVENTS],
    n: usize,
    k: usize,
) -> bool
    requires n_le_most_threads { n ≤ most_threads }
    requires k_le_most_events { k ≤ most_events }
    requires by_index { (a : ℕ) → a < k → bit stores a ≡ true → get_or addresses.now a 0 < most_addresses }
    requires by_index_2 { (a : ℕ) → a < k → bit stores a ≡ true → (i : ℕ) → i < count k (store_in stores partners.now a) → get_or writes.now (get_or addresses.now a 0 * most_events + i) 0 < k }
    ensures { result ≡ may14 n k (bit stores) (store_in stores partners.now) (written_in k stores partners.now addresses.now writes.now) (order_in known.now) }
{
    for a in bits::members_below(stores, k) {
        if !coherent_event(known, stores, partners, addresses, writes, n, k, a) {
            return false;
        }
    }
    true
}
