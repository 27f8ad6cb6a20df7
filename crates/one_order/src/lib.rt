// A case's own orders: rule 11 of them, and what joins the orders of its threads.
#![tactic(auto)]

ghost use Rattle.std.specs.Prelude.{◌≡◌, true, not, ◌&&◌, eqb, ◌-◌, ◌<◌, ◌≤◌, min};
ghost use Rattle.finite.specs.Tests.{all, ◌⇒◌};
ghost use Rattle.bits.specs.Bit.{bit, width};
ghost use Rattle.model.specs.Limits.{most_threads, most_events};
ghost use Rattle.rows.specs.Sets.{Set, Sets, order_in};
ghost use Rattle.rows.specs.May.{may11};
ghost use Rattle.orders.specs.Parts.{closed};
ghost use Rattle.one_order.specs.Covers.{Tested};
ghost use Rattle.one_order.specs.FinalParts.{Named, FinalPart};
ghost use Rattle.one_order.specs.Alike.{as_first, alike_in};

use case::Case;

// Whether no event is in both sets.
fn apart(a: u64, b: u64) -> bool
    ensures { result ≡ all width (λ j. bit a j ⇒ not (bit b j)) }
{
    a & b == 0
}

// Whether event a of thread p's order is not before itself, and what follows an event that follows it follows it, too: asked of the
// lowest that follows a, then of the lowest that was not asked and follows none that was.
fn covered_row(
    rows: &[u64; Case::MOST_THREADS * Case::MOST_EVENTS],
    k: usize,
    p: usize,
    a: usize,
) -> bool
    requires k_le_most_events { k ≤ most_events }
    requires p_lt_most_threads { p < most_threads }
    requires a_lt_k { a < k }
    ensures { Tested k (order_in rows.now p) a result }
{
    let mine = rows::row(rows, p, a);
    if bits::has(mine, a) {
        return false;
    }
    let events = bits::below(k);
    let others = rows::minus(events, mine);
    let mut rest = bits::members(bits::both(mine, events));
    while let Some(b) = rest.next() {
        let behind = rows::row(rows, p, b);
        if !apart(behind, others) {
            return false;
        }
        rest = bits::members(rows::minus(rest.set(), behind));
    }
    true
}

// Thread p's order is irreflexive and transitive, row by row.
fn covered_order(rows: &[u64; Case::MOST_THREADS * Case::MOST_EVENTS], k: usize, p: usize) -> bool
    requires k_le_most_events { k ≤ most_events }
    requires p_lt_most_threads { p < most_threads }
    ensures { result ≡ all k (closed k (order_in rows.now p) (order_in rows.now p)) }
{
    // A loop and not `all`: a row's test promises a fact for either answer, not the value of a test.
    for a in 0..k {
        if !covered_row(rows, k, p, a) {
            return false;
        }
    }
    true
}

// By size, an event whose row in thread p's order has that many events, if there is one: where `final_part` looks for the next event.
// No more is promised than that it is an event.
fn by_size(
    rows: &[u64; Case::MOST_THREADS * Case::MOST_EVENTS],
    k: usize,
    p: usize,
) -> [u8; Case::MOST_EVENTS + 1]
    requires k_le_most_events { k ≤ most_events }
    requires p_lt_most_threads { p < most_threads }
    ensures { Named result }
{
    let mut out = [0u8; Case::MOST_EVENTS + 1];
    for a in 0..k {
        let size = bits::size_below(rows::row(rows, p, a), k);
        out[size] = a as u8;
    }
    out
}

// What follows event b in thread p's order, if nothing follows that; else none.
fn last_after(
    rows: &[u64; Case::MOST_THREADS * Case::MOST_EVENTS],
    k: usize,
    p: usize,
    b: usize,
) -> u64
    requires k_le_most_events { k ≤ most_events }
    requires p_lt_most_threads { p < most_threads }
    requires b_lt_most_events { b < most_events }
    ensures { FinalPart k (order_in rows.now p) result }
{
    let last = bits::both(rows::row(rows, p, b), bits::below(k));
    rows::where_so(!rows::any(rows::after(rows, k, p, last), k), last)
}

// Events of thread p's order from its end on: each one that `sizes` names next, as long as those that come after it are the ones taken
// before.
fn final_part(
    rows: &[u64; Case::MOST_THREADS * Case::MOST_EVENTS],
    sizes: &[u8; Case::MOST_EVENTS + 1],
    k: usize,
    p: usize,
) -> u64
    requires k_le_most_events { k ≤ most_events }
    requires p_lt_most_threads { p < most_threads }
    requires named { Named sizes.now }
    ensures { FinalPart k (order_in rows.now p) result }
{
    let events = bits::below(k);
    let mut part = last_after(rows, k, p, usize::from(sizes[1]));
    for i in 1..k {
        let a = usize::from(sizes[i]);
        if bits::both(rows::row(rows, p, a), events) != part {
            return part;
        }
        part = bits::with(part, a);
    }
    part
}

// Whether thread p's order is seen to be linear: of the events that are not in its final part, none has an event after it. Where it
// is not, it may be irreflexive and transitive all the same.
fn linear_order(rows: &[u64; Case::MOST_THREADS * Case::MOST_EVENTS], k: usize, p: usize) -> bool
    requires k_le_most_events { k ≤ most_events }
    requires p_lt_most_threads { p < most_threads }
    ensures { result ≡ true → all k (closed k (order_in rows.now p) (order_in rows.now p)) ≡ true }
{
    let sizes = by_size(rows, k, p);
    let part = final_part(rows, &sizes, k, p);
    let others = rows::minus(bits::below(k), part);
    !rows::any(rows::after(rows, k, p, others), k)
}

// Thread p's order is irreflexive and transitive.
fn closed_order(rows: &[u64; Case::MOST_THREADS * Case::MOST_EVENTS], k: usize, p: usize) -> bool
    requires k_le_most_events { k ≤ most_events }
    requires p_lt_most_threads { p < most_threads }
    ensures { result ≡ all k (closed k (order_in rows.now p) (order_in rows.now p)) }
{
    linear_order(rows, k, p) || covered_order(rows, k, p)
}

// What was found, and what two rows differ in: nothing, if nothing was found and the two are equal.
fn differing(found: u64, mine: u64, other: u64) -> u64
    ensures { eqb result 0 ≡ (eqb found 0 && eqb mine other) }
{
    found | (mine ^ other)
}

// Whether thread p's rows are the first thread's. All of them are looked at, so that the compiler takes several at once.
fn as_first(rows: &[u64; Case::MOST_THREADS * Case::MOST_EVENTS], k: usize, p: usize) -> bool
    requires k_le_most_events { k ≤ most_events }
    requires p_lt_most_threads { p < most_threads }
    ensures { result ≡ as_first k rows.now p }
{
    let mut found: u64 = 0;
    for a in 0..k {
        found = differing(found, rows::row(rows, p, a), rows::row(rows, 0, a));
    }
    found == 0
}

// Whether every thread's rows are the first thread's.
pub fn alike(rows: &[u64; Case::MOST_THREADS * Case::MOST_EVENTS], n: usize, k: usize) -> bool
    requires n_le_most_threads { n ≤ most_threads }
    requires k_le_most_events { k ≤ most_events }
    ensures { result ≡ alike_in n k rows.now }
{
    (1..n).all(|p| as_first(rows, k, p))
}

// How many threads' orders decide rule 11, from the first thread's on: one where all are alike, else each.
fn deciding(rows: &[u64; Case::MOST_THREADS * Case::MOST_EVENTS], n: usize, k: usize) -> usize
    requires n_le_most_threads { n ≤ most_threads }
    requires k_le_most_events { k ≤ most_events }
    ensures upper_bound { result ≤ n }
    ensures rows_value { may11 result k (order_in rows.now) (order_in rows.now) ≡ may11 n k (order_in rows.now) (order_in rows.now) }
{
    if n > 1 && alike(rows, n, k) { 1 } else { n }
}

// Rule 11 of a case's own orders: the test that judging uses.
pub fn rule11(rows: &[u64; Case::MOST_THREADS * Case::MOST_EVENTS], n: usize, k: usize) -> bool
    requires n_le_most_threads { n ≤ most_threads }
    requires k_le_most_events { k ≤ most_events }
    ensures { result ≡ may11 n k (order_in rows.now) (order_in rows.now) }
{
    (0..deciding(rows, n, k)).all(|p| closed_order(rows, k, p))
}

// What comes after event e in every thread's order. The last thread stands for those that are missing, so that the loop has a fixed
// number of turns and the compiler leaves none of it.
fn joined_row(rows: &[u64; Case::MOST_THREADS * Case::MOST_EVENTS], n: usize, e: usize) -> u64
    requires le_n { 1 ≤ n }
    requires n_le_most_threads { n ≤ most_threads }
    requires e_lt_most_events { e < most_events }
    ensures { Set result (λ g. all n (λ q. order_in rows.now q e g)) }
{
    let mut shared = rows::row(rows, 0, e);
    for q in 1..Case::MOST_THREADS {
        shared = bits::both(shared, rows::row(rows, q.min(n - 1), e));
    }
    shared
}

// By event, what comes after it in every thread's order. The entries from k on are left open: there is no such event.
pub fn joined(
    rows: &[u64; Case::MOST_THREADS * Case::MOST_EVENTS],
    n: usize,
    k: usize,
) -> [u64; Case::MOST_EVENTS]
    requires le_n { 1 ≤ n }
    requires n_le_most_threads { n ≤ most_threads }
    requires k_le_most_events { k ≤ most_events }
    ensures { Sets k result (λ e g. all n (λ q. order_in rows.now q e g)) }
{
    let mut out = [0u64; Case::MOST_EVENTS];
    for e in 0..k {
        out[e] = joined_row(rows, n, e);
    }
    out
}
