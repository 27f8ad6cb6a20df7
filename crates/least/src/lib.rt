// A case's representative: the renumbering with the least record, found by comparing fields.
#![tactic(auto)]

ghost use Rattle.std.specs.Prelude.{◌≡◌, ℕ, cond, List, [], ◌≤◌, ◌<◌};
ghost use Rattle.std.specs.declared.cmp.Ordering.{Ordering};
ghost use Rattle.number.specs.Number.{encode};
ghost use Rattle.permutation.specs.Permutation.{labels, permutations, fits, image as image_of, inverse as inverse_of};
ghost use Rattle.model.specs.Limits.{most_threads, most_addresses, most_events};
ghost use Rattle.model.specs.Case.{bare as bare_of};
ghost use Rattle.model.specs.Fault.{fault};
ghost use Rattle.case.specs.Held.{case_of, held};
ghost use Rattle.writer.specs.Stages.{run};
ghost use Rattle.classes.specs.Representative.{representative as representative_of};
ghost use Rattle.classes.specs.Search.{BestThreads, BestAddresses};
ghost use Rattle.compare.specs.Decided.{Decided};
ghost use Rattle.least.specs.Chosen.{Chosen};
ghost use Rattle.least.specs.Fields.{FirstDiffers};
ghost use Rattle.least.specs.Parts.{thread_at, order_at, threads_part, initial_at, address_at, addresses_part};

use case::Case;
use std::cmp::Ordering;

// How n fields compare: as the first one that differs.
fn fields<F: Fn(usize) -> Ordering>(n: usize, field: F) -> Ordering
    requires { (i : ℕ) → i < n → F.pre field i }
    ensures { FirstDiffers (F.post field) n result }
{
    for i in 0..n {
        let order = field(i);
        if order.is_ne() {
            return order;
        }
    }
    Ordering::Equal
}

// How the bytes of label x under the permutation q compare with those under p.
fn label(x: u8, q: usize, p: usize) -> Ordering
    ensures { Decided (encode (image_of q x)) (encode (image_of p x)) result }
{
    compare::numbers(
        permutation::image8(q, x) as u32,
        permutation::image8(p, x) as u32,
    )
}

// How the thread fields of k events compare.
fn threads(thread: &[u8; Case::MOST_EVENTS], k: usize, q: usize, p: usize) -> Ordering
    requires { k ≤ most_events }
    ensures { Decided (run (thread_at thread.now q) k) (run (thread_at thread.now p) k) result }
{
    fields(k, |e| label(thread[e], q, p))
}

// The label whose values move to label y under the permutation q.
fn source(q: usize, y: usize) -> usize
    requires { y < labels }
    ensures { (result ≡ image_of (inverse_of q) y) × (result < labels) }
{
    permutation::image(permutation::inverse(q), y)
}

// How the orders that stand at label y compare.
fn order(
    rows: &[u64; Case::MOST_THREADS * Case::MOST_EVENTS],
    k: usize,
    q: usize,
    p: usize,
    y: usize,
) -> Ordering
    requires { (y < most_threads) × (k ≤ most_events) }
    ensures { Decided (order_at rows.now k q y) (order_at rows.now k p y) result }
{
    let a = source(q, y);
    let b = source(p, y);
    compare::orders(rows, k, a, b)
}

// How the orders of n threads compare.
fn orders(
    rows: &[u64; Case::MOST_THREADS * Case::MOST_EVENTS],
    n: usize,
    k: usize,
    q: usize,
    p: usize,
) -> Ordering
    requires { (n ≤ most_threads) × (k ≤ most_events) }
    ensures { Decided (run (order_at rows.now k q) n) (run (order_at rows.now k p) n) result }
{
    fields(n, |y| order(rows, k, q, p, y))
}

// How the fields that decide between the permutations q and p of threads compare.
fn by_threads<'a>(
    thread: &'a [u8; Case::MOST_EVENTS],
    rows: &'a [u64; Case::MOST_THREADS * Case::MOST_EVENTS],
    n: usize,
    k: usize,
    q: usize,
    p: usize,
) -> Ordering
    requires { (n ≤ most_threads) × (k ≤ most_events) }
    ensures { Decided (threads_part thread.now rows.now n k q) (threads_part thread.now rows.now n k p) result }
{
    threads(thread, k, q, p).then_with(|| orders(rows, n, k, q, p))
}

// Of all permutations of n labels the best by how what they give compares, the first of those that give the same.
fn best<F: Fn(usize, usize) -> Ordering>(n: usize, by: F) -> usize
    requires { F.IsAlwaysCallable by }
    ensures { (part : ℕ → List ℕ) → ((q p : ℕ) (r : Ordering) → F.post by q p r → Decided (part q) (part p) r) → Chosen part n permutations result }
{
    let mut best = 0;
    for q in 1..permutation::PERMUTATIONS {
        if permutation::fits(q, n) && by(best, q).is_gt() {
            best = q;
        }
    }
    best
}

// The permutation of threads that gives the least record.
fn best_threads(c: Case) -> usize
    requires { fault (case_of c) ≡ 0 }
    ensures { BestThreads (case_of c) result }
{
    best(c.threads, |q, p| {
        by_threads(&c.thread, &c.rows, c.threads, c.events, q, p)
    })
}

// How the initial values that stand at label y compare.
fn initial(initials: &[u32; Case::MOST_ADDRESSES], r: usize, s: usize, y: usize) -> Ordering
    requires { y < most_addresses }
    ensures { Decided (initial_at initials.now r y) (initial_at initials.now s y) result }
{
    let a = source(r, y);
    let b = source(s, y);
    compare::numbers(initials[a], initials[b])
}

// How the initial values of m addresses compare.
fn initials(initials: &[u32; Case::MOST_ADDRESSES], m: usize, r: usize, s: usize) -> Ordering
    requires { m ≤ most_addresses }
    ensures { Decided (run (initial_at initials.now r) m) (run (initial_at initials.now s) m) result }
{
    fields(m, |y| initial(initials, r, s, y))
}

// How the address fields of an event of the kind compare, if it has one.
fn address(kind: u8, x: u8, r: usize, s: usize) -> Ordering
    ensures { Decided (cond (bare_of kind) [] (encode (image_of r x))) (cond (bare_of kind) [] (encode (image_of s x))) result }
{
    if case::bare(kind) {
        Ordering::Equal
    } else {
        label(x, r, s)
    }
}

// How the address fields of k events compare.
fn addresses<'a>(
    kinds: &'a [u8; Case::MOST_EVENTS],
    xs: &'a [u8; Case::MOST_EVENTS],
    k: usize,
    r: usize,
    s: usize,
) -> Ordering
    requires { k ≤ most_events }
    ensures { Decided (run (address_at kinds.now xs.now r) k) (run (address_at kinds.now xs.now s) k) result }
{
    fields(k, |e| address(kinds[e], xs[e], r, s))
}

// How the fields that decide between the permutations r and s of addresses compare.
fn by_addresses<'a>(
    values: &'a [u32; Case::MOST_ADDRESSES],
    kinds: &'a [u8; Case::MOST_EVENTS],
    xs: &'a [u8; Case::MOST_EVENTS],
    m: usize,
    k: usize,
    r: usize,
    s: usize,
) -> Ordering
    requires { (m ≤ most_addresses) × (k ≤ most_events) }
    ensures { Decided (addresses_part values.now kinds.now xs.now m k r) (addresses_part values.now kinds.now xs.now m k s) result }
{
    initials(values, m, r, s).then_with(|| addresses(kinds, xs, k, r, s))
}

// The permutation of addresses that gives the least record.
fn best_addresses(c: Case) -> usize
    requires { fault (case_of c) ≡ 0 }
    ensures { BestAddresses (case_of c) result }
{
    best(c.addresses, |r, s| {
        by_addresses(&c.initial, &c.kind, &c.address, c.addresses, c.events, r, s)
    })
}

// The renumbering of a case whose record is the least.
pub fn representative(c: Case) -> Case
    requires { fault (case_of c) ≡ 0 }
    ensures { result ≡ held (representative_of (case_of c)) }
{
    let q = best_threads(c);
    let r = best_addresses(c);
    relabel::relabel(c, q, r)
}
