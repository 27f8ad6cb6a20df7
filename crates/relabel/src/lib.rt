// A case under a threads' and an addresses' permutation.
#![tactic(auto)]

ghost use Rattle.std.specs.Prelude.{◌≡◌, true, cond, ◌++◌, ◌+◌, ◌*◌, ◌%◌, ◌^◌, ◌≤◌, length, get_or, drop};
ghost use Rattle.finite.specs.Lists.{table};
ghost use Rattle.permutation.specs.Permutation.{image as image_of, inverse as inverse_of};
ghost use Rattle.model.specs.Limits.{most_threads, most_addresses, most_events};
ghost use Rattle.model.specs.Case.{bare as bare_of};
ghost use Rattle.model.specs.Renumber.{renumber, fitting};
ghost use Rattle.case.specs.Held.{case_of, held, pad, rows_of};
ghost use Rattle.case.specs.Stores.{writes_at};
ghost use Rattle.case.specs.Sound.{Sound};
ghost use Rattle.relabel.specs.Orders.{order};

use case::Case;

// The first n of an array's numbers, and zeros.
fn front<const N: usize>(xs: &[u8; N], n: usize) -> [u8; N]
    requires { n ≤ N }
    ensures { result ≡ pad N (table 0 n (λ i. get_or xs.now i 0)) }
{
    let mut out = [0; N];
    out[..n].copy_from_slice(&xs[..n]);
    out
}

// The loops below store by index: what iter_mut under zip has lent is not known to a proof afterwards.

// Copies a thread's rows of k events, from a place on, to the front of out, each without what lies past the last event.
fn copy_rows(rows: &[u64], from: usize, k: usize, out: &mut [u64])
    requires k_in_bounds { from + k ≤ length rows.now }
    requires k_in_bounds_2 { k ≤ length out.old }
    requires k_le_most_events { k ≤ most_events }
    ensures { out.new ≡ table 0 k (λ a. get_or rows.now (from + a) 0 % 2 ^ k) ++ drop k out.old }
{
    let mask = bits::below(k);
    for a in 0..k {
        out[a] = bits::both(rows[from + a], mask);
    }
}

// The initial values, each at its address's new label.
fn initials(r: usize, c: &Case) -> [u32; Case::MOST_ADDRESSES]
    requires { Sound c.now }
    ensures { result ≡ pad most_addresses (table 0 c.now.addresses (λ y. get_or c.now.initial (image_of (inverse_of r) y) 0)) }
{
    let back = permutation::inverse(r);
    let mut out = [0; Case::MOST_ADDRESSES];
    for y in 0..c.addresses {
        out[y] = c.initial[permutation::image(back, y)];
    }
    out
}

// The events' threads by their new labels.
fn threads(q: usize, c: &Case) -> [u8; Case::MOST_EVENTS]
    requires { Sound c.now }
    ensures { result ≡ pad most_events (table 0 c.now.events (λ e. image_of q (get_or c.now.thread e 0))) }
{
    let mut out = [0; Case::MOST_EVENTS];
    for e in 0..c.events {
        out[e] = permutation::image8(q, c.thread[e]);
    }
    out
}

// The new label of the address x of an event of the kind.
fn address(r: usize, kind: u8, x: u8) -> u8
    ensures { result ≡ cond (bare_of kind) 0 (image_of r x) }
{
    if case::bare(kind) {
        0
    } else {
        permutation::image8(r, x)
    }
}

// The events' addresses by their new labels.
fn addresses(r: usize, c: &Case) -> [u8; Case::MOST_EVENTS]
    requires { Sound c.now }
    ensures { result ≡ pad most_events (table 0 c.now.events (λ e. cond (bare_of (get_or c.now.kind e 0)) 0 (image_of r (get_or c.now.address e 0)))) }
{
    let mut out = [0; Case::MOST_EVENTS];
    for e in 0..c.events {
        out[e] = address(r, c.kind[e], c.address[e]);
    }
    out
}

// The value v of an event of the kind.
fn value(kind: u8, v: u32) -> u32
    ensures { result ≡ cond (bare_of kind) 0 v }
{
    if case::bare(kind) { 0 } else { v }
}

// The events' values.
fn values(c: &Case) -> [u32; Case::MOST_EVENTS]
    requires { Sound c.now }
    ensures { result ≡ pad most_events (table 0 c.now.events (λ e. cond (bare_of (get_or c.now.kind e 0)) 0 (get_or c.now.value e 0))) }
{
    let mut out = [0; Case::MOST_EVENTS];
    for e in 0..c.events {
        out[e] = value(c.kind[e], c.value[e]);
    }
    out
}

// The write orders, each at its address's new label.
fn write_orders(r: usize, c: &Case) -> [u8; Case::MOST_ADDRESSES * Case::MOST_EVENTS]
    requires { Sound c.now }
    ensures { result ≡ pad (most_addresses * most_events) (rows_of most_events (table 0 c.now.addresses (λ y. writes_at c.now.kind c.now.address c.now.writes c.now.events (image_of (inverse_of r) y)))) }
{
    let back = permutation::inverse(r);
    let mut out = [0; Case::MOST_ADDRESSES * Case::MOST_EVENTS];
    for y in 0..c.addresses {
        let x = permutation::image(back, y);
        let count = case::count_stores(&c.kind, &c.address, c.events, x);
        let from = x * Case::MOST_EVENTS;
        let to = y * Case::MOST_EVENTS;
        out[to..to + count].copy_from_slice(&c.writes[from..from + count]);
    }
    out
}

// The threads' orders, each at its thread's new label.
fn orders(q: usize, c: &Case) -> [u64; Case::MOST_THREADS * Case::MOST_EVENTS]
    requires { Sound c.now }
    ensures { result ≡ pad (most_threads * most_events) (rows_of most_events (table 0 c.now.threads (λ p. order c.now.events c.now.rows (image_of (inverse_of q) p)))) }
{
    let back = permutation::inverse(q);
    let mut out = [0; Case::MOST_THREADS * Case::MOST_EVENTS];
    for p in 0..c.threads {
        let from = permutation::image(back, p);
        let start = p * Case::MOST_EVENTS;
        let end = start + Case::MOST_EVENTS;
        copy_rows(
            &c.rows,
            from * Case::MOST_EVENTS,
            c.events,
            &mut out[start..end],
        );
    }
    out
}

// The case under the threads' permutation q and the addresses' permutation r.
pub fn relabel(c: Case, q: usize, r: usize) -> Case
    requires sound { Sound c }
    requires c_value { fitting q r (case_of c) ≡ true }
    ensures { result ≡ held (renumber q r (case_of c)) }
{
    let i = case::link_count(c.edition, c.dependencies);
    Case {
        initial: initials(r, &c),
        kind: front(&c.kind, c.events),
        thread: threads(q, &c),
        address: addresses(r, &c),
        value: values(&c),
        dependencies: i,
        class: front(&c.class, i),
        from: front(&c.from, i),
        to: front(&c.to, i),
        writes: write_orders(r, &c),
        rows: orders(q, &c),
        name: front(&c.name, c.namelength),
        ..c
    }
}
