// Orders as rows of sets: row a of thread p holds the events that come after a in p's order.
#![tactic(auto)]

ghost use Rattle.std.specs.Prelude.{◌≡◌, true, not, ◌&&◌, ◌||◌, ℕ, ◌+◌, ◌-◌, ◌*◌, ◌<◌, ◌≤◌, eqb, ltb, get_or};
ghost use Rattle.finite.specs.Tests.{some};
ghost use Rattle.bits.specs.Bit.{bit};
ghost use Rattle.model.specs.Limits.{most_threads, most_addresses, most_events, most_dependencies};
ghost use Rattle.rows.specs.Sets.{Set, Sets, row_in, order_in, set_in, light_in, depends_in};
ghost use Rattle.rows.specs.May.{pairs};

use case::Case;

// The row of event a in thread p's order.
pub fn row(rows: &[u64; Case::MOST_THREADS * Case::MOST_EVENTS], p: usize, a: usize) -> u64
    requires p_lt_most_threads { p < most_threads }
    requires a_lt_most_events { a < most_events }
    ensures { result ≡ row_in rows.now p a }
{
    rows[p * Case::MOST_EVENTS + a]
}

// Whether event a comes before b in thread p's order.
pub fn precedes(
    rows: &[u64; Case::MOST_THREADS * Case::MOST_EVENTS],
    p: usize,
    a: usize,
    b: usize,
) -> bool
    requires p_lt_most_threads { p < most_threads }
    requires a_lt_most_events { a < most_events }
    requires b_lt_most_events { b < most_events }
    ensures { result ≡ order_in rows.now p a b }
{
    bits::has(row(rows, p, a), b)
}

// The set where the test passes, else none.
pub fn where_so(test: bool, set: u64) -> u64
    ensures { Set result (λ e. test && bit set e) }
{
    if test { set } else { 0 }
}

// The set of one event.
pub fn alone(i: usize) -> u64
    requires { i < most_events }
    ensures { Set result (λ e. eqb e i) }
{
    bits::with(0, i)
}

// The set without event i.
pub fn without(set: u64, i: usize) -> u64
    requires { i < most_events }
    ensures { Set result (λ e. bit set e && not (eqb e i)) }
{
    bits::with(set, i) ^ bits::with(0, i)
}

// The set without the events of the other.
pub fn minus(set: u64, other: u64) -> u64
    ensures { Set result (λ e. bit set e && not (bit other e)) }
{
    set ^ (set & other)
}

// What comes after some event of the set, in p's order.
pub fn after(
    rows: &[u64; Case::MOST_THREADS * Case::MOST_EVENTS],
    k: usize,
    p: usize,
    set: u64,
) -> u64
    requires k_le_most_events { k ≤ most_events }
    requires p_lt_most_threads { p < most_threads }
    ensures { Set result (λ e. some k (λ b. bit set b && order_in rows.now p b e)) }
{
    let mut found: u64 = 0;
    for b in bits::members_below(set, k) {
        found |= row(rows, p, b);
    }
    found
}

// Event a, if it comes before b.
fn before_one(
    rows: &[u64; Case::MOST_THREADS * Case::MOST_EVENTS],
    p: usize,
    b: usize,
    a: usize,
) -> u64
    requires p_lt_most_threads { p < most_threads }
    requires b_lt_most_events { b < most_events }
    requires a_lt_most_events { a < most_events }
    ensures { Set result (λ e. order_in rows.now p a b && eqb e a) }
{
    where_so(precedes(rows, p, a, b), alone(a))
}

// What comes before event b, in p's order.
pub fn before(
    rows: &[u64; Case::MOST_THREADS * Case::MOST_EVENTS],
    k: usize,
    p: usize,
    b: usize,
) -> u64
    requires k_le_most_events { k ≤ most_events }
    requires p_lt_most_threads { p < most_threads }
    requires b_lt_most_events { b < most_events }
    ensures { Set result (λ e. ltb e k && order_in rows.now p e b) }
{
    let mut found: u64 = 0;
    for a in 0..k {
        found |= before_one(rows, p, b, a);
    }
    found
}

// Event a of the set, if it comes before b.
fn before_one_of(
    rows: &[u64; Case::MOST_THREADS * Case::MOST_EVENTS],
    p: usize,
    set: u64,
    b: usize,
    a: usize,
) -> u64
    requires p_lt_most_threads { p < most_threads }
    requires b_lt_most_events { b < most_events }
    requires a_lt_most_events { a < most_events }
    requires a_value { bit set a ≡ true }
    ensures { Set result (λ e. (bit set a && order_in rows.now p a b) && eqb e a) }
{
    where_so(precedes(rows, p, a, b), alone(a))
}

// The events of the set that come before event b, in p's order.
pub fn before_of(
    rows: &[u64; Case::MOST_THREADS * Case::MOST_EVENTS],
    k: usize,
    p: usize,
    set: u64,
    b: usize,
) -> u64
    requires k_le_most_events { k ≤ most_events }
    requires p_lt_most_threads { p < most_threads }
    requires b_lt_most_events { b < most_events }
    ensures { Set result (λ e. ltb e k && (bit set e && order_in rows.now p e b)) }
{
    let mut found: u64 = 0;
    for a in bits::members_below(set, k) {
        found |= before_one_of(rows, p, set, b, a);
    }
    found
}

// What comes after event a in some thread's order.
pub fn after_anywhere(
    rows: &[u64; Case::MOST_THREADS * Case::MOST_EVENTS],
    n: usize,
    a: usize,
) -> u64
    requires n_le_most_threads { n ≤ most_threads }
    requires a_lt_most_events { a < most_events }
    ensures { Set result (λ e. some n (λ p. order_in rows.now p a e)) }
{
    let mut found: u64 = 0;
    for p in 0..n {
        found |= row(rows, p, a);
    }
    found
}

// Whether some event below k is in the set.
pub fn any(set: u64, k: usize) -> bool
    requires { k ≤ most_events }
    ensures { result ≡ some k (bit set) }
{
    bits::both(set, bits::below(k)) != 0
}

// The events of a's row and, if there are any, a.
fn paired_one(mine: u64, k: usize, a: usize) -> u64
    requires k_le_most_events { k ≤ most_events }
    requires a_lt_k { a < k }
    ensures { Set result (λ e. ltb e k && (bit mine e || (eqb e a && some k (bit mine)))) }
{
    if any(mine, k) {
        bits::with(bits::both(mine, bits::below(k)), a)
    } else {
        0
    }
}

// The events that stand in some pair of p's order.
pub fn paired(rows: &[u64; Case::MOST_THREADS * Case::MOST_EVENTS], k: usize, p: usize) -> u64
    requires k_le_most_events { k ≤ most_events }
    requires p_lt_most_threads { p < most_threads }
    ensures { Set result (λ e. ltb e k && pairs k (order_in rows.now) p e) }
{
    let mut found: u64 = 0;
    for a in 0..k {
        found |= paired_one(row(rows, p, a), k, a);
    }
    found
}

// Event e, if the byte x stands there.
fn labelled_one(bytes: &[u8; Case::MOST_EVENTS], x: u8, e: usize) -> u64
    requires { e < most_events }
    ensures { Set result (λ i. eqb (get_or bytes.now e 0) x && eqb i e) }
{
    where_so(bytes[e] == x, alone(e))
}

// The events at which the byte x stands.
pub fn labelled(bytes: &[u8; Case::MOST_EVENTS], k: usize, x: u8) -> u64
    requires { k ≤ most_events }
    ensures { Set result (λ e. ltb e k && eqb (get_or bytes.now e 0) x) }
{
    let mut found: u64 = 0;
    for e in 0..k {
        found |= labelled_one(bytes, x, e);
    }
    found
}

// By label, the events of the set at which it stands.
pub fn by_label(bytes: &[u8; Case::MOST_EVENTS], k: usize, set: u64) -> [u64; Case::MOST_THREADS]
    requires { k ≤ most_events }
    ensures { Sets most_threads result (λ x e. bit set e && (ltb e k && eqb (get_or bytes.now e 0) x)) }
{
    let mut out = [0u64; Case::MOST_THREADS];
    for x in 0..Case::MOST_THREADS {
        out[x] = bits::both(set, labelled(bytes, k, x as u8));
    }
    out
}

// What stands at event e's label, if e is in the set.
fn at_label(
    sets: &[u64; Case::MOST_ADDRESSES],
    bytes: &[u8; Case::MOST_EVENTS],
    set: u64,
    e: usize,
) -> u64
    requires e_lt_most_events { e < most_events }
    requires e_bound { bit set e ≡ true → get_or bytes.now e 0 < most_addresses }
    ensures { Set result (λ i. bit set e && set_in sets.now (get_or bytes.now e 0) i) }
{
    if bits::has(set, e) {
        sets[usize::from(bytes[e])]
    } else {
        0
    }
}

// By event of the set, what stands at its label. The entries from k on are left open: there is no such event.
pub fn by_event(
    sets: &[u64; Case::MOST_ADDRESSES],
    bytes: &[u8; Case::MOST_EVENTS],
    k: usize,
    set: u64,
) -> [u64; Case::MOST_EVENTS]
    requires k_le_most_events { k ≤ most_events }
    requires by_index { (e : ℕ) → e < k → bit set e ≡ true → get_or bytes.now e 0 < most_addresses }
    ensures { Sets k result (λ e i. bit set e && set_in sets.now (get_or bytes.now e 0) i) }
{
    let mut out = [0u64; Case::MOST_EVENTS];
    for e in 0..k {
        out[e] = at_label(sets, bytes, set, e);
    }
    out
}

// The events that a light barrier orders after event e.
fn light_row(barriers: u64, stores: u64, loads: u64, k: usize, e: usize) -> u64
    requires k_le_most_events { k ≤ most_events }
    requires e_lt_most_events { e < most_events }
    ensures { Set result (λ g. ltb g k && light_in barriers stores loads e g) }
{
    let accesses = minus(bits::below(k), barriers);
    let later = minus(accesses, where_so(bits::has(stores, e), loads));
    where_so(!bits::has(barriers, e), later)
}

// By event, the events that a light barrier orders after it. The entries from k on are left open: there is no such event.
pub fn light(barriers: u64, stores: u64, loads: u64, k: usize) -> [u64; Case::MOST_EVENTS]
    requires { k ≤ most_events }
    ensures { Sets k result (λ e g. ltb g k && light_in barriers stores loads e g) }
{
    let mut out = [0u64; Case::MOST_EVENTS];
    for e in 0..k {
        out[e] = light_row(barriers, stores, loads, k, e);
    }
    out
}

// By event, the events that depend on it, of so many dependencies.
pub fn dependents(
    froms: &[u8; Case::MOST_DEPENDENCIES],
    tos: &[u8; Case::MOST_DEPENDENCIES],
    count: usize,
) -> [u64; Case::MOST_EVENTS]
    requires count_le_most_dependencies { count ≤ most_dependencies }
    requires by_index { (i : ℕ) → i < count → get_or froms.now i 0 < most_events }
    requires by_index_2 { (i : ℕ) → i < count → get_or tos.now i 0 < most_events }
    ensures { Sets most_events result (depends_in froms.now tos.now count) }
{
    let mut out = [0u64; Case::MOST_EVENTS];
    // Two lists and not a list of pairs: so C's struct holds them.
    for i in 0..count {
        let from = usize::from(froms[i]);
        out[from] = bits::with(out[from], usize::from(tos[i]));
    }
    out
}
