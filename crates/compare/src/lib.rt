// Bytes, and the fields of two records, compared byte by byte.
#![tactic(auto)]

ghost use Rattle.std.specs.Prelude.{◌≡◌, not, ◌&&◌, ◌+◌, ◌*◌, ◌%◌, ◌^◌, ◌≤◌, ◌<◌, get_or};
ghost use Rattle.finite.specs.Lists.{each};
ghost use Rattle.number.specs.Number.{encode};
ghost use Rattle.bits.specs.Bit.{bit, width};
ghost use Rattle.model.specs.Limits.{most_threads, most_events};
ghost use Rattle.model.specs.Written.{pair_bytes, rows_pairs, order_bytes};
ghost use Rattle.classes.specs.Order.{at_most};
ghost use Rattle.writer.specs.Stages.{pairs as count_of};
ghost use Rattle.relabel.specs.Orders.{order};
ghost use Rattle.compare.specs.Decided.{Decided};
ghost use Rattle.compare.specs.Alone.{Alone};

use case::Case;
use std::cmp::Ordering;

// Whether a is less than b, or equal to it.
pub fn at_most(a: &[u8], b: &[u8]) -> bool
    ensures { result ≡ at_most a.now b.now }
{
    a <= b
}

// The first byte of v.
fn first(v: u32) -> u32
    ensures { result ≡ get_or (encode v) 0 0 }
{
    if v < 128 { v } else { 128 + v % 128 }
}

// How the bytes of v compare with those of w.
pub fn numbers(v: u32, w: u32) -> Ordering
    ensures { Decided (encode v) (encode w) result }
{
    let mut a = v;
    let mut b = w;
    loop {
        let order = first(a).cmp(&first(b));
        if order.is_ne() || a < 128 {
            return order;
        }
        a /= 128;
        b /= 128;
    }
}

// Whether event b is in row s and not in row t.
fn only(s: u64, t: u64, b: usize) -> bool
    requires { b < width }
    ensures { result ≡ (bit s b && not (bit t b)) }
{
    bits::has(s, b) && !bits::has(t, b)
}

// Which row has the first event below k that is in one of the two alone: `Less` row s, `Greater` row t, `Equal` neither.
fn first_alone(s: u64, t: u64, k: usize) -> Ordering
    requires { k ≤ width }
    ensures { Alone k s t result }
{
    for b in 0..k {
        if only(s, t, b) {
            return Ordering::Less;
        }
        if only(t, s, b) {
            return Ordering::Greater;
        }
    }
    Ordering::Equal
}

// The row of event a in p's order, without what lies past the last event.
fn row(rows: &[u64; Case::MOST_THREADS * Case::MOST_EVENTS], k: usize, p: usize, a: usize) -> u64
    requires { (p < most_threads) × ((a < most_events) × (k ≤ most_events)) }
    ensures { result ≡ get_or rows.now (p * most_events + a) 0 % 2 ^ k }
{
    let row = writer::row(rows, p, a);
    bits::both(row, bits::below(k))
}

// How the bytes of p's pairs compare with those of q's, which are as many: in the first row that differs, the order with the first
// pair that the other lacks is the lesser, since a later pair stands in its place there.
fn pairs(
    rows: &[u64; Case::MOST_THREADS * Case::MOST_EVENTS],
    k: usize,
    p: usize,
    q: usize,
) -> Ordering
    requires p_lt_most_threads { (p < most_threads) × ((q < most_threads) × (k ≤ most_events)) }
    requires k_value { count_of rows.now p k ≡ count_of rows.now q k }
    ensures { Decided (each pair_bytes (rows_pairs k 0 (order k rows.now p))) (each pair_bytes (rows_pairs k 0 (order k rows.now q))) result }
{
    for a in 0..k {
        let s = row(rows, k, p, a);
        let t = row(rows, k, q, a);
        if s != t {
            return first_alone(s, t, k);
        }
    }
    Ordering::Equal
}

// How the bytes of p's order compare with those of q's.
pub fn orders(
    rows: &[u64; Case::MOST_THREADS * Case::MOST_EVENTS],
    k: usize,
    p: usize,
    q: usize,
) -> Ordering
    requires { (p < most_threads) × ((q < most_threads) × (k ≤ most_events)) }
    ensures { Decided (order_bytes k (order k rows.now p)) (order_bytes k (order k rows.now q)) result }
{
    let n = writer::count_pairs(rows, p, k);
    let m = writer::count_pairs(rows, q, k);
    if n == m {
        pairs(rows, k, p, q)
    } else {
        numbers(n as u32, m as u32)
    }
}
