// The columns of orders that are held as rows: column b of thread p holds the events that come before b in p's order.
#![tactic(auto)]

ghost use Rattle.std.specs.Prelude.{◌≡◌, false, ◌+◌, ◌-◌, ◌*◌, ◌/◌, ◌^◌, ◌<◌, ◌≤◌, length};
ghost use Rattle.model.specs.Limits.{most_threads, most_events};
ghost use Rattle.columns.specs.Columns.{Columns};
ghost use Rattle.columns.specs.Swaps.{digits, insert, Mask, Swapped, Stepped, Turned};

use case::Case;

// The binary digits of an event's number.
const DIGITS: usize = 6;

// By digit, the events in whose numbers it is 0.
const MASKS: [u64; DIGITS] = [
    0x5555_5555_5555_5555,
    0x3333_3333_3333_3333,
    0x0f0f_0f0f_0f0f_0f0f,
    0x00ff_00ff_00ff_00ff,
    0x0000_ffff_0000_ffff,
    0x0000_0000_ffff_ffff,
];

// The events in whose numbers digit s is 0.
fn mask(s: usize) -> u64
    requires { s < digits }
    ensures { Mask s result }
{
    MASKS[s]
}

// What a 1 as digit s stands for.
fn place(s: usize) -> usize
    requires { s ≤ digits }
    ensures { result ≡ 2 ^ s }
{
    1usize << s
}

// How many digits the numbers below k have.
fn digits_below(k: usize) -> usize
    requires { k ≤ most_events }
    ensures { (result ≤ digits) × (k ≤ 2 ^ result) }
{
    for count in 0..DIGITS {
        if k <= place(count) {
            return count;
        }
    }
    DIGITS
}

// The number t with 0 put in as digit s, where the digits of t from s on stand for `first`.
fn spread(s: usize, first: usize, t: usize) -> usize
    requires s_lt_digits { s < digits }
    requires s_value { t / 2 ^ s * 2 ^ s ≡ first }
    requires t_bound { t < most_events / 2 }
    ensures { (result ≡ insert s false t) × (result + 2 ^ s < most_events) }
{
    first + t
}

// Exchanges the bits of the two rows whose numbers are t but for digit s, where the digits of t from s on stand for `first`.
fn swap(part: &mut [u64], s: usize, clear: u64, first: usize, t: usize)
    requires s_lt_digits { s < digits }
    requires mask { Mask s clear }
    requires s_value { t / 2 ^ s * 2 ^ s ≡ first }
    requires t_bound { t < most_events / 2 }
    requires part_len { length part.old ≡ most_events }
    ensures { Swapped s t (t + 1) part.old part.new }
{
    let j = place(s);
    let i = spread(s, first, t);
    let low = part[i];
    let high = part[i + j];
    let moved = ((low >> j) ^ high) & clear;
    part[i] = low ^ (moved << j);
    part[i + j] = high ^ moved;
}

// The same for each t whose digits from s on stand for `first`.
fn swap_block(part: &mut [u64], s: usize, clear: u64, first: usize)
    requires s_lt_digits { s < digits }
    requires mask { Mask s clear }
    requires s_value { first / 2 ^ s * 2 ^ s ≡ first }
    requires s_bound { first + 2 ^ s ≤ most_events / 2 }
    requires part_len { length part.old ≡ most_events }
    ensures { Swapped s first (first + 2 ^ s) part.old part.new }
{
    let end = first + place(s);
    for t in first..end {
        swap(part, s, clear, first, t);
    }
}

// The same for all rows whose numbers have no digit above last.
fn swap_rows(part: &mut [u64], s: usize, last: usize)
    requires s_le_last { s ≤ last }
    requires last_lt_digits { last < digits }
    requires part_len { length part.old ≡ most_events }
    ensures { Swapped s 0 (2 ^ last) part.old part.new }
{
    let clear = mask(s);
    for block in 0..place(last - s) {
        let first = block * place(s);
        swap_block(part, s, clear, first);
    }
}

// The same for all rows whose numbers have so many digits, if digit s is one of these.
fn swap_digit(part: &mut [u64], s: usize, count: usize)
    requires s_lt_digits { s < digits }
    requires count_le_digits { count ≤ digits }
    requires part_len { length part.old ≡ most_events }
    ensures { Stepped s count part.old part.new }
{
    if s < count {
        swap_rows(part, s, count - 1);
    }
}

// Turns the rows of one order into its columns, where the events' numbers have so many digits.
fn turn(part: &mut [u64], count: usize)
    requires count_le_digits { count ≤ digits }
    requires part_len { length part.old ≡ most_events }
    ensures { Turned (2 ^ count) part.old part.new }
{
    // all digits, so that the number of turns is fixed: the compiler then knows each shift
    for s in 0..DIGITS {
        swap_digit(part, s, count);
    }
}

// Turns the rows of n threads' orders into their columns, where the events' numbers have so many digits.
fn turn_each(out: &mut [u64], n: usize, count: usize)
    requires n_le_most_threads { n ≤ most_threads }
    requires count_le_digits { count ≤ digits }
    requires out_len { length out.old ≡ most_threads * most_events }
    ensures { Columns n (2 ^ count) out.old out.new }
{
    // By range: of a slice nothing is known after a loop over its mutable chunks.
    for p in 0..n {
        let start = p * Case::MOST_EVENTS;
        let end = start + Case::MOST_EVENTS;
        turn(&mut out[start..end], count);
    }
}

// Turns the rows of n threads' orders of k events into their columns.
pub fn to_columns(out: &mut [u64], n: usize, k: usize)
    requires n_le_most_threads { n ≤ most_threads }
    requires k_le_most_events { k ≤ most_events }
    requires out_len { length out.old ≡ most_threads * most_events }
    ensures { Columns n k out.old out.new }
{
    turn_each(out, n, digits_below(k));
}
