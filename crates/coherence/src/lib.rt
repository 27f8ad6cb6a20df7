// The coherence order of writes, held as the set of the writes before each.
// The rows and how many of them count are two parameters and not a struct: such a struct would borrow the rows here, change them there, and own a copy elsewhere.
#![tactic(auto)]

ghost use Rattle.std.specs.Prelude.{◌≡◌, not, ◌&&◌, ◌||◌, ◌<◌, ◌≤◌, eqb, ltb, get_or, length};
ghost use Rattle.finite.specs.Tests.{all, some};
ghost use Rattle.bits.specs.Bit.{bit};
ghost use Rattle.storage_model.specs.Limits.{most_writes};
ghost use Rattle.storage_model.specs.Relation.{closure, acyclic as acyclic_in};
ghost use Rattle.rows.specs.Sets.{Set};
ghost use Rattle.storage.specs.Held.{edge_in, relation_in};
ghost use Rattle.coherence.specs.Rows.{Committed, ByWayOf};

use storage::Storage;

// Write w, if it is to address a.
fn to_one(address: &[u8; Storage::MOST_WRITES], a: u8, w: usize) -> u64
    requires { w < most_writes }
    ensures { Set result (λ e. eqb e w && eqb (get_or address.now w 0) a) }
{
    rows::where_so(address[w] == a, rows::alone(w))
}

// The writes to address a, of k.
pub fn to_address(address: &[u8; Storage::MOST_WRITES], k: usize, a: u8) -> u64
    requires { k ≤ most_writes }
    ensures { Set result (λ w. ltb w k && eqb (get_or address.now w 0) a) }
{
    let mut set: u64 = 0;
    for w in 0..k {
        set |= to_one(address, a, w);
    }
    set
}

// Write w and those before it, if w is in the set.
fn up_to_one(before: &[u64; Storage::MOST_WRITES], set: u64, w: usize) -> u64
    requires { w < most_writes }
    ensures { Set result (λ v. bit set w && (eqb v w || edge_in before.now v w)) }
{
    rows::where_so(bits::has(set, w), bits::with(before[w], w))
}

// The writes of the set, of k, and all that are before one of them.
pub fn up_to(before: &[u64; Storage::MOST_WRITES], set: u64, k: usize) -> u64
    requires { k ≤ most_writes }
    ensures { Set result (λ v. some k (λ w. bit set w && (eqb v w || edge_in before.now v w))) }
{
    let mut out: u64 = 0;
    for w in 0..k {
        out |= up_to_one(before, set, w);
    }
    out
}

// The writes before b, where those that are added come before y and so before all behind it.
fn committed_row(row: u64, added: u64, y: usize, b: usize) -> u64
    requires y_lt_most_writes { y < most_writes }
    requires b_lt_most_writes { b < most_writes }
    ensures { Set result (λ a. bit row a || (bit added a && (eqb b y || bit row y))) }
{
    row | rows::where_so(bits::has(bits::with(row, b), y), added)
}

// Commits write x to be before write y, of k, with the edges implied by transitivity: the order must be transitive.
pub fn commit(before: &mut [u64; Storage::MOST_WRITES], k: usize, x: usize, y: usize)
    requires k_le_most_writes { k ≤ most_writes }
    requires x_lt_most_writes { x < most_writes }
    requires y_lt_most_writes { y < most_writes }
    ensures { Committed x y before.old before.new k }
{
    let added = bits::with(before[x], x);
    for b in 0..k {
        before[b] = committed_row(before[b], added, y, b);
    }
}

// The row, and the pivot's where j is in it.
fn joined(row: u64, pivot: u64, j: usize) -> u64
    requires { j < most_writes }
    ensures { Set result (λ a. bit row a || (bit pivot a && bit row j)) }
{
    row | rows::where_so(bits::has(row, j), pivot)
}

// Adds to the rows of k writes all that leads there by way of j.
fn by_way_of(before: &mut [u64; Storage::MOST_WRITES], k: usize, j: usize)
    requires k_le_most_writes { k ≤ most_writes }
    requires j_lt_k { j < k }
    ensures { ByWayOf j before.old before.new k }
{
    let pivot = before[j];
    for b in 0..k {
        before[b] = joined(before[b], pivot, j);
    }
}

// Adds to the rows of k writes the edges implied by transitivity.
fn close(before: &mut [u64; Storage::MOST_WRITES], k: usize)
    requires k_le_most_writes { k ≤ most_writes }
    ensures same { relation_in k before.new ≡ closure k (edge_in before.old) }
    ensures size { length before.new ≡ most_writes }
{
    for j in 0..k {
        by_way_of(before, k, j);
    }
}

// Whether no write of k is before itself.
fn irreflexive(before: &[u64; Storage::MOST_WRITES], k: usize) -> bool
    requires { k ≤ most_writes }
    ensures { result ≡ all k (λ a. not (edge_in before.now a a)) }
{
    for a in 0..k {
        if bits::has(before[a], a) {
            return false;
        }
    }
    true
}

// Whether the rows of k writes have no cycle.
pub fn acyclic(before: [u64; Storage::MOST_WRITES], k: usize) -> bool
    requires { k ≤ most_writes }
    ensures { result ≡ acyclic_in k (edge_in before) }
{
    let mut reached = before;
    close(&mut reached, k);
    irreflexive(&reached, k)
}
