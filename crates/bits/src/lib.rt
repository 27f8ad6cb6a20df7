// A set of events as a number of 64 bits: event i is in the set where bit i is set.
#![tactic(auto)]

ghost use Rattle.std.specs.Prelude.{◌≡◌, ◌&&◌, ℕ, ◌-◌, ◌^◌, ◌<◌, ◌≤◌, ltb};
ghost use Rattle.std.specs.Int.Bits.{bit_and, bit_or};
ghost use Rattle.std.specs.Iterator.{at_most};
ghost use Rattle.bits.specs.Bit.{bit, width};
ghost use Rattle.bits.specs.Members.{Takes};
ghost use Rattle.finite.specs.Tests.{all, ◌⇒◌, count};

use std::marker::Model;

// The events that a set can hold are those below this.
const WIDTH: usize = 64;

// Whether i is in the set.
pub fn has(row: u64, i: usize) -> bool
    requires { i < width }
    ensures { result ≡ bit row i }
{
    (row >> i) & 1 == 1
}

// The set with i in it.
pub fn with(row: u64, i: usize) -> u64
    requires { i < width }
    ensures { result ≡ bit_or row (2 ^ i) }
{
    row | (1u64 << i)
}

// What two sets share.
pub fn both(a: u64, b: u64) -> u64
    ensures { result ≡ bit_and a b }
{
    a & b
}

// The set of the events below k.
pub fn below(k: usize) -> u64
    requires { k ≤ width }
    ensures { result ≡ 2 ^ k - 1 }
{
    if k < WIDTH {
        (1u64 << k) - 1
    } else {
        0xffff_ffff_ffff_ffff
    }
}

// Whether every event of set a is in set b.
pub fn inside(a: u64, b: u64) -> bool
    ensures { result ≡ all width (λ j. bit a j ⇒ bit b j) }
{
    a & b == a
}

// Whether every event of set a that is below k is in set b.
pub fn inside_below(a: u64, b: u64, k: usize) -> bool
    requires { k ≤ width }
    ensures { result ≡ all k (λ j. bit a j ⇒ bit b j) }
{
    inside(both(a, below(k)), b)
}

// How many events below k are in the set.
pub fn size_below(row: u64, k: usize) -> usize
    requires { k ≤ width }
    ensures { result ≡ count k (bit row) }
{
    u64::count_ones(both(row, below(k))) as usize
}

// What is left of a set, whose events are taken out of it one by one.
#[derive(Clone, Debug, Drop)]
pub struct MembersLeft {
    rest: u64,
}

impl Model for MembersLeft {
    ghost Value = { ℕ };

    ghost view = { λ m. m.rest };

    ghost invariant = { λ m. m.rest < 2 ^ width };
}

impl Iterator for MembersLeft {
    type Item = usize;

    ghost next_gives = { Takes };

    ghost remaining = { λ set. at_most set };

    fn next(&mut self) -> Option<usize> {
        if self.rest == 0 {
            return None;
        }
        let first = u64::trailing_zeros(self.rest) as usize;
        self.rest = self.rest & (self.rest - 1);
        Some(first)
    }
}

impl MembersLeft {
    // The events that are left, as a set.
    pub fn set(&self) -> u64
        ensures { result ≡ self.now }
    {
        self.rest
    }
}

// The events of the set, the least first.
pub fn members(set: u64) -> MembersLeft
    ensures { result ≡ set }
{
    MembersLeft { rest: set }
}

// The events of the set that are below k, the least first.
pub fn members_below(set: u64, k: usize) -> MembersLeft
    requires { k ≤ width }
    ensures { (e : ℕ) → bit result e ≡ (bit set e && ltb e k) }
{
    members(both(set, below(k)))
}
