// The events that have been propagated to threads: sets of them out of the threads' lists. An event is named by its entry in a list.
#![tactic(auto)]

ghost use Rattle.std.specs.Prelude.{◌≡◌, ◌<◌, ◌≤◌};
ghost use Rattle.finite.specs.Tests.{all};
ghost use Rattle.model.specs.Limits.{most_threads};
ghost use Rattle.storage_model.specs.Limits.{most_listed};
ghost use Rattle.storage_model.specs.Subsystem.{member, precedes};
ghost use Rattle.rows.specs.Sets.{Set};
ghost use Rattle.storage.specs.Held.{event_of, list_at};
ghost use Rattle.propagated.specs.Lists.{Lists, ListOf, Once, separated_in, latest_in, later_of};

use case::Case;
use storage::Storage;

// All threads' lists: by thread how many events it has, and which.
#[derive(Clone, Copy)]
pub struct ThreadLists<'a> {
    pub listed: &'a [usize; Case::MOST_THREADS],
    pub events: &'a [u8; Case::MOST_THREADS * Storage::MOST_LISTED],
    pub ghost lists: { Lists listed.now events.now },
}

impl<'a> ThreadLists<'a> {
    // Thread t's list.
    fn list(&self, t: usize) -> &'a [u8]
        requires { t < most_threads }
        ensures { ListOf self.now.listed.now self.now.events.now t result.now }
    {
        let start = t * Storage::MOST_LISTED;
        let all = self.events;
        let events = &all[..];
        &events[start..start + self.listed[t]]
    }

    // The events of thread t's list.
    pub fn arrived(&self, t: usize) -> u64
        requires { t < most_threads }
        ensures { Set result (λ e. member (event_of e) (list_at self.now.listed.now self.now.events.now t)) }
    {
        let mut seen: u64 = 0;
        let list = self.list(t);
        for e in list {
            seen = bits::with(seen, usize::from(*e));
        }
        seen
    }

    // The events before x in thread t's list.
    pub fn preceding(&self, t: usize, x: usize) -> u64
        requires { t < most_threads }
        ensures { Set result (λ e. precedes (event_of e) (event_of x) (list_at self.now.listed.now self.now.events.now t)) }
    {
        let mut seen: u64 = 0;
        let mut out: u64 = 0;
        let list = self.list(t);
        for entry in list {
            let e = usize::from(*entry);
            out |= rows::where_so(e == x, seen);
            seen = bits::with(seen, e);
        }
        out
    }

    // The events that a barrier separates from the event x in thread t's list.
    pub fn separated(&self, t: usize, x: usize) -> u64
        requires once { Once (list_at self.now.listed.now self.now.events.now t) }
        requires t_lt_most_threads { t < most_threads }
        ensures { Set result (λ e. separated_in (list_at self.now.listed.now self.now.events.now t) (event_of e) (event_of x)) }
    {
        let mut seen: u64 = 0;
        let mut behind: u64 = 0;
        let mut out: u64 = 0;
        let list = self.list(t);
        for entry in list {
            let e = usize::from(*entry);
            out |= rows::where_so(e == x, behind);
            behind |= rows::where_so(Storage::MOST_WRITES <= e, seen);
            seen = bits::with(seen, e);
        }
        out
    }

    // The value of the most recent write to address a in thread t's list, and v if there is none.
    pub fn latest(
        &self,
        address: &[u8; Storage::MOST_WRITES],
        value: &[u32; Storage::MOST_WRITES],
        t: usize,
        a: u8,
        v: u32,
    ) -> u32
        requires { t < most_threads }
        ensures { result ≡ latest_in address.now value.now a v (list_at self.now.listed.now self.now.events.now t) }
    {
        let mut found = v;
        let list = self.list(t);
        for e in list {
            found = later(address, value, usize::from(*e), a, found);
        }
        found
    }

    // Whether the event x is in thread t's list.
    fn has(&self, x: usize, t: usize) -> bool
        requires t_lt_most_threads { t < most_threads }
        requires x_lt_most_listed { x < most_listed }
        ensures { result ≡ member (event_of x) (list_at self.now.listed.now self.now.events.now t) }
    {
        bits::has(self.arrived(t), x)
    }

    // Whether the event x is in the list of every thread below the count.
    pub fn everywhere(&self, threads: usize, x: usize) -> bool
        requires threads_le_most_threads { threads ≤ most_threads }
        requires x_lt_most_listed { x < most_listed }
        ensures { result ≡ all threads (λ t. member (event_of x) (list_at self.now.listed.now self.now.events.now t)) }
    {
        for t in 0..threads {
            if !self.has(x, t) {
                return false;
            }
        }
        true
    }
}

// What an address holds behind an entry, if it held v before: the value of a write to it.
fn later(
    address: &[u8; Storage::MOST_WRITES],
    value: &[u32; Storage::MOST_WRITES],
    e: usize,
    a: u8,
    v: u32,
) -> u32
    ensures { result ≡ later_of address.now value.now a v (event_of e) }
{
    if e < Storage::MOST_WRITES && address[e] == a {
        value[e]
    } else {
        v
    }
}
