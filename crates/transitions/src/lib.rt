// The transitions of the storage subsystem: for each kind of step, which of its conditions fails, or the state behind it.
#![tactic(auto)]

ghost use Rattle.std.specs.Prelude.{◌≡◌, Bool, true, false, not, ◌&&◌, ◌||◌, ℕ, ◌+◌, ◌<◌, ◌≤◌, eqb, get_or, length};
ghost use Rattle.finite.specs.Tests.{tick};
ghost use Rattle.model.specs.Limits.{most_threads};
ghost use Rattle.storage_model.specs.Limits.{most_writes, most_barriers, most_listed};
ghost use Rattle.storage_model.specs.Trace.{sync, accept_write, accept_barrier, propagate_write, propagate_barrier, commit as commit_step, respond as respond_step, acknowledge as acknowledge_step};
ghost use Rattle.storage_model.specs.Subsystem.{write_is_after, barriers_went_before, group_a_went_before, to_one_address, unrelated as unrelated_in, acyclic_with, committed as committed_in, responds_latest, everywhere as everywhere_in, followed, failing, with_event, effect};
ghost use Rattle.storage_model.specs.Fits.{StepFits};
ghost use Rattle.rows.specs.Sets.{Set};
ghost use Rattle.storage.specs.Held.{Good, state_of, held, event_of, edge_in, rows_held};
ghost use Rattle.transitions.specs.Props.{props};
ghost use Rattle.transitions.specs.Steps.{number_of, failed, Here, Took, NewRow, Separated};

use case::Case;
use propagated::ThreadLists;
use storage::Storage;

// Why a step is not enabled: the first of its conditions that fails, in the order of include/litmus.h.
#[derive(Clone, Copy, PartialEq, Eq, Debug)]
pub enum Condition {
    First = 1,
    Second = 2,
    Third = 3,
}

impl From<Condition> for u32 {
    ghost from_gives = { λ c r. r ≡ number_of c };

    fn from(condition: Condition) -> u32 {
        condition as u32
    }
}

// A state that steps can lead to.
#[derive(Clone, Copy)]
pub struct State<'a> {
    pub storage: &'a Storage,
    pub ghost good: { Good storage.now } by { Prim.hlevel props },
}

// A barrier's entry in a list.
fn barrier_entry(b: usize) -> usize
    requires { b < most_barriers }
    ensures { result ≡ b + most_writes }
{
    b + Storage::MOST_WRITES
}

// 1 for a sync, which is to be acknowledged, and 0 for an lwsync.
fn awaits(class: u8) -> u8
    ensures { result ≡ tick (eqb class sync) }
{
    u8::from(class == Storage::SYNC)
}

// Whether writes x and y are not yet related by coherence.
fn unrelated(before: &[u64; Storage::MOST_WRITES], x: usize, y: usize) -> bool
    requires x_lt_most_writes { x < most_writes }
    requires y_lt_most_writes { y < most_writes }
    ensures { result ≡ (not (edge_in before.now x y) && not (edge_in before.now y x)) }
{
    !bits::has(before[y], x) && !bits::has(before[x], y)
}

#[tactic(auto, using(crate::proofs::Ranges::ranges))]
impl<'a> State<'a> {
    // The threads' lists.
    fn lists(&self) -> ThreadLists<'a>
        ensures listed { result.listed.now ≡ self.now.storage.now.listed }
        ensures events { result.events.now ≡ self.now.storage.now.events }
    {
        let c = self.storage;
        ThreadLists {
            listed: &c.listed,
            events: &c.events,
        }
    }

    // The state with the event x at the end of thread t's list.
    fn append(&self, t: usize, x: usize) -> Storage
        requires t_lt_threads { t < self.now.storage.now.threads }
        requires x_lt_most_listed { x < most_listed }
        requires t_bound { get_or self.now.storage.now.listed t 0 < most_listed }
        ensures { result ≡ held (with_event (state_of self.now.storage.now) t (event_of x)) }
    {
        let mut out = *self.storage;
        let at = out.listed[t];
        out.events[t * Storage::MOST_LISTED + at] = x as u8;
        out.listed[t] = at + 1;
        out
    }

    // The events that have been propagated to thread t.
    fn arrived(&self, t: usize) -> u64
        requires { t < self.now.storage.now.threads }
        ensures { Here self.now.storage.now t result }
    {
        let lists = self.lists();
        lists.arrived(t)
    }

    // ---- accepting a write

    // The writes that come before a new one by thread t to address a: those to it in the thread's list, and all before them.
    fn new_row(&self, t: usize, a: usize) -> u64
        requires t_lt_threads { t < self.now.storage.now.threads }
        requires a_lt_addresses { a < self.now.storage.now.addresses }
        ensures { NewRow self.now.storage.now t a result }
    {
        let c = self.storage;
        let k = c.writes;
        let here = self.arrived(t);
        let to = coherence::to_address(&c.address, k, a as u8);
        coherence::up_to(&c.before, bits::both(here, to), k)
    }

    // Accepts a write.
    pub fn accept_write(&self, t: usize, a: usize, v: u32) -> Storage
        requires { StepFits self.now.storage.now.threads self.now.storage.now.addresses self.now.storage.now.writes self.now.storage.now.barriers (accept_write t a v) }
        ensures { result ≡ held (effect (state_of self.now.storage.now) (accept_write t a v)) }
    {
        let c = self.storage;
        let row = self.new_row(t, a);
        let w = c.writes;
        let mut out = self.append(t, w);
        out.writer[w] = t as u8;
        out.address[w] = a as u8;
        out.value[w] = v;
        out.before[w] = row;
        out.writes = w + 1;
        out
    }

    // ---- accepting a barrier

    // Accepts a barrier.
    pub fn accept_barrier(&self, t: usize, class: usize) -> Storage
        requires { StepFits self.now.storage.now.threads self.now.storage.now.addresses self.now.storage.now.writes self.now.storage.now.barriers (accept_barrier t class) }
        ensures { result ≡ held (effect (state_of self.now.storage.now) (accept_barrier t class)) }
    {
        let c = self.storage;
        let b = c.barriers;
        let mut out = self.append(t, barrier_entry(b));
        out.owner[b] = t as u8;
        out.class[b] = class as u8;
        out.unacknowledged[b] = awaits(class as u8);
        out.barriers = b + 1;
        out
    }

    // ---- propagating a write

    // Condition 2: write w is coherence-after every write to its address that is here.
    fn write_is_after(&self, w: usize, t: usize, here: u64) -> bool
        requires w_lt_writes { w < self.now.storage.now.writes }
        requires here { Here self.now.storage.now t here }
        ensures { result ≡ write_is_after (state_of self.now.storage.now) w t }
    {
        let c = self.storage;
        let k = c.writes;
        let a = c.address[w];
        let before = c.before[w];
        let to = coherence::to_address(&c.address, k, a);
        bits::inside_below(bits::both(here, to), before, k)
    }

    // Condition 3: all barriers before write w in the list of its thread are here.
    fn barriers_went_before(&self, w: usize, t: usize, here: u64) -> bool
        requires w_lt_writes { w < self.now.storage.now.writes }
        requires here { Here self.now.storage.now t here }
        ensures { result ≡ barriers_went_before (state_of self.now.storage.now) w t }
    {
        let c = self.storage;
        let own = usize::from(c.writer[w]);
        let lists = self.lists();
        let before = lists.preceding(own, w);
        bits::inside(rows::minus(before, bits::below(Storage::MOST_WRITES)), here)
    }

    // Whether write w may be propagated to thread t.
    fn check_propagate_write(&self, w: usize, t: usize) -> Result<(), Condition>
        requires w_lt_writes { w < self.now.storage.now.writes }
        requires t_lt_threads { t < self.now.storage.now.threads }
        ensures { failed result ≡ failing (state_of self.now.storage.now) (propagate_write w t) }
    {
        let here = self.arrived(t);
        if bits::has(here, w) {
            return Err(Condition::First);
        }
        if !self.write_is_after(w, t, here) {
            return Err(Condition::Second);
        }
        if !self.barriers_went_before(w, t, here) {
            return Err(Condition::Third);
        }
        Ok(())
    }

    // Propagates write w to thread t.
    pub fn propagate_write(&self, w: usize, t: usize) -> Result<Storage, Condition>
        requires w_lt_writes { w < self.now.storage.now.writes }
        requires t_lt_threads { t < self.now.storage.now.threads }
        ensures { Took self.now.storage.now (propagate_write w t) result }
    {
        self.check_propagate_write(w, t)?;
        Ok(self.append(t, w))
    }

    // ---- propagating a barrier

    // Condition 2: for each Group A write, it or a coherence successor is here.
    fn group_a_went_before(&self, b: usize, t: usize, here: u64) -> bool
        requires b_lt_barriers { b < self.now.storage.now.barriers }
        requires here { Here self.now.storage.now t here }
        ensures { result ≡ group_a_went_before (state_of self.now.storage.now) b t }
    {
        let c = self.storage;
        let k = c.writes;
        let own = usize::from(c.owner[b]);
        let lists = self.lists();
        let group_a = lists.preceding(own, barrier_entry(b));
        bits::inside_below(group_a, coherence::up_to(&c.before, here, k), k)
    }

    // Whether barrier b may be propagated to thread t.
    fn check_propagate_barrier(&self, b: usize, t: usize) -> Result<(), Condition>
        requires b_lt_barriers { b < self.now.storage.now.barriers }
        requires t_lt_threads { t < self.now.storage.now.threads }
        ensures { failed result ≡ failing (state_of self.now.storage.now) (propagate_barrier b t) }
    {
        let here = self.arrived(t);
        if bits::has(here, barrier_entry(b)) {
            return Err(Condition::First);
        }
        if !self.group_a_went_before(b, t, here) {
            return Err(Condition::Second);
        }
        Ok(())
    }

    // Propagates barrier b to thread t.
    pub fn propagate_barrier(&self, b: usize, t: usize) -> Result<Storage, Condition>
        requires b_lt_barriers { b < self.now.storage.now.barriers }
        requires t_lt_threads { t < self.now.storage.now.threads }
        ensures { Took self.now.storage.now (propagate_barrier b t) result }
    {
        self.check_propagate_barrier(b, t)?;
        Ok(self.append(t, barrier_entry(b)))
    }

    // ---- committing one write before another

    // The rows with write x before write y, and what transitivity adds.
    fn committed(&self, x: usize, y: usize) -> [u64; Storage::MOST_WRITES]
        requires x_lt_writes { x < self.now.storage.now.writes }
        requires y_lt_writes { y < self.now.storage.now.writes }
        ensures { result ≡ rows_held self.now.storage.now.writes (committed_in (state_of self.now.storage.now) x y) }
    {
        let c = self.storage;
        let k = c.writes;
        let mut before = c.before;
        coherence::commit(&mut before, k, x, y);
        before
    }

    // The rows, and for each write those that a barrier separates from it in the list of its thread.
    fn with_separated(&self, before: [u64; Storage::MOST_WRITES]) -> [u64; Storage::MOST_WRITES]
        ensures { Separated self.now.storage.now before result self.now.storage.now.writes }
    {
        let c = self.storage;
        let lists = self.lists();
        let k = c.writes;
        let mut out = before;
        for b in 0..k {
            let t = usize::from(c.writer[b]);
            out[b] |= lists.separated(t, b);
        }
        out
    }

    // Condition 3: no cycle in the rows and the writes that a barrier separates.
    fn acyclic_with(&self, x: usize, y: usize, before: [u64; Storage::MOST_WRITES]) -> bool
        requires { before ≡ rows_held self.now.storage.now.writes (committed_in (state_of self.now.storage.now) x y) }
        ensures { result ≡ acyclic_with (state_of self.now.storage.now) (committed_in (state_of self.now.storage.now) x y) }
    {
        let c = self.storage;
        coherence::acyclic(self.with_separated(before), c.writes)
    }

    // Whether write x may be committed before write y, where the rows are those with it.
    fn check_commit(
        &self,
        x: usize,
        y: usize,
        before: [u64; Storage::MOST_WRITES],
    ) -> Result<(), Condition>
        requires x_lt_writes { x < self.now.storage.now.writes }
        requires y_lt_writes { y < self.now.storage.now.writes }
        requires before_value { before ≡ rows_held self.now.storage.now.writes (committed_in (state_of self.now.storage.now) x y) }
        ensures { failed result ≡ failing (state_of self.now.storage.now) (commit_step x y) }
    {
        let c = self.storage;
        if c.address[x] != c.address[y] {
            return Err(Condition::First);
        }
        if !unrelated(&c.before, x, y) {
            return Err(Condition::Second);
        }
        if !self.acyclic_with(x, y, before) {
            return Err(Condition::Third);
        }
        Ok(())
    }

    // Commits write x to be before write y.
    pub fn commit(&self, x: usize, y: usize) -> Result<Storage, Condition>
        requires x_lt_writes { x < self.now.storage.now.writes }
        requires y_lt_writes { y < self.now.storage.now.writes }
        ensures { Took self.now.storage.now (commit_step x y) result }
    {
        let before = self.committed(x, y);
        self.check_commit(x, y, before)?;
        let mut next = *self.storage;
        next.before = before;
        Ok(next)
    }

    // ---- a read response

    // Answers a read by thread t of address a with the value v.
    pub fn respond(&self, t: usize, a: usize, v: u32) -> Result<Storage, Condition>
        requires t_lt_threads { t < self.now.storage.now.threads }
        requires a_lt_addresses { a < self.now.storage.now.addresses }
        ensures { Took self.now.storage.now (respond_step t a v) result }
    {
        let c = self.storage;
        let lists = self.lists();
        let found = lists.latest(&c.address, &c.value, t, a as u8, c.initial[a]);
        if v != found {
            return Err(Condition::First);
        }
        Ok(*c)
    }

    // ---- acknowledging a sync

    // Whether barrier b may be acknowledged.
    fn check_acknowledge(&self, b: usize) -> Result<(), Condition>
        requires { b < self.now.storage.now.barriers }
        ensures { failed result ≡ failing (state_of self.now.storage.now) (acknowledge_step b) }
    {
        let c = self.storage;
        if c.unacknowledged[b] != 1 {
            return Err(Condition::First);
        }
        let lists = self.lists();
        if !lists.everywhere(c.threads, barrier_entry(b)) {
            return Err(Condition::Second);
        }
        Ok(())
    }

    // Acknowledges barrier b.
    pub fn acknowledge(&self, b: usize) -> Result<Storage, Condition>
        requires { b < self.now.storage.now.barriers }
        ensures { Took self.now.storage.now (acknowledge_step b) result }
    {
        self.check_acknowledge(b)?;
        let mut next = *self.storage;
        next.unacknowledged[b] = 0;
        Ok(next)
    }
}
