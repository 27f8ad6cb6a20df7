// Rules 12 and 15 to 18 of a case's own orders, by their rows and columns: the tests that judging uses. `rows` holds, by thread and
// event, what comes after the event in the thread's order, `columns` what comes before it.
#![tactic(auto)]

ghost use Rattle.std.specs.Prelude.{◌≡◌, true, not, ◌&&◌, ◌||◌, ℕ, ◌*◌, ◌<◌, ◌≤◌, eqb, ltb, get_or};
ghost use Rattle.finite.specs.Tests.{all, some, ◌⇒◌};
ghost use Rattle.bits.specs.Bit.{bit};
ghost use Rattle.model.specs.Limits.{most_threads, most_events};
ghost use Rattle.rows.specs.Sets.{Set, Sets, order_in, set_in, store_in};
ghost use Rattle.rows.specs.May.{pairs, may12, may15, may16, may17, may18};
ghost use Rattle.orders.specs.Parts.{connected};
ghost use Rattle.values.specs.Parts.{equal_in, thread_in, supplied, overwritten, carried as carried_of, cumulative};
ghost use Rattle.by_columns.specs.Parts.{WithColumns, Joined, Shared, applies_in, replaced, carried_to, read_in, behind_in, carried_behind};

use case::Case;

// The orders of n threads over k events. The public tests take its fields apart, so that none asks for more than its `requires`.
#[derive(Clone, Copy)]
struct Orders<'a> {
    rows: &'a [u64; Case::MOST_THREADS * Case::MOST_EVENTS],
    columns: &'a [u64; Case::MOST_THREADS * Case::MOST_EVENTS],
    n: usize,
    k: usize,
    ghost with_columns: { WithColumns n k rows.now columns.now },
}

impl Orders<'_> {
    // What comes before event b in p's order.
    fn earlier(&self, p: usize, b: usize) -> u64
        requires p_lt_n { p < self.now.n }
        requires b_lt_k { b < self.now.k }
        ensures { Set result (λ e. ltb e self.now.k && order_in self.now.rows.now p e b) }
    {
        bits::both(bits::below(self.k), rows::row(self.columns, p, b))
    }

    // The events of the set that come before event b in p's order.
    fn earlier_of(&self, p: usize, set: u64, b: usize) -> u64
        requires p_lt_n { p < self.now.n }
        requires b_lt_k { b < self.now.k }
        ensures { Set result (λ e. ltb e self.now.k && (bit set e && order_in self.now.rows.now p e b)) }
    {
        bits::both(set, self.earlier(p, b))
    }

    // The events that stand in some pair of p's order: those that come after one, and those that come before one.
    fn paired(&self, p: usize) -> u64
        requires { p < self.now.n }
        ensures { Set result (λ e. ltb e self.now.k && pairs self.now.k (order_in self.now.rows.now) p e) }
    {
        let after = united(self.rows, self.k, p);
        let before = united(self.columns, self.k, p);
        bits::both(after | before, bits::below(self.k))
    }

    // Event a of thread p and every other of its events are ordered.
    fn connected_event(&self, own: u64, p: usize, a: usize) -> bool
        requires p_lt_n { p < self.now.n }
        requires a_lt_k { a < self.now.k }
        requires a_value { bit own a ≡ true }
        ensures { result ≡ connected self.now.k (bit own) (order_in self.now.rows.now p) a }
    {
        let around = rows::row(self.rows, p, a) | self.earlier_of(p, own, a);
        bits::inside_below(own, bits::with(around, a), self.k)
    }

    // Every two events of thread p are ordered.
    fn connected_order(&self, own: u64, p: usize) -> bool
        requires { p < self.now.n }
        ensures { result ≡ all self.now.k (connected self.now.k (bit own) (order_in self.now.rows.now p)) }
    {
        bits::members_below(own, self.k).all(|a| self.connected_event(own, p, a))
    }

    // Rule 15 of thread p at load l, one of the judged that doesn't hold the initial value: some store to its address comes before
    // it.
    fn supplied_load(
        &self,
        judged: u64,
        fresh: u64,
        stores: u64,
        partners: &[u64; Case::MOST_EVENTS],
        p: usize,
        l: usize,
    ) -> bool
        requires p_lt_n { p < self.now.n }
        requires l_lt_k { l < self.now.k }
        requires l_value { (bit judged l && not (bit fresh l)) ≡ true }
        ensures { result ≡ supplied self.now.k (bit judged) (bit fresh) (store_in stores partners.now) (order_in self.now.rows.now p) l }
    {
        let sources = bits::both(stores, partners[l]);
        rows::any(self.earlier_of(p, sources, l), self.k)
    }

    // Rule 15 of thread p.
    fn supplied_order(
        &self,
        judged: u64,
        fresh: u64,
        stores: u64,
        partners: &[u64; Case::MOST_EVENTS],
        p: usize,
    ) -> bool
        requires { p < self.now.n }
        ensures { result ≡ all self.now.k (supplied self.now.k (bit judged) (bit fresh) (store_in stores partners.now) (order_in self.now.rows.now p)) }
    {
        let changed = rows::minus(judged, fresh);
        bits::members_below(changed, self.k).all(|l| self.supplied_load(
            judged, fresh, stores, partners, p, l,
        ))
    }

    // Store s of the set: another lies between it and load l, or their values are equal. `between` holds the stores to l's address
    // that come before l.
    fn replaced_store(
        &self,
        set: u64,
        between: u64,
        values: &[u32; Case::MOST_EVENTS],
        p: usize,
        l: usize,
        s: usize,
    ) -> bool
        requires p_lt_n { p < self.now.n }
        requires l_lt_k { l < self.now.k }
        requires s_lt_k { s < self.now.k }
        requires s_value { bit set s ≡ true }
        ensures { result ≡ (bit set s ⇒ replaced self.now.k (bit between) (equal_in values.now) (order_in self.now.rows.now p) l s) }
    {
        let later = rows::without(bits::both(between, rows::row(self.rows, p, s)), s);
        rows::any(later, self.k) || values[l] == values[s]
    }

    // Every store of the set.
    fn replaced_stores(
        &self,
        set: u64,
        between: u64,
        values: &[u32; Case::MOST_EVENTS],
        p: usize,
        l: usize,
    ) -> bool
        requires p_lt_n { p < self.now.n }
        requires l_lt_k { l < self.now.k }
        ensures { result ≡ all self.now.k (λ s. bit set s ⇒ replaced self.now.k (bit between) (equal_in values.now) (order_in self.now.rows.now p) l s) }
    {
        bits::members_below(set, self.k).all(|s| self.replaced_store(set, between, values, p, l, s))
    }

    // Rule 16 of thread p at load l, one of the judged: of the stores to its address that are seen, those that don't come after it.
    fn overwritten_load(
        &self,
        judged: u64,
        seen: u64,
        stores: u64,
        partners: &[u64; Case::MOST_EVENTS],
        values: &[u32; Case::MOST_EVENTS],
        p: usize,
        l: usize,
    ) -> bool
        requires p_lt_n { p < self.now.n }
        requires l_lt_k { l < self.now.k }
        requires l_value { bit judged l ≡ true }
        ensures { result ≡ overwritten self.now.k (bit judged) (bit seen) (store_in stores partners.now) (equal_in values.now) (order_in self.now.rows.now p) l }
    {
        let sources = bits::both(stores, partners[l]);
        let between = self.earlier_of(p, sources, l);
        let set = rows::minus(bits::both(sources, seen), rows::row(self.rows, p, l));
        self.replaced_stores(set, between, values, p, l)
    }

    // Rule 16 of thread p.
    fn overwritten_order(
        &self,
        judged: u64,
        seen: u64,
        stores: u64,
        partners: &[u64; Case::MOST_EVENTS],
        values: &[u32; Case::MOST_EVENTS],
        p: usize,
    ) -> bool
        requires { p < self.now.n }
        ensures { result ≡ all self.now.k (overwritten self.now.k (bit judged) (bit seen) (store_in stores partners.now) (equal_in values.now) (order_in self.now.rows.now p)) }
    {
        bits::members_below(judged, self.k).all(|l| self.overwritten_load(
            judged, seen, stores, partners, values, p, l,
        ))
    }

    // The events of thread p that come after one of its barriers in its order.
    fn fenced_order(&self, own: u64, barriers: u64, p: usize) -> u64
        requires { p < self.now.n }
        ensures { Set result (λ s. bit own s && some self.now.k (λ f. bit barriers f && bit own f && order_in self.now.rows.now p f s)) }
    {
        bits::both(
            own,
            rows::after(self.rows, self.k, p, bits::both(barriers, own)),
        )
    }

    // The events that come after a barrier of their thread, in its order.
    fn fenced(&self, own: &[u64; Case::MOST_THREADS], barriers: u64) -> u64
        ensures { Set result (λ s. some self.now.n (λ p. set_in own.now p s && some self.now.k (λ f. bit barriers f && set_in own.now p f && order_in self.now.rows.now p f s))) }
    {
        let mut found: u64 = 0;
        for p in 0..self.n {
            found |= self.fenced_order(own[p], barriers, p);
        }
        found
    }
}

// What some event of k has in its row of thread p.
fn united(rows: &[u64; Case::MOST_THREADS * Case::MOST_EVENTS], k: usize, p: usize) -> u64
    requires k_le_most_events { k ≤ most_events }
    requires p_lt_most_threads { p < most_threads }
    ensures { Set result (λ e. some k (λ a. order_in rows.now p a e)) }
{
    let mut found: u64 = 0;
    for a in 0..k {
        found |= rows::row(rows, p, a);
    }
    found
}

// The events that stand in some pair of p's order.
pub fn paired<'a>(
    rows: &'a [u64; Case::MOST_THREADS * Case::MOST_EVENTS],
    columns: &'a [u64; Case::MOST_THREADS * Case::MOST_EVENTS],
    n: usize,
    k: usize,
    p: usize,
) -> u64
    requires with_columns { WithColumns n k rows.now columns.now }
    requires p_lt_n { p < n }
    ensures { Set result (λ e. ltb e k && pairs k (order_in rows.now) p e) }
{
    let orders = Orders {
        rows,
        columns,
        n,
        k,
    };
    orders.paired(p)
}

// Rule 12. `own` holds each thread's events.
pub fn rule12<'a>(
    own: &'a [u64; Case::MOST_THREADS],
    rows: &'a [u64; Case::MOST_THREADS * Case::MOST_EVENTS],
    columns: &'a [u64; Case::MOST_THREADS * Case::MOST_EVENTS],
    n: usize,
    k: usize,
) -> bool
    requires { WithColumns n k rows.now columns.now }
    ensures { result ≡ may12 n k (set_in own.now) (order_in rows.now) }
{
    let orders = Orders {
        rows,
        columns,
        n,
        k,
    };
    (0..n).all(|p| orders.connected_order(own[p], p))
}

// Rule 15. `judged` holds, by thread, the loads that it speaks of; `fresh` those that hold the initial value; `partners`, by event,
// the events that use its address.
pub fn rule15<'a>(
    judged: &'a [u64; Case::MOST_THREADS],
    fresh: u64,
    stores: u64,
    partners: &'a [u64; Case::MOST_EVENTS],
    rows: &'a [u64; Case::MOST_THREADS * Case::MOST_EVENTS],
    columns: &'a [u64; Case::MOST_THREADS * Case::MOST_EVENTS],
    n: usize,
    k: usize,
) -> bool
    requires { WithColumns n k rows.now columns.now }
    ensures { result ≡ may15 n k (set_in judged.now) (bit fresh) (store_in stores partners.now) (order_in rows.now) }
{
    let orders = Orders {
        rows,
        columns,
        n,
        k,
    };
    (0..n).all(|p| orders.supplied_order(judged[p], fresh, stores, partners, p))
}

// Rule 16. `seen` holds, by thread, the events that it sees.
pub fn rule16<'a>(
    judged: &'a [u64; Case::MOST_THREADS],
    seen: &'a [u64; Case::MOST_THREADS],
    stores: u64,
    partners: &'a [u64; Case::MOST_EVENTS],
    values: &'a [u32; Case::MOST_EVENTS],
    rows: &'a [u64; Case::MOST_THREADS * Case::MOST_EVENTS],
    columns: &'a [u64; Case::MOST_THREADS * Case::MOST_EVENTS],
    n: usize,
    k: usize,
) -> bool
    requires { WithColumns n k rows.now columns.now }
    ensures { result ≡ may16 n k (set_in judged.now) (set_in seen.now) (store_in stores partners.now) (equal_in values.now) (order_in rows.now) }
{
    let orders = Orders {
        rows,
        columns,
        n,
        k,
    };
    (0..n).all(|p| orders.overwritten_order(judged[p], seen[p], stores, partners, values, p))
}

// What barriers order: the orders, which events are barriers and, of these, syncs, which are stores and which loads, and by event
// what comes before it in every thread's order.
#[derive(Clone, Copy)]
struct Barriers<'a> {
    orders: Orders<'a>,
    barriers: u64,
    syncs: u64,
    stores: u64,
    loads: u64,
    joined: &'a [u64; Case::MOST_EVENTS],
    ghost everywhere: { Joined orders.n orders.k orders.rows.now joined.now },
}

impl Barriers<'_> {
    // Of the set, what barrier f orders before event g.
    fn ordered_before(&self, set: u64, f: usize, g: usize) -> u64
        requires f_lt_most_events { f < most_events }
        requires g_lt_most_events { g < most_events }
        ensures { Set result (λ e. bit set e && applies_in self.now.barriers self.now.syncs self.now.stores self.now.loads f e g) }
    {
        if bits::has(self.syncs, f) {
            return set;
        }
        if bits::has(self.barriers, g) {
            return 0;
        }
        let not_ordered = self.barriers | rows::where_so(bits::has(self.loads, g), self.stores);
        rows::minus(set, not_ordered)
    }

    // Event g of the second set: what of the first set barrier f orders before it comes before it in every thread's order.
    fn carried_event(&self, first: u64, then: u64, f: usize, g: usize) -> bool
        requires f_lt_k { f < self.now.orders.k }
        requires g_lt_k { g < self.now.orders.k }
        requires g_value { bit then g ≡ true }
        ensures { result ≡ carried_to self.now.orders.k self.now.orders.n (bit first) (bit then) (applies_in self.now.barriers self.now.syncs self.now.stores self.now.loads f) (order_in self.now.orders.rows.now) g }
    {
        let set = self.ordered_before(first, f, g);
        bits::inside_below(set, self.joined[g], self.orders.k)
    }

    // Every event of the first set comes, in every thread's order, before every event of the second that barrier f orders after it.
    fn carried(&self, first: u64, then: u64, f: usize) -> bool
        requires { f < self.now.orders.k }
        ensures { result ≡ carried_of self.now.orders.k self.now.orders.n (bit first) (bit then) (applies_in self.now.barriers self.now.syncs self.now.stores self.now.loads f) (order_in self.now.orders.rows.now) }
    {
        bits::members_below(then, self.orders.k).all(|g| self.carried_event(first, then, f, g))
    }

    // Rule 17 at barrier f of thread p.
    fn cumulative_barrier(&self, own: u64, p: usize, f: usize) -> bool
        requires p_lt_n { p < self.now.orders.n }
        requires f_lt_k { f < self.now.orders.k }
        requires f_value { (bit self.now.barriers f && bit own f) ≡ true }
        ensures { result ≡ cumulative self.now.orders.k self.now.orders.n (bit own) (bit self.now.barriers) (applies_in self.now.barriers self.now.syncs self.now.stores self.now.loads) (order_in self.now.orders.rows.now p) (order_in self.now.orders.rows.now) f }
    {
        let first = self.orders.earlier(p, f);
        let then = bits::both(own, rows::row(self.orders.rows, p, f));
        self.carried(first, then, f)
    }

    // Rule 17 of thread p.
    fn cumulative_order(&self, own: u64, p: usize) -> bool
        requires { p < self.now.orders.n }
        ensures { result ≡ all self.now.orders.k (cumulative self.now.orders.k self.now.orders.n (bit own) (bit self.now.barriers) (applies_in self.now.barriers self.now.syncs self.now.stores self.now.loads) (order_in self.now.orders.rows.now p) (order_in self.now.orders.rows.now)) }
    {
        let fences = bits::both(self.barriers, own);
        bits::members_below(fences, self.orders.k).all(|f| self.cumulative_barrier(own, p, f))
    }

    // Rule 18 at barrier f of thread p. `behind` holds, by event, what comes after a load that must read from it, in the load's
    // thread's order.
    fn carried_on_barrier(
        &self,
        own: u64,
        behind: &[u64; Case::MOST_EVENTS],
        p: usize,
        f: usize,
    ) -> bool
        requires p_lt_n { p < self.now.orders.n }
        requires f_lt_k { f < self.now.orders.k }
        requires f_value { (bit self.now.barriers f && bit own f) ≡ true }
        ensures { result ≡ carried_behind self.now.orders.k self.now.orders.n (bit own) (bit self.now.barriers) (applies_in self.now.barriers self.now.syncs self.now.stores self.now.loads) (bit self.now.stores) (set_in behind.now) p (order_in self.now.orders.rows.now) f }
    {
        let first = self.orders.earlier(p, f);
        let later = bits::both(
            bits::both(self.stores, own),
            rows::row(self.orders.rows, p, f),
        );
        let then = reached(behind, self.orders.k, later);
        self.carried(first, then, f)
    }

    // Rule 18 of thread p.
    fn carried_on_order(&self, own: u64, behind: &[u64; Case::MOST_EVENTS], p: usize) -> bool
        requires { p < self.now.orders.n }
        ensures { result ≡ all self.now.orders.k (carried_behind self.now.orders.k self.now.orders.n (bit own) (bit self.now.barriers) (applies_in self.now.barriers self.now.syncs self.now.stores self.now.loads) (bit self.now.stores) (set_in behind.now) p (order_in self.now.orders.rows.now)) }
    {
        let fences = bits::both(self.barriers, own);
        bits::members_below(fences, self.orders.k).all(|f| self.carried_on_barrier(
            own, behind, p, f,
        ))
    }

    // Rule 18, by what comes after the loads that must read from each event (`behind`).
    fn carried_on(&self, own: &[u64; Case::MOST_THREADS], behind: &[u64; Case::MOST_EVENTS]) -> bool
        ensures { result ≡ all self.now.orders.n (λ p. all self.now.orders.k (carried_behind self.now.orders.k self.now.orders.n (set_in own.now p) (bit self.now.barriers) (applies_in self.now.barriers self.now.syncs self.now.stores self.now.loads) (bit self.now.stores) (set_in behind.now) p (order_in self.now.orders.rows.now))) }
    {
        (0..self.orders.n).all(|p| self.carried_on_order(own[p], behind, p))
    }
}

// Rule 17. `own` holds each thread's events; of the barriers, the syncs order every two events.
pub fn rule17<'a>(
    own: &'a [u64; Case::MOST_THREADS],
    barriers: u64,
    syncs: u64,
    stores: u64,
    loads: u64,
    rows: &'a [u64; Case::MOST_THREADS * Case::MOST_EVENTS],
    columns: &'a [u64; Case::MOST_THREADS * Case::MOST_EVENTS],
    joined: &'a [u64; Case::MOST_EVENTS],
    n: usize,
    k: usize,
) -> bool
    requires with_columns { WithColumns n k rows.now columns.now }
    requires joined { Joined n k rows.now joined.now }
    ensures { result ≡ may17 n k (set_in own.now) (bit barriers) (applies_in barriers syncs stores loads) (order_in rows.now) (order_in rows.now) }
{
    let orders = Orders {
        rows,
        columns,
        n,
        k,
    };
    let those = Barriers {
        orders,
        barriers,
        syncs,
        stores,
        loads,
        joined,
    };
    (0..n).all(|p| those.cumulative_order(own[p], p))
}

// The loads and stores of the orders' events, by event the events that use its address, and its thread.
#[derive(Clone, Copy)]
struct Accesses<'a> {
    orders: Orders<'a>,
    loads: u64,
    stores: u64,
    partners: &'a [u64; Case::MOST_EVENTS],
    threads: &'a [u8; Case::MOST_EVENTS],
    ghost shared: { Shared orders.n orders.k partners.now threads.now },
}

impl Accesses<'_> {
    // Load l must read from s: s is one of the stores to its address that come before it in its thread's order, and all the others
    // come before s.
    fn must_read(&self, l: usize, s: usize) -> bool
        requires l_lt_k { l < self.now.orders.k }
        requires s_lt_k { s < self.now.orders.k }
        requires l_value { bit self.now.loads l ≡ true }
        ensures { result ≡ read_in self.now.orders.k self.now.loads self.now.stores self.now.partners.now self.now.threads.now self.now.orders.rows.now l s }
    {
        let t = usize::from(self.threads[l]);
        let sources = bits::both(self.stores, self.partners[l]);
        let rivals = self.orders.earlier_of(t, sources, l);
        bits::has(rivals, s)
            && bits::inside_below(
                rivals,
                bits::with(self.orders.earlier_of(t, rivals, s), s),
                self.orders.k,
            )
    }

    // What comes after load l in its thread's order, if it must read from s.
    fn behind_load(&self, s: usize, l: usize) -> u64
        requires l_lt_k { l < self.now.orders.k }
        requires s_lt_k { s < self.now.orders.k }
        requires l_value { bit self.now.loads l ≡ true }
        ensures { Set result (λ g. ltb l self.now.orders.k && (read_in self.now.orders.k self.now.loads self.now.stores self.now.partners.now self.now.threads.now self.now.orders.rows.now l s && order_in self.now.orders.rows.now (thread_in self.now.threads.now l) l g)) }
    {
        let t = usize::from(self.threads[l]);
        rows::where_so(self.must_read(l, s), rows::row(self.orders.rows, t, l))
    }

    // What comes after a load that must read from store s, in the load's thread's order.
    fn behind_store(&self, s: usize) -> u64
        requires { s < self.now.orders.k }
        ensures { Set result (behind_in self.now.orders.k (read_in self.now.orders.k self.now.loads self.now.stores self.now.partners.now self.now.threads.now self.now.orders.rows.now) (thread_in self.now.threads.now) (order_in self.now.orders.rows.now) s) }
    {
        let mut found: u64 = 0;
        let readers = bits::both(self.loads, self.partners[s]);
        for l in bits::members_below(readers, self.orders.k) {
            found |= self.behind_load(s, l);
        }
        found
    }

    // The same of event s, if it is in the set.
    fn behind_event(&self, set: u64, s: usize) -> u64
        requires { s < self.now.orders.k }
        ensures { Set result (λ g. bit set s && behind_in self.now.orders.k (read_in self.now.orders.k self.now.loads self.now.stores self.now.partners.now self.now.threads.now self.now.orders.rows.now) (thread_in self.now.threads.now) (order_in self.now.orders.rows.now) s g) }
    {
        if bits::has(set, s) {
            self.behind_store(s)
        } else {
            0
        }
    }

    // By event of the set, what comes after a load that must read from it, in the load's thread's order. The entries from k on are
    // left open: there is no such event.
    fn behind(&self, set: u64) -> [u64; Case::MOST_EVENTS]
        ensures { Sets self.now.orders.k result (λ s g. bit set s && behind_in self.now.orders.k (read_in self.now.orders.k self.now.loads self.now.stores self.now.partners.now self.now.threads.now self.now.orders.rows.now) (thread_in self.now.threads.now) (order_in self.now.orders.rows.now) s g) }
    {
        let mut out = [0u64; Case::MOST_EVENTS];
        for s in 0..self.orders.k {
            out[s] = self.behind_event(set, s);
        }
        out
    }
}

// What `behind` holds for the events of the set.
fn reached(behind: &[u64; Case::MOST_EVENTS], k: usize, set: u64) -> u64
    requires { k ≤ most_events }
    ensures { Set result (λ g. some k (λ s. bit set s && set_in behind.now s g)) }
{
    let mut found: u64 = 0;
    for s in bits::members_below(set, k) {
        found |= behind[s];
    }
    found
}

// Rule 18. `partners` holds, by event, the events that use its address, `threads` its thread.
pub fn rule18<'a>(
    own: &'a [u64; Case::MOST_THREADS],
    barriers: u64,
    syncs: u64,
    stores: u64,
    loads: u64,
    partners: &'a [u64; Case::MOST_EVENTS],
    threads: &'a [u8; Case::MOST_EVENTS],
    rows: &'a [u64; Case::MOST_THREADS * Case::MOST_EVENTS],
    columns: &'a [u64; Case::MOST_THREADS * Case::MOST_EVENTS],
    joined: &'a [u64; Case::MOST_EVENTS],
    n: usize,
    k: usize,
) -> bool
    requires with_columns { WithColumns n k rows.now columns.now }
    requires joined { Joined n k rows.now joined.now }
    requires shared { Shared n k partners.now threads.now }
    ensures { result ≡ may18 n k (set_in own.now) (bit barriers) (applies_in barriers syncs stores loads) (bit stores) (read_in k loads stores partners.now threads.now rows.now) (thread_in threads.now) (order_in rows.now) (order_in rows.now) }
{
    let orders = Orders {
        rows,
        columns,
        n,
        k,
    };
    let accesses = Accesses {
        orders,
        loads,
        stores,
        partners,
        threads,
    };
    let set = bits::both(stores, orders.fenced(own, barriers));
    let behind = accesses.behind(set);
    let those = Barriers {
        orders,
        barriers,
        syncs,
        stores,
        loads,
        joined,
    };
    those.carried_on(own, &behind)
}
