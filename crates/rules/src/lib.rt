// A case's verdict and its final memory.
#![tactic(auto)]

ghost use Rattle.std.specs.Prelude.{◌≡◌, true, ◌&&◌, ℕ, ◌+◌, ◌*◌, ◌<◌, ◌≤◌, eqb, ltb, get_or};
ghost use Rattle.finite.specs.Tests.{count};
ghost use Rattle.bits.specs.Bit.{bit};
ghost use Rattle.model.specs.Limits.{most_threads, most_addresses, most_events};
ghost use Rattle.model.specs.Rules.{verdict as verdict_of, finals as finals_of};
ghost use Rattle.case.specs.Held.{case_of};
ghost use Rattle.case.specs.Sound.{Sound};
ghost use Rattle.rows.specs.Sets.{Set, Sets};
ghost use Rattle.columns.specs.Columns.{Columns};
ghost use Rattle.by_columns.specs.Parts.{WithColumns};
ghost use Rattle.rules.specs.Finals.{stored_in, value_in, last_in, final_in};
ghost use Rattle.rules.specs.Models.{Numbered, model_of};
ghost use Rattle.rules.specs.Broken.{rule_number, verdict_number};
ghost use Rattle.rules.specs.Verdict.{Agrees, shared_in, seen_in, chosen_in, judged_in, fresh_in, order_verdict, value_verdict, barrier_verdict};

use case::Case;

// The model that a case is judged under.
#[derive(Clone, Copy, Debug, PartialEq, Eq)]
pub enum Model {
    Ppcw,
    Ppcs,
}

// A number that no model has.
#[derive(Clone, Copy, Debug, PartialEq, Eq)]
pub struct NoModel;

impl TryFrom<u64> for Model {
    type Error = NoModel;

    ghost try_from_gives = { Numbered };

    fn try_from(number: u64) -> Result<Self, NoModel> {
        match number {
            0 => Ok(Model::Ppcw),
            1 => Ok(Model::Ppcs),
            _ => Err(NoModel),
        }
    }
}

// What a case may break. The numbers are those that answers give.
#[derive(Clone, Copy, Debug, PartialEq, Eq)]
pub enum Rule {
    // each thread's order is irreflexive and transitive
    StrictOrder = 11,
    // it orders the thread's own events
    OwnOrder = 12,
    // it keeps what the program orders
    ProgramOrder = 13,
    // it orders stores to one address as the write order does
    Coherence = 14,
    // a load holds the initial value, or a store to its address comes before it
    EarlierStore = 15,
    // a load holds the value of the latest store before it
    LatestStore = 16,
    // what a thread's barrier orders, every thread orders
    Barrier = 17,
    // and what comes after a load of a store behind the barrier
    CumulativeBarrier = 18,
}

impl From<Rule> for u32 {
    ghost from_gives = { λ rule n. n ≡ rule_number rule };

    fn from(rule: Rule) -> u32 {
        rule as u32
    }
}

// The sets of a case's events: those of each thread; loads, stores, barriers and, of these, syncs; and by event those that use
// its address and those that depend on it.
#[derive(Clone, Copy)]
pub struct EventSets {
    pub own: [u64; Case::MOST_THREADS],
    pub loads: u64,
    pub stores: u64,
    pub barriers: u64,
    pub syncs: u64,
    pub partners: [u64; Case::MOST_EVENTS],
    pub dependents: [u64; Case::MOST_EVENTS],
}

// By event of the set, the events of the set that use its address.
fn sharing(addresses: &[u8; Case::MOST_EVENTS], k: usize, set: u64) -> [u64; Case::MOST_EVENTS]
    requires k_le_most_events { k ≤ most_events }
    requires by_index { (e : ℕ) → e < k → bit set e ≡ true → get_or addresses.now e 0 < most_addresses }
    ensures { Sets k result (shared_in k set addresses.now) }
{
    let those = rows::by_label(addresses, k, set);
    rows::by_event(&those, addresses, k, set)
}

// The sets of a case's events.
fn gather(c: &Case) -> EventSets
    requires { Sound c.now }
    ensures { Agrees (case_of c.now) result }
{
    let k = c.events;
    let links = case::link_count(c.edition, c.dependencies);
    let loads = rows::labelled(&c.kind, k, Case::LOAD);
    let stores = rows::labelled(&c.kind, k, Case::STORE);
    let syncs = rows::labelled(&c.kind, k, Case::SYNC);
    let every = bits::below(k);
    let own = rows::by_label(&c.thread, k, every);
    let accesses = loads | stores;
    let partners = sharing(&c.address, k, accesses);
    let barriers = rows::minus(every, accesses);
    let dependents = rows::dependents(&c.from, &c.to, links);
    EventSets {
        own,
        loads,
        stores,
        barriers,
        syncs,
        partners,
        dependents,
    }
}

// V(p) by thread: the events of its pairs, and its own.
fn seen_sets<'a>(
    rows: &'a [u64; Case::MOST_THREADS * Case::MOST_EVENTS],
    columns: &'a [u64; Case::MOST_THREADS * Case::MOST_EVENTS],
    own: &'a [u64; Case::MOST_THREADS],
    n: usize,
    k: usize,
) -> [u64; Case::MOST_THREADS]
    requires { WithColumns n k rows.now columns.now }
    ensures { Sets n result (seen_in k rows.now own.now) }
{
    let mut out = [0u64; Case::MOST_THREADS];
    for p in 0..n {
        out[p] = by_columns::paired(rows, columns, n, k, p) | own[p];
    }
    out
}

// The loads of its own under PPCw, and of those seen under PPCs.
fn judged_set(model: Model, loads: u64, own: u64, seen: u64) -> u64
    ensures { Set result (chosen_in model loads own seen) }
{
    match model {
        Model::Ppcw => loads & own,
        Model::Ppcs => loads & seen,
    }
}

// By thread, the loads that rules 15 and 16 speak of: its own, or under PPCs those that it sees.
fn judged_sets(
    model: Model,
    loads: u64,
    own: &[u64; Case::MOST_THREADS],
    seen: &[u64; Case::MOST_THREADS],
    n: usize,
) -> [u64; Case::MOST_THREADS]
    requires { n ≤ most_threads }
    ensures { Sets n result (judged_in model loads own.now seen.now) }
{
    let mut out = [0u64; Case::MOST_THREADS];
    for p in 0..n {
        out[p] = judged_set(model, loads, own[p], seen[p]);
    }
    out
}

// Load l, if it holds its address's initial value.
fn fresh_load(
    loads: u64,
    values: &[u32; Case::MOST_EVENTS],
    addresses: &[u8; Case::MOST_EVENTS],
    initial: &[u32; Case::MOST_ADDRESSES],
    l: usize,
) -> u64
    requires l_lt_most_events { l < most_events }
    requires l_bound { bit loads l ≡ true → get_or addresses.now l 0 < most_addresses }
    ensures { Set result (λ e. fresh_in loads values.now addresses.now initial.now l && eqb e l) }
{
    if bits::has(loads, l) {
        let x = usize::from(addresses[l]);
        rows::where_so(values[l] == initial[x], rows::alone(l))
    } else {
        0
    }
}

// The loads that hold their address's initial value.
fn fresh_loads<'a>(
    loads: u64,
    values: &'a [u32; Case::MOST_EVENTS],
    addresses: &'a [u8; Case::MOST_EVENTS],
    initial: &'a [u32; Case::MOST_ADDRESSES],
    k: usize,
) -> u64
    requires k_le_most_events { k ≤ most_events }
    requires by_index { (l : ℕ) → l < k → bit loads l ≡ true → get_or addresses.now l 0 < most_addresses }
    ensures { Set result (λ l. ltb l k && fresh_in loads values.now addresses.now initial.now l) }
{
    let mut found: u64 = 0;
    for l in 0..k {
        found |= fresh_load(loads, values, addresses, initial, l);
    }
    found
}

// A case without fault, the sets of its events, and the columns of its orders.
#[derive(Clone, Copy)]
struct Gathered<'a> {
    case: &'a Case,
    sets: &'a EventSets,
    columns: &'a [u64; Case::MOST_THREADS * Case::MOST_EVENTS],
    ghost sound: { Sound case.now },
    ghost agrees: { Agrees (case_of case.now) sets.now },
    ghost turned: { Columns case.now.threads case.now.events case.now.rows columns.now },
}

impl Gathered<'_> {
    // The lowest broken of rules 11 to 14, if any.
    fn check_order(&self) -> Result<(), Rule>
        ensures { verdict_number result ≡ order_verdict (case_of self.now.case.now) }
    {
        let c = self.case;
        let g = self.sets;
        let n = c.threads;
        let k = c.events;
        if !one_order::rule11(&c.rows, n, k) {
            return Err(Rule::StrictOrder);
        }
        if !by_columns::rule12(&g.own, &c.rows, self.columns, n, k) {
            return Err(Rule::OwnOrder);
        }
        if !orders::rule13(
            &g.own,
            g.barriers,
            &g.partners,
            &g.dependents,
            &c.rows,
            n,
            k,
        ) {
            return Err(Rule::ProgramOrder);
        }
        if !orders::rule14(&c.rows, g.stores, &g.partners, &c.address, &c.writes, n, k) {
            return Err(Rule::Coherence);
        }
        Ok(())
    }

    // Under a model, the lowest broken of rules 15 and 16, if any.
    fn check_values(&self, model: Model) -> Result<(), Rule>
        ensures { verdict_number result ≡ value_verdict (case_of self.now.case.now) (model_of model) }
    {
        let c = self.case;
        let g = self.sets;
        let n = c.threads;
        let k = c.events;
        let seen = seen_sets(&c.rows, self.columns, &g.own, n, k);
        let judged = judged_sets(model, g.loads, &g.own, &seen, n);
        let fresh = fresh_loads(g.loads, &c.value, &c.address, &c.initial, k);
        if !by_columns::rule15(
            &judged,
            fresh,
            g.stores,
            &g.partners,
            &c.rows,
            self.columns,
            n,
            k,
        ) {
            return Err(Rule::EarlierStore);
        }
        if !by_columns::rule16(
            &judged,
            &seen,
            g.stores,
            &g.partners,
            &c.value,
            &c.rows,
            self.columns,
            n,
            k,
        ) {
            return Err(Rule::LatestStore);
        }
        Ok(())
    }

    // The lowest broken of rules 17 and 18, if any, where none of 11 to 14 is: if all threads' orders are alike, both hold.
    fn check_barriers(&self) -> Result<(), Rule>
        requires { order_verdict (case_of self.now.case.now) ≡ 0 }
        ensures { verdict_number result ≡ barrier_verdict (case_of self.now.case.now) }
    {
        let c = self.case;
        let g = self.sets;
        let n = c.threads;
        let k = c.events;
        if one_order::alike(&c.rows, n, k) {
            return Ok(());
        }
        let joined = one_order::joined(self.columns, n, k);
        if !by_columns::rule17(
            &g.own,
            g.barriers,
            g.syncs,
            g.stores,
            g.loads,
            &c.rows,
            self.columns,
            &joined,
            n,
            k,
        ) {
            return Err(Rule::Barrier);
        }
        if !by_columns::rule18(
            &g.own,
            g.barriers,
            g.syncs,
            g.stores,
            g.loads,
            &g.partners,
            &c.thread,
            &c.rows,
            self.columns,
            &joined,
            n,
            k,
        ) {
            return Err(Rule::CumulativeBarrier);
        }
        Ok(())
    }
}

// Under a model, the lowest broken rule of the case, if any.
pub fn verdict(c: Case, model: Model) -> Result<(), Rule>
    requires { Sound c }
    ensures { verdict_number result ≡ verdict_of (case_of c) (model_of model) }
{
    let sets = gather(&c);
    let mut columns = c.rows;
    columns::to_columns(&mut columns, c.threads, c.events);
    let gathered = Gathered {
        case: &c,
        sets: &sets,
        columns: &columns,
    };
    gathered.check_order()?;
    gathered.check_values(model)?;
    gathered.check_barriers()
}

// The value of event e, 0 if it is a barrier.
fn value_at(c: &Case, e: usize) -> u32
    requires { e < most_events }
    ensures { result ≡ value_in c.now.kind c.now.value e }
{
    if case::bare(c.kind[e]) { 0 } else { c.value[e] }
}

// The value of the last of i stores in the write order of address x, or else the initial value.
fn last_value(c: &Case, x: usize, i: usize) -> u32
    requires x_lt_most_addresses { x < most_addresses }
    requires i_le_most_events { i ≤ most_events }
    requires by_index { (j : ℕ) → j < i → get_or c.now.writes (x * most_events + j) 0 < most_events }
    ensures { result ≡ last_in c.now.kind c.now.value c.now.writes c.now.initial x i }
{
    if i == 0 {
        c.initial[x]
    } else {
        let e = usize::from(c.writes[x * Case::MOST_EVENTS + (i - 1)]);
        value_at(c, e)
    }
}

// The final value of address x, 0 from the last address on.
fn final_value(c: &Case, stores: u64, x: usize) -> u32
    requires k_le_most_events { c.now.events ≤ most_events }
    requires x_lt_most_addresses { x < most_addresses }
    requires j_bound { x < c.now.addresses → (j : ℕ) → j < count c.now.events (stored_in stores c.now.address x) → get_or c.now.writes (x * most_events + j) 0 < most_events }
    ensures { result ≡ final_in c.now.addresses c.now.events stores c.now.kind c.now.address c.now.value c.now.writes c.now.initial x }
{
    let m = c.addresses;
    let k = c.events;
    if x < m {
        let those = bits::both(stores, rows::labelled(&c.address, k, x as u8));
        last_value(c, x, bits::size_below(those, k))
    } else {
        0
    }
}

// The final memory: the last store in each address's write order, or else the initial value.
pub fn finals(c: Case) -> [u32; Case::MOST_ADDRESSES]
    requires { Sound c }
    ensures { result ≡ finals_of (case_of c) }
{
    let stores = rows::labelled(&c.kind, c.events, Case::STORE);
    let mut out = [0u32; Case::MOST_ADDRESSES];
    for x in 0..Case::MOST_ADDRESSES {
        out[x] = final_value(&c, stores, x);
    }
    out
}
