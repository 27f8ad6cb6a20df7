// Runs the worked cases of paper 01 ("Cases on the bench") and of paper 02 through the compiled library and prints a line for
// each: the answers under PPCw and PPCs, and whether the calls on the case that was read agree with those on the record.
#![tactic(auto)]

mod cases;
mod lines;
mod names;
mod numbers;
mod records;
mod text;

use lines::{judged_each, renumbered};
use names::unprintable_names;
use numbers::{number_forms, values_of_every_width};
use text::say;

fn orders_and_values(rt: &impl Print) {
    judged_each(
        rt,
        &[
            ("Small record", &records::SMALL),
            ("Small record, load 0", &records::LOAD_0),
            ("Small record, load 2", &records::LOAD_2),
            ("Small record, no pairs", &records::NO_PAIRS),
            ("Small record, pairs 0,1 and 1,0", &records::BOTH_PAIRS),
            ("Small record, pair 1,0 alone", &records::REVERSED_PAIR),
            (
                "Stores in one order, write order reversed",
                &records::REVERSED_WRITES,
            ),
            ("One load of 2, initial value 0", &records::LONE_LOAD),
        ],
    );
}

fn known_tests(rt: &impl Print) {
    judged_each(
        rt,
        &[
            ("Dekker", &records::DEKKER),
            ("Message", &records::MESSAGE),
            (
                "Message, pair 0,4 in thread 0's order",
                &records::MESSAGE_ORDERED,
            ),
            ("CC", &records::CC),
            (
                "Message, thread 1's order from 3<4 only",
                &records::MESSAGE_UNSEEN,
            ),
            ("IRIW", &records::IRIW),
        ],
    );
}

// Edition 2: lwsync and dependencies.
fn second_edition(rt: &impl Print) {
    judged_each(
        rt,
        &[
            ("SB with lwsyncs", &records::SB_LWSYNC),
            ("SB with syncs", &records::SB_SYNC),
            ("MP with lwsyncs, the last load 0", &records::MP_LWSYNC),
            ("MP with one sync, thread 1 from 4<0<2<3", &records::MP_SYNC),
            (
                "MP, an address dependency from 3 to 4",
                &records::MP_DEPENDENCY,
            ),
            ("IRIW with lwsyncs", &records::IRIW_LWSYNC),
        ],
    );
}

// Dependencies that may not stand where they do.
fn unfit_dependencies(rt: &impl Print) {
    judged_each(
        rt,
        &[
            ("A data dependency into a load", &records::DATA_INTO_LOAD),
            ("A control dependency to a load", &records::CONTROL_TO_LOAD),
            ("A dependency from a store", &records::FROM_STORE),
            ("A dependency across threads", &records::ACROSS_THREADS),
            (
                "A dependency equal to the one before",
                &records::EQUAL_ENTRIES,
            ),
            (
                "A dependency below the one before",
                &records::FALLING_ENTRIES,
            ),
            ("97 dependencies", &records::DEPENDENCIES_97),
        ],
    );
}

fn ranges(rt: &impl Print) {
    judged_each(
        rt,
        &[
            ("Empty input", b""),
            ("Edition 3", &records::EDITION_3),
            ("Kind 3 in edition 1", &records::KIND_3),
            ("n = 5", &records::THREADS_5),
            ("k = 25", &records::EVENTS_25),
            ("k = 64", &records::EVENTS_64),
            ("k = 65", &records::EVENTS_65),
            ("Name length 33", &records::NAME_33),
        ],
    );
}

fn permutations(rt: &impl Print) {
    for (first, then) in [(1, 6), (9, 9), (1, 2), (2, 1)] {
        let both = litmus::composite(first, then);
        say(rt, format_args!("First {first} then {then} is {both}\n"));
    }
    say(
        rt,
        format_args!("The inverse of 3 is {}\n", litmus::inverse(3)),
    );
}

fn main(rt: HostRuntime) {
    orders_and_values(&rt);
    known_tests(&rt);
    second_edition(&rt);
    unfit_dependencies(&rt);
    ranges(&rt);
    number_forms(&rt);
    values_of_every_width(&rt);
    unprintable_names(&rt);
    renumbered(
        &rt,
        "Small record, addresses by 6",
        &records::SMALL,
        0,
        6,
        2,
    );
    renumbered(
        &rt,
        "Small record, addresses by 1",
        &records::SMALL,
        0,
        1,
        2,
    );
    permutations(&rt);
}
