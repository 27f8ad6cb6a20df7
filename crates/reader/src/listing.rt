// The events of a record, for what stands behind them.
ghost use Rattle.std.specs.Prelude.{◌≤◌};
ghost use Rattle.model.specs.Limits.{most_events};

use case::Case;

// How many events are listed, and by event its kind, its thread and its address.
#[derive(Clone, Copy)]
pub struct Listed<'a> {
    pub count: usize,
    pub kinds: &'a [u8; Case::MOST_EVENTS],
    pub owners: &'a [u8; Case::MOST_EVENTS],
    pub targets: &'a [u8; Case::MOST_EVENTS],
    ghost few: { count ≤ most_events },
}
