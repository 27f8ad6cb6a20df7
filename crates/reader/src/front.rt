// What stands in front of a record.
ghost use Rattle.reader.specs.Counts.{Counts};

// The edition, and how many threads and addresses.
#[derive(Clone, Copy)]
pub struct Head {
    pub edition: usize,
    pub threads: usize,
    pub addresses: usize,
    ghost in_range: { Counts threads addresses },
}
