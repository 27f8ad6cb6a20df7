// A state of the storage subsystem by value: what a trace's steps have made of it so far.
#![tactic(auto)]

ghost use Rattle.std.specs.Prelude.{◌≡◌};
ghost use Rattle.storage.specs.Held.{empty_storage};

use case::Case;

// Its fields and their order are those of litmus_storage in include/litmus.h, where class is barrier_class.
#[repr(C)]
#[derive(Clone, Copy)]
pub struct Storage {
    // how many threads and addresses
    pub threads: usize,
    pub addresses: usize,
    // by address
    pub initial: [u32; Case::MOST_ADDRESSES],
    // how many writes were accepted; by write
    pub writes: usize,
    pub writer: [u8; Storage::MOST_WRITES],
    pub address: [u8; Storage::MOST_WRITES],
    pub value: [u32; Storage::MOST_WRITES],
    // by write b: bit a says that write a is before b in coherence order
    pub before: [u64; Storage::MOST_WRITES],
    // how many barriers were accepted; by barrier
    pub barriers: usize,
    pub owner: [u8; Storage::MOST_BARRIERS],
    pub class: [u8; Storage::MOST_BARRIERS],
    // by barrier: 1 where it is a sync that has not been acknowledged
    pub unacknowledged: [u8; Storage::MOST_BARRIERS],
    // by thread: how many events have been propagated to it
    pub listed: [usize; Case::MOST_THREADS],
    // and which, MOST_LISTED places each: a write by its number, a barrier by its number and MOST_WRITES
    pub events: [u8; Case::MOST_THREADS * Storage::MOST_LISTED],
}

impl Storage {
    pub const MOST_WRITES: usize = 16;

    pub const MOST_BARRIERS: usize = 8;

    // each write and each barrier stands in a thread's list at most once
    pub const MOST_LISTED: usize = Storage::MOST_WRITES + Storage::MOST_BARRIERS;

    // the classes of barriers; numbers and not an enum, as the arrays of C hold any byte
    pub const SYNC: u8 = 0;

    pub const LWSYNC: u8 = 1;

    pub const CLASSES: usize = 2;

    // A state of no threads, with nothing in it: what stands beside a refusal.
    pub fn empty() -> Storage
        ensures { result ≡ empty_storage }
    {
        Storage {
            threads: 0,
            addresses: 0,
            initial: [0u32; Case::MOST_ADDRESSES],
            writes: 0,
            writer: [0u8; Storage::MOST_WRITES],
            address: [0u8; Storage::MOST_WRITES],
            value: [0u32; Storage::MOST_WRITES],
            before: [0u64; Storage::MOST_WRITES],
            barriers: 0,
            owner: [0u8; Storage::MOST_BARRIERS],
            class: [0u8; Storage::MOST_BARRIERS],
            unacknowledged: [0u8; Storage::MOST_BARRIERS],
            listed: [0usize; Case::MOST_THREADS],
            events: [0u8; Case::MOST_THREADS * Storage::MOST_LISTED],
        }
    }
}
