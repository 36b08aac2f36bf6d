// Acknowledgements: which packet numbers came, and what to tell the sender. The Rust's `ack.rs`, as types and definitions; crates `acks_tracker`, `acks_reports` and `acks_expand` have the calls.
#![tactic(auto)]

ghost use Rattle.std.specs.Prelude.{◌≡◌, [], take};
ghost use Rattle.acks.specs.Reporting.{padded};

// The bytes of a tracker's record, and where its marks begin there: specs/Recorded.antt.
pub const TRACKER_SIZE: usize = 259;

pub const MARKS_AT: usize = 4;

// The highest number seen, and the marks of the 255 numbers that end there. The Rust's `RemoteAckManager`.
#[derive(Clone, Copy)]
pub struct Tracker {
    pub highest: u32,
    pub marks: [u8; 255],
}

// The pairs of a report, as an Ack block has them: len bytes of missing, received, missing, received. No heap, so they stand at the front of the 254 that there can be.
#[derive(Clone, Copy, Debug, PartialEq, Eq)]
pub struct PairBytes {
    pub bytes: [u8; 254],
    pub len: usize,
}

impl PairBytes {
    #[tactic(auto, unfolding(crate::specs::Reporting::padded))]
    pub fn none() -> PairBytes
        ensures { (result.bytes ≡ padded []) × (result.len ≡ 0) }
    {
        PairBytes {
            bytes: [0; 254],
            len: 0,
        }
    }

    pub fn as_slice(&self) -> &[u8]
        ensures { result.now ≡ take self.now.len self.now.bytes }
    {
        &self.bytes[..self.len.min(254)]
    }
}

// A report, what an Ack block says: the highest number, the count of received numbers directly below it, and the pairs.
#[derive(Clone, Copy, Debug, PartialEq, Eq)]
pub struct AckInfo {
    pub through: u32,
    pub count: u8,
    pub pairs: PairBytes,
}

// What an expansion answers: 44, 46, or 0 and how many numbers it named.
// Number and count in one struct, for it is given to C; in Rust an expansion answers a Result.
#[repr(C)]
#[derive(Clone, Copy)]
pub struct Expanded {
    pub number: u32,
    pub count: usize,
}
