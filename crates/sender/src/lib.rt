// The sender's list, as sizes and definitions; crates `sender_list` and `sender_acks` have the calls.
#![tactic(auto)]

// So many packets are outstanding at most, and the last number that is given out: specs/Sizes.antt.
pub const MOST_OUTSTANDING: usize = 256;

pub const LAST_NUMBER: u32 = 4294967295;

// Where things stand in the record: the count of outstanding packets, the packets, and their bytes each.
// A count and the packets behind it, in the record's bytes that C keeps.
pub const OUTSTANDING_AT: usize = 4;

pub const PACKETS_AT: usize = 8;

pub const PACKET_SIZE: usize = 16;

// The bytes of a sender's record.
pub const SENDER_SIZE: usize = 4104;

// A packet: its number, the second it was sent under that number, and how often it had been resent by then.
#[derive(Clone, Copy, Debug, PartialEq, Eq)]
pub struct Packet {
    pub number: u32,
    pub second: u64,
    pub resends: u32,
}
