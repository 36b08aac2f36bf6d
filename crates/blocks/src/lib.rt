// SSU2 blocks: the table of their bodies, and what came of reading and writing them. No code: the definitions and their laws, for the crates that read and write.
#![tactic(auto)]

use refusals::Refusal;

// Bytes of the payload: where they start, and how many they are.
// Not a slice: C is told place and length, and the definitions speak of them.
#[derive(Clone, Copy, Debug, PartialEq, Eq)]
pub struct Part {
    pub start: usize,
    pub len: usize,
}

// A type is a number: each of the 256 is a block that is read and listed, so no enum holds them; those that a caller asks for have names.
// Types that a caller asks for by name.
pub const I2NP: u8 = 3;

pub const FIRST_FRAGMENT: u8 = 4;

pub const FOLLOW_ON_FRAGMENT: u8 = 5;

pub const ACK: u8 = 12;

// Their fields, among a block's eight numbers. A follow-on's first byte is number * 2 + last.
pub const MESSAGE_TYPE: usize = 0;

pub const MESSAGE_ID: usize = 1;

pub const MESSAGE_EXPIRATION: usize = 2;

pub const FOLLOW_ON_BYTE: usize = 0;

pub const FOLLOW_ON_ID: usize = 1;

pub const ACK_THROUGH: usize = 0;

pub const ACK_COUNT: usize = 1;

// What follows the fields of a body.
#[derive(Clone, Copy, Debug, PartialEq, Eq)]
pub enum After {
    // Nothing.
    Nothing,
    // Bytes, as many as there are.
    Any,
    // Bytes, one or more.
    Some,
    // Pairs of bytes.
    Pairs,
    // The 4 or 16 bytes of an IP.
    Ip,
}

// A block's first three bytes: its type and its size field as it stands.
#[derive(Clone, Copy, Debug, PartialEq, Eq)]
pub struct Head {
    pub kind: u8,
    pub size: u16,
}

// Where a block ends: its type, its size field as it stands and the place after it.
#[derive(Clone, Copy, Debug, PartialEq, Eq)]
pub struct End {
    pub kind: u8,
    pub size: u16,
    pub next: usize,
}

// A block that was read: where it ends; its fields in 01's order, 0 where a type has fewer than eight; the bytes after them.
#[derive(Clone, Copy, Debug, PartialEq, Eq)]
pub struct Block {
    pub kind: u8,
    pub size: u16,
    pub next: usize,
    pub fields: [u64; 8],
    pub bytes: Part,
}

// Why a block was not read, and the place of its type byte.
#[derive(Clone, Copy, Debug, PartialEq, Eq)]
pub struct RefusedAt {
    pub refusal: Refusal,
    pub place: usize,
}
