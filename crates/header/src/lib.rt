// The SSU2 header: its types, with the definitions of reading and writing one and their laws. What reads and writes it stands in the crates above.
#![tactic(auto)]

// The fields of a header of 32 or 64 bytes: the Rust's dst_id, pkt_num, version, net_id, src_id and token.
#[derive(Clone, Copy)]
pub struct Long {
    pub destination: u64,
    pub number: u32,
    pub version: u8,
    pub network: u8,
    pub source: u64,
    pub token: u64,
}

// A header that was read. SessionRequest and SessionCreated have a key of 32 bytes at 32.
#[derive(Clone, Copy)]
pub enum HeaderKind {
    SessionRequest(Long),
    SessionCreated(Long),
    SessionConfirmed {
        destination: u64,
        number: u32,
        fragment: u8,
        count: u8,
    },
    Data {
        destination: u64,
        number: u32,
        immediate: bool,
    },
    PeerTest(Long),
    Retry(Long),
    TokenRequest(Long),
    HolePunch(Long),
}

// What is to be written: the type by its number, and the fields that it has; the others are passed over.
// The type stays a number: a caller may pass any byte, 21 refuses those that are none, and the definitions speak of the number.
#[derive(Clone, Copy)]
pub struct Fields {
    pub kind: u8,
    pub destination: u64,
    pub number: u32,
    pub version: u8,
    pub network: u8,
    pub source: u64,
    pub token: u64,
    pub fragment: u8,
    pub count: u8,
    pub immediate: bool,
}
