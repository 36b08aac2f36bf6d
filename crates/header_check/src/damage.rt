// Damaged copies of packets: the masks are XORs, so a bit changed in a masked byte is that bit changed in the plain one.
// as: std has no From between these widths; each number fits its place, or is cut on purpose.
use crate::fields::Packet;
use header::Fields;
use refusals::Refusal;

// Whether reading a packet's first n bytes is refused so and leaves every byte as it was.
fn refused(p: &Packet, bytes: [u8; 1500], n: usize, refusal: Refusal) -> bool {
    let mut work = bytes;
    let Some(part) = work.get_mut(..n) else {
        return false;
    };
    match header_packets::read(part, &p.k1, &p.k2) {
        Err(r) => r == refusal && work == bytes,
        Ok(_) => false,
    }
}

// The low byte of a number.
fn low(x: u64) -> u8 {
    (x % 256) as u8
}

// Cut to 39 bytes: 20.
pub(crate) fn too_short(p: &Packet) -> bool {
    refused(p, p.bytes, 39, Refusal::PacketShort)
}

// Type 3 in the place of its own: 21.
pub(crate) fn other_type(p: &Packet) -> bool {
    let mut bytes = p.bytes;
    bytes[12] ^= low(p.kind) ^ 3;
    refused(p, bytes, p.len, Refusal::Type)
}

// Version 5 in the place of its own: 22.
pub(crate) fn other_version(p: &Packet) -> bool {
    let mut bytes = p.bytes;
    bytes[13] ^= low(p.thirteen) ^ 5;
    !p.is_short() && refused(p, bytes, p.len, Refusal::Version)
}

// A Data packet under 64 bytes as a SessionRequest of version 2: 23.
pub(crate) fn no_room_for_key(p: &Packet) -> bool {
    let mut bytes = p.bytes;
    bytes[12] ^= 6;
    bytes[13] ^= low(p.thirteen) ^ 2;
    p.kind == 6 && refused(p, bytes, p.len, Refusal::KeyMissing)
}

// A Data packet as a SessionConfirmed, which has number 0 only: 24.
pub(crate) fn numbered(p: &Packet) -> bool {
    let mut bytes = p.bytes;
    bytes[12] ^= 4;
    p.kind == 6 && refused(p, bytes, p.len, Refusal::ConfirmedNumber)
}

// A header to be written into so many bytes, and why that is refused.
#[derive(Clone, Copy)]
struct Case {
    kind: u8,
    number: u32,
    version: u8,
    fragment: u8,
    room: usize,
    refusal: Refusal,
}

impl Case {
    // Whether writing is refused so and leaves every byte as it was.
    fn is_refused(&self) -> bool {
        let f = Fields {
            kind: self.kind,
            destination: 1,
            number: self.number,
            version: self.version,
            network: 2,
            source: 3,
            token: 4,
            fragment: self.fragment,
            count: 1,
            immediate: true,
        };
        let mut work = [7u8; 1500];
        let Some(part) = work.get_mut(..self.room) else {
            return false;
        };
        header_packets::write(f, part, &[1; 32], &[2; 32]) == Err(self.refusal)
            && work == [7u8; 1500]
    }
}

fn write_case(
    kind: u8,
    number: u32,
    version: u8,
    fragment: u8,
    room: usize,
    refusal: Refusal,
) -> Case {
    Case {
        kind,
        number,
        version,
        fragment,
        room,
        refusal,
    }
}

// How many of nine writes are refused as they should be: each number, in the order in which they are tested, and one byte short of each header.
pub(crate) fn written() -> usize {
    [
        write_case(3, 1, 5, 16, 39, Refusal::Type),
        write_case(0, 1, 5, 16, 39, Refusal::Version),
        write_case(2, 1, 5, 16, 39, Refusal::ConfirmedNumber),
        write_case(2, 0, 5, 16, 39, Refusal::Nibble),
        write_case(2, 0, 5, 15, 39, Refusal::PacketShort),
        write_case(6, 1, 5, 16, 39, Refusal::PacketShort),
        write_case(9, 1, 4, 16, 55, Refusal::PacketShort),
        write_case(1, 1, 3, 16, 87, Refusal::PacketShort),
        write_case(11, 1, 1, 0, 96, Refusal::Version),
    ]
    .iter()
    .filter(|c| c.is_refused())
    .count()
}
