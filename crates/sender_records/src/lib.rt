// The fields of a sender's record, in lent bytes: the highest number given out, how many packets are outstanding, and the packets, the oldest first.
// The record is a slice with a clause: an array would shut out longer slices, and a struct round a `&mut` slice has each function promise that its field stays the same reference.
// u32 and usize are turned with as: std has no From between them, and each number is proved to fit.
#![tactic(auto)]

ghost use Rattle.std.specs.Prelude.{◌≡◌, ◌++◌, ◌+◌, ◌*◌, ◌<◌, ◌≤◌, length};
ghost use Rattle.wire.specs.Parts.{part, splice};
ghost use Rattle.wire.specs.Numbers.{little_at, little_bytes};
ghost use Rattle.sender.specs.Sizes.{most_outstanding, packets_at, packet_size, sender_size};
ghost use Rattle.sender.specs.Recorded.{outstanding_count, packet_at, packet_bytes};
ghost use Rattle.sender.specs.Packets.{packet_as};

use sender::{MOST_OUTSTANDING, OUTSTANDING_AT, PACKET_SIZE, PACKETS_AT, Packet};

// The highest number given out.
pub fn highest_of(rec: &[u8]) -> u32
    requires { sender_size ≤ length rec.now }
    ensures { result ≡ little_at 4 rec.now 0 }
{
    wire_numbers::le(rec, 0)
}

// How many packets are outstanding: a count above 256 is read as 256.
pub fn count_of(rec: &[u8]) -> usize
    requires { sender_size ≤ length rec.now }
    ensures { (result ≡ outstanding_count rec.now) × (result ≤ most_outstanding) }
{
    let n = wire_numbers::le::<u32>(rec, OUTSTANDING_AT) as usize;
    n.min(MOST_OUTSTANDING)
}

// The highest number and the count, put in front.
pub fn put_head(rec: &mut [u8], highest: u32, count: usize)
    requires { (sender_size ≤ length rec.old) × (count ≤ most_outstanding) }
    ensures { rec.new ≡ splice rec.old 0 (little_bytes 4 highest ++ little_bytes 4 count) }
{
    wire_numbers::put_le(rec, 0, highest);
    wire_numbers::put_le(rec, OUTSTANDING_AT, count as u32);
}

// The number of the k-th packet, for searches that need no more of it.
#[tactic(auto, unfolding(sender::specs::Recorded::packet_at))]
pub fn number_at(rec: &[u8], k: usize) -> u32
    requires { (sender_size ≤ length rec.now) × (k < most_outstanding) }
    ensures { result ≡ (packet_at rec.now k).number }
{
    wire_numbers::le(rec, PACKETS_AT + k * PACKET_SIZE)
}

// The k-th packet.
#[tactic(auto, unfolding(sender::specs::Recorded::packet_at))]
pub fn packet_at(rec: &[u8], k: usize) -> Packet
    requires { (sender_size ≤ length rec.now) × (k < most_outstanding) }
    ensures { packet_as result ≡ packet_at rec.now k }
{
    let at = PACKETS_AT + k * PACKET_SIZE;
    Packet {
        number: wire_numbers::le(rec, at),
        resends: wire_numbers::le(rec, at + 4),
        second: wire_numbers::le(rec, at + 8),
    }
}

// A packet stands as the k-th.
pub fn put_packet(rec: &mut [u8], k: usize, packet: Packet)
    requires { (sender_size ≤ length rec.old) × (k < most_outstanding) }
    ensures { rec.new ≡ splice rec.old (packets_at + k * packet_size) (packet_bytes (packet_as packet)) }
{
    let at = PACKETS_AT + k * PACKET_SIZE;
    wire_numbers::put_le(rec, at, packet.number);
    wire_numbers::put_le(rec, at + 4, packet.resends);
    wire_numbers::put_le(rec, at + 8, packet.second);
}

// n packets from the k-th on move down to the j-th.
pub fn move_to(rec: &mut [u8], j: usize, k: usize, n: usize)
    requires { (sender_size ≤ length rec.old) × (j ≤ k) × (k + n ≤ most_outstanding) }
    ensures { rec.new ≡ splice rec.old (packets_at + j * packet_size) (part rec.old (packets_at + k * packet_size) (n * packet_size)) }
{
    wire::move_down(
        rec,
        PACKETS_AT + j * PACKET_SIZE,
        PACKETS_AT + k * PACKET_SIZE,
        n * PACKET_SIZE,
    );
}
