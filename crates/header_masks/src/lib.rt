// The three masks of a header. Both nonces are taken before anything changes: at 64 bytes they lie in the long header.
#![tactic(auto)]

ghost use Rattle.std.specs.Prelude.{◌≡◌, ◌+◌, ◌≤◌, length, get_or};
ghost use Rattle.wire.specs.Parts.{part, splice};
ghost use Rattle.header.specs.Kinds.{masked_length};
ghost use Rattle.header.specs.Unmasking.{front, rest};

use header_kinds::long_of;

// N bytes of a packet.
fn array_at<const N: usize>(pkt: &[u8], at: usize) -> [u8; N]
    requires { at + N ≤ length pkt.now }
    ensures { result ≡ part pkt.now at N }
{
    let end = at + N;
    pkt[at..end].try_into().unwrap()
}

// The first 16 bytes of a packet, unmasked in a copy.
// The keys stay two references, as header_packets says.
pub fn front_of(pkt: &[u8], k1: &[u8; 32], k2: &[u8; 32]) -> [u8; 16]
    requires { 40 ≤ length pkt.now }
    ensures { result ≡ part (front k1.now k2.now pkt.now) 0 16 }
{
    let n = pkt.len();
    let first = array_at::<12>(pkt, n - 24);
    let second = array_at::<12>(pkt, n - 12);
    let mut head = array_at::<16>(pkt, 0);
    keystream::mask(&mut head, 0, 8, k1, 1, &first);
    keystream::mask(&mut head, 8, 8, k2, 1, &second);
    head
}

// The bytes from 16 on that a type has masked.
// The clause on 16 + masked_length, here and in the next two, is of the type and the packet together, so no type of one holds it.
#[tactic(auto, using(header::proofs::Fronts::rest_none, header::proofs::Fronts::rest_is, header::proofs::Refusals::long_le))]
fn mask_rest(pkt: &mut [u8], t: u8, k2: &[u8; 32])
    requires { 16 + masked_length t ≤ length pkt.old }
    ensures { pkt.new ≡ rest k2.now t pkt.old }
{
    let n = long_of(t);
    // the short headers need no block of keystream
    if n == 0 {
        return;
    }
    keystream::mask(pkt, 16, n, k2, 1, &[0; 12]);
}

// The unmasked front stored, and the rest unmasked.
// unmask and mask take any number as the type, as docs/FREE.md names them; where they are called below a judge, it is that of a type.
pub fn unmask(pkt: &mut [u8], head: &[u8; 16], k2: &[u8; 32])
    requires { (16 ≤ length pkt.old) × (16 + masked_length (get_or head.now 12 0) ≤ length pkt.old) }
    ensures { pkt.new ≡ rest k2.now (get_or head.now 12 0) (splice pkt.old 0 head.now) }
{
    pkt[..16].copy_from_slice(head);
    mask_rest(pkt, head[12], k2);
}

// The plain header of a packet masked, the rest of it first.
pub fn mask(pkt: &mut [u8], t: u8, k1: &[u8; 32], k2: &[u8; 32])
    requires { (40 ≤ length pkt.old) × (16 + masked_length t ≤ length pkt.old) }
    ensures { pkt.new ≡ front k1.now k2.now (rest k2.now t pkt.old) }
{
    mask_rest(pkt, t, k2); // the nonces of the front are of what this leaves
    let head = front_of(pkt, k1, k2);
    pkt[..16].copy_from_slice(&head);
}
