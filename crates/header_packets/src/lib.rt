// The SSU2 header of a packet: unmasked and read, written and masked, one call each.
#![tactic(auto)]

mod parts;

ghost use Rattle.std.specs.Prelude.{◌≡◌, length};
ghost use Rattle.refusals.specs.Numbers.{number_of, numbered};
ghost use Rattle.header.specs.Reading.{header_answer, packet_after_read};
ghost use Rattle.header.specs.Writing.{write_number, packet_after_write};

use header::{Fields, HeaderKind};
use refusals::Refusal;

// The keys stay two references: C and the definitions pass two, and the rest of a header is masked by the second alone.

// Reads a packet's header with two keys and leaves the packet unmasked; refused, it is as it came.
pub fn read(pkt: &mut [u8], k1: &[u8; 32], k2: &[u8; 32]) -> Result<HeaderKind, Refusal>
    ensures { (numbered result ≡ header_answer k1.now k2.now pkt.old) × (pkt.new ≡ packet_after_read k1.now k2.now pkt.old) }
{
    let n = pkt.len();
    if n < 40 {
        return Err(Refusal::PacketShort);
    }
    let head = header_masks::front_of(pkt, k1, k2);
    let kind = header_kinds::judge_read(&head, n)?;
    header_masks::unmask(pkt, &head, k2);
    let header = pkt.first_chunk().unwrap();
    Ok(parts::header_at(header, kind))
}

// Writes and masks the header of a packet whose tail is in place, and for types 0 and 1 its key; refused, the packet is as it came.
pub fn write(f: Fields, pkt: &mut [u8], k1: &[u8; 32], k2: &[u8; 32]) -> Result<(), Refusal>
    ensures { (number_of result ≡ write_number f (length pkt.old)) × (pkt.new ≡ packet_after_write k1.now k2.now f pkt.old) }
{
    let kind = header_kinds::judge_write(f, pkt.len())?;
    parts::put_header(f, kind, pkt);
    header_masks::mask(pkt, f.kind, k1, k2);
    Ok(())
}
