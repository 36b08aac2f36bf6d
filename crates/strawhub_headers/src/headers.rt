// Header calls.
ghost use Rattle.std.specs.Prelude.{◌≡◌, length};
ghost use Rattle.header.specs.Reading.{header_answer, packet_after_read};
ghost use Rattle.header.specs.Writing.{write_number, packet_after_write};
ghost use Rattle.numbers.specs.Headers.{answer_number, answer_numbers, fields_by};

use header::Fields;

// Reads a packet's header with two keys and leaves the packet unmasked, its fields in out; refused, both are as they came.
#[unsafe(no_mangle)]
pub extern "C" fn strawhub_header_read(
    pkt: &mut [u8],
    k1: &[u8; 32],
    k2: &[u8; 32],
    out: &mut [u64; 11],
) -> u32
    ensures { (result ≡ answer_number (header_answer k1.now k2.now pkt.old)) × (pkt.new ≡ packet_after_read k1.now k2.now pkt.old) × (out.new ≡ answer_numbers (header_answer k1.now k2.now pkt.old) out.old) }
{
    match header_packets::read(pkt, k1, k2) {
        Ok(header) => {
            *out = numbers_headers::kind_numbers(header);
            0
        }
        Err(refusal) => u32::from(refusal.number()),
    }
}

// Writes and masks a header by numbers; the answer is 0 or the refusal, and refused the packet is as it came. Any flag but 0 asks for an immediate ack.
#[unsafe(no_mangle)]
pub extern "C" fn strawhub_header_write(
    pkt: &mut [u8],
    k1: &[u8; 32],
    k2: &[u8; 32],
    kind: u8,
    destination: u64,
    number: u32,
    version: u8,
    network: u8,
    source: u64,
    token: u64,
    fragment: u8,
    count: u8,
    immediate: u8,
) -> u32
    ensures { (result ≡ write_number (fields_by kind destination number version network source token fragment count immediate) (length pkt.old)) × (pkt.new ≡ packet_after_write k1.now k2.now (fields_by kind destination number version network source token fragment count immediate) pkt.old) }
{
    let f = Fields {
        kind,
        destination,
        number,
        version,
        network,
        source,
        token,
        fragment,
        count,
        immediate: immediate != 0,
    };
    u32::from(refusals::number_of(header_packets::write(f, pkt, k1, k2)))
}
