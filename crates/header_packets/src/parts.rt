// The fields of a plain header, read and put.
ghost use Rattle.std.specs.Prelude.{◌≡◌, [], ◌∷◌, ◌≤◌, length};
ghost use Rattle.header.specs.Unmasking.{packet_kind};
ghost use Rattle.header.specs.Reading.{long_at, header_at};
ghost use Rattle.header.specs.Writing.{byte13, byte14, plain};
ghost use Rattle.header_kinds.specs.Types.{number};

use header::{Fields, HeaderKind, Long};
use header_kinds::MessageType;

// The fields of a header of 32 or 64 bytes.
fn long_at(header: &[u8; 32]) -> Long
    ensures { result ≡ long_at header.now }
{
    Long {
        destination: wire_numbers::le(header, 0),
        number: wire_numbers::be(header, 8),
        version: header[13],
        network: header[14],
        source: wire_numbers::le(header, 16),
        token: wire_numbers::le(header, 24),
    }
}

// The fields of a packet of this type, in its first 32 bytes.
#[tactic(auto, unfolding(header::specs::Reading::header_at, header::specs::Reading::long_header))]
pub(crate) fn header_at(header: &[u8; 32], kind: MessageType) -> HeaderKind
    requires { number kind ≡ packet_kind header.now }
    ensures { result ≡ header_at header.now }
{
    match kind {
        MessageType::SessionRequest => HeaderKind::SessionRequest(long_at(header)),
        MessageType::SessionCreated => HeaderKind::SessionCreated(long_at(header)),
        MessageType::SessionConfirmed => HeaderKind::SessionConfirmed {
            destination: wire_numbers::le(header, 0),
            number: wire_numbers::be(header, 8),
            fragment: header[13] / 16,
            count: header[13] % 16,
        },
        MessageType::Data => HeaderKind::Data {
            destination: wire_numbers::le(header, 0),
            number: wire_numbers::be(header, 8),
            immediate: header[13] % 2 == 1,
        },
        MessageType::PeerTest => HeaderKind::PeerTest(long_at(header)),
        MessageType::Retry => HeaderKind::Retry(long_at(header)),
        MessageType::TokenRequest => HeaderKind::TokenRequest(long_at(header)),
        MessageType::HolePunch => HeaderKind::HolePunch(long_at(header)),
    }
}

// Bytes 12 to 15: the type, the two that go by it, and 0.
#[tactic(auto, unfolding(header::specs::Writing::byte13, header::specs::Writing::byte14))]
fn type_bytes(f: Fields, kind: MessageType) -> [u8; 4]
    requires { number kind ≡ f.kind }
    ensures { result ≡ f.kind ∷ byte13 f ∷ byte14 f ∷ 0 ∷ [] }
{
    match kind {
        MessageType::SessionConfirmed => [f.kind, f.fragment % 16 * 16 + f.count % 16, 0, 0],
        MessageType::Data => [f.kind, u8::from(f.immediate), 0, 0],
        _ => [f.kind, f.version, f.network, 0],
    }
}

// The plain header, from the packet's start.
pub(crate) fn put_header(f: Fields, kind: MessageType, pkt: &mut [u8])
    requires { (32 ≤ length pkt.old) × (number kind ≡ f.kind) }
    ensures { pkt.new ≡ plain f pkt.old }
{
    let last = type_bytes(f, kind);
    wire_numbers::put_le(pkt, 0, f.destination);
    wire_numbers::put_be(pkt, 8, f.number);
    pkt[12..16].copy_from_slice(&last);
    if kind.is_short() {
        return;
    }
    wire_numbers::put_le(pkt, 16, f.source);
    wire_numbers::put_le(pkt, 24, f.token);
}
