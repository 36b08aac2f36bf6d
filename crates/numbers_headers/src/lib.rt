// A header by numbers.
#![tactic(auto)]

ghost use Rattle.std.specs.Prelude.{◌≡◌};
ghost use Rattle.header_kinds.specs.Types.{number};
ghost use Rattle.numbers.specs.Headers.{long_numbers, kind_numbers};

use header::{HeaderKind, Long};
use header_kinds::MessageType;

// A header of 32 or 64 bytes, with the place of its key.
// as u64: the enum's value is its number.
fn long_numbers(kind: MessageType, key: u64, l: Long) -> [u64; 11]
    ensures { result ≡ long_numbers (number kind) key l }
{
    [
        kind as u64,
        u64::from(l.version),
        u64::from(l.network),
        0,
        0,
        0,
        u64::from(l.number),
        l.destination,
        l.source,
        l.token,
        key,
    ]
}

// A header's numbers, by the places that the C calls have them at.
pub fn kind_numbers(header: HeaderKind) -> [u64; 11]
    ensures { result ≡ kind_numbers header }
{
    match header {
        HeaderKind::SessionRequest(l) => long_numbers(MessageType::SessionRequest, 32, l),
        HeaderKind::SessionCreated(l) => long_numbers(MessageType::SessionCreated, 32, l),
        HeaderKind::SessionConfirmed {
            destination,
            number,
            fragment,
            count,
        } => [
            MessageType::SessionConfirmed as u64,
            0,
            0,
            u64::from(fragment),
            u64::from(count),
            0,
            u64::from(number),
            destination,
            0,
            0,
            0,
        ],
        HeaderKind::Data {
            destination,
            number,
            immediate,
        } => [
            MessageType::Data as u64,
            0,
            0,
            0,
            0,
            u64::from(immediate),
            u64::from(number),
            destination,
            0,
            0,
            0,
        ],
        HeaderKind::PeerTest(l) => long_numbers(MessageType::PeerTest, 0, l),
        HeaderKind::Retry(l) => long_numbers(MessageType::Retry, 0, l),
        HeaderKind::TokenRequest(l) => long_numbers(MessageType::TokenRequest, 0, l),
        HeaderKind::HolePunch(l) => long_numbers(MessageType::HolePunch, 0, l),
    }
}
