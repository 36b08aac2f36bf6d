// The header types, and the order of the refusals of a header.
#![tactic(auto)]

ghost use Rattle.std.specs.Prelude.{◌≡◌, ◌&&◌, ◌||◌, not, eqb, ltb, get_or};
ghost use Rattle.header.specs.Kinds.{is_keyed, is_short, is_version, masked_length, need_of};
ghost use Rattle.header.specs.Reading.{front_refusal};
ghost use Rattle.header.specs.Writing.{write_number};
ghost use Rattle.header_kinds.specs.Types.{number, typed, type_of, judged};

use header::Fields;
use refusals::Refusal;

// The types of a header, in the names of the Rust crate. The value is the type's number.
#[derive(Clone, Copy, Debug, PartialEq, Eq, Hash)]
pub enum MessageType {
    SessionRequest = 0,
    SessionCreated = 1,
    SessionConfirmed = 2,
    Data = 6,
    PeerTest = 7,
    Retry = 9,
    TokenRequest = 10,
    HolePunch = 11,
}

impl TryFrom<u8> for MessageType {
    type Error = Refusal;

    ghost try_from_gives = { λ t result. typed result ≡ type_of t };

    #[tactic(auto, unfolding(header::specs::Kinds::is_listed))]
    fn try_from(t: u8) -> Result<MessageType, Refusal> {
        match t {
            0 => Ok(MessageType::SessionRequest),
            1 => Ok(MessageType::SessionCreated),
            2 => Ok(MessageType::SessionConfirmed),
            6 => Ok(MessageType::Data),
            7 => Ok(MessageType::PeerTest),
            9 => Ok(MessageType::Retry),
            10 => Ok(MessageType::TokenRequest),
            11 => Ok(MessageType::HolePunch),
            _ => Err(Refusal::Type),
        }
    }
}

// Whether a number is that of a type with a header of 16 bytes. Of any number: docs/FREE.md names it and long_of so.
pub fn is_short(t: u8) -> bool
    ensures { result ≡ is_short t }
{
    matches!(t, 2 | 6)
}

// How many bytes from 16 on a number's type has masked.
#[tactic(auto, unfolding(header::specs::Kinds::masked_length))]
pub fn long_of(t: u8) -> usize
    ensures { result ≡ masked_length t }
{
    match t {
        0 | 1 => 48,
        2 | 6 => 0,
        _ => 16,
    }
}

impl MessageType {
    // A header of 64 bytes, the last 32 a key. This and the next are two sets of types: a test with the set as a parameter would be no plainer.
    fn is_keyed(self) -> bool
        ensures { result ≡ is_keyed (number self) }
    {
        matches!(
            self,
            MessageType::SessionRequest | MessageType::SessionCreated
        )
    }

    // A header of 16 bytes.
    pub fn is_short(self) -> bool
        ensures { result ≡ is_short (number self) }
    {
        is_short(self as u8)
    }

    // The one type with a packet number that must be 0, and with fragment and count.
    fn is_confirmed(self) -> bool
        ensures { result ≡ eqb (number self) 2 }
    {
        matches!(self, MessageType::SessionConfirmed)
    }

    // The short headers have no version; the others have one that 01 lists.
    fn takes_version(self, v: u8) -> bool
        ensures { not result ≡ not (is_short (number self)) && not (is_version v) }
    {
        self.is_short() || is_version(v)
    }

    // How long a packet must be to be written. An arm a kind, as in long_of: one function of both would take the numbers as parameters.
    #[tactic(auto, unfolding(header::specs::Kinds::need_of))]
    fn need(self) -> usize
        ensures { result ≡ need_of (number self) }
    {
        match self {
            MessageType::SessionRequest | MessageType::SessionCreated => 88,
            MessageType::SessionConfirmed | MessageType::Data => 40,
            _ => 56,
        }
    }
}

#[tactic(auto, unfolding(header::specs::Kinds::is_version))]
fn is_version(v: u8) -> bool
    ensures { result ≡ is_version v }
{
    matches!(v, 2 | 3 | 4)
}

// A header with a key has so many bytes.
const KEYED_SIZE: usize = 64;

// The type of a packet of n bytes whose first 16 are these, or its refusal.
pub fn judge_read(head: &[u8; 16], n: usize) -> Result<MessageType, Refusal>
    ensures { typed result ≡ judged (get_or head.now 12 0) (front_refusal head.now n) }
{
    let kind = MessageType::try_from(head[12])?;
    let number = wire_numbers::be::<u32>(head, 8);
    if !kind.takes_version(head[13]) {
        return Err(Refusal::Version);
    }
    if kind.is_keyed() && n < KEYED_SIZE {
        return Err(Refusal::KeyMissing);
    }
    if kind.is_confirmed() && number != 0 {
        return Err(Refusal::ConfirmedNumber);
    }
    Ok(kind)
}

// Fragment and count have four bits each.
fn are_nibbles(fragment: u8, count: u8) -> bool
    ensures { not result ≡ ltb 15 fragment || ltb 15 count }
{
    fragment <= 15 && count <= 15
}

// The type of these fields in a packet of n bytes, or their refusal.
pub fn judge_write(f: Fields, n: usize) -> Result<MessageType, Refusal>
    ensures { typed result ≡ judged f.kind (write_number f n) }
{
    let kind = MessageType::try_from(f.kind)?;
    let confirmed = kind.is_confirmed();
    let nibbles = are_nibbles(f.fragment, f.count);
    if !kind.takes_version(f.version) {
        return Err(Refusal::Version);
    }
    if confirmed && f.number != 0 {
        return Err(Refusal::ConfirmedNumber);
    }
    if confirmed && !nibbles {
        return Err(Refusal::Nibble);
    }
    if n < kind.need() {
        return Err(Refusal::PacketShort);
    }
    Ok(kind)
}
