// The refusals of document 01 and of its change requests. A call answers `Err` of one of them; its number is made for C alone.
#![tactic(auto)]

ghost use Rattle.std.specs.Prelude.{◌≡◌, ℕ};
ghost use Rattle.refusals.specs.Numbers.{number, number_of};

// Why a call refused, in the names of the Rust crate. The value is the refusal's number.
#[derive(Clone, Copy, Debug, PartialEq, Eq, Hash)]
pub enum Refusal {
    // The bytes end inside a block or before one.
    EndsInsideBlock = 1,
    // A RouterInfo block has a size of 2 or less.
    RouterInfoSize = 2,
    // The I2NP message type is not a listed one.
    I2npType = 3,
    // A first fragment has a size of 9 or less.
    FirstFragmentSize = 4,
    // A first fragment's bytes are missing.
    FirstFragmentBytes = 5,
    // A follow-on fragment has a size of 5 or less.
    FollowOnSize = 6,
    // A follow-on fragment's bytes are missing.
    FollowOnBytes = 7,
    // An address has a size other than 6 or 18.
    AddressSize = 8,
    // An I2NP block has a size below 9.
    I2npSize = 9,
    // Every block is good, but there are more than the list holds.
    ListFull = 10,
    // The packet is too short for its header to be unmasked or written.
    PacketShort = 20,
    // The packet type is unknown.
    Type = 21,
    // The protocol version is not 2, 3 or 4.
    Version = 22,
    // A SessionRequest or SessionCreated packet is shorter than 64 bytes.
    KeyMissing = 23,
    // A SessionConfirmed packet has a number other than 0.
    ConfirmedNumber = 24,
    // A fragment number or count is above 15.
    Nibble = 25,
    // The block is longer than the room for it.
    RoomShort = 30,
    // The block's body is longer than 65,535 bytes.
    BodyLong = 31,
    // No reader would take the block as it is.
    BlockFaulty = 32,
    // The packet number is more than 255 above the highest.
    NumberHigh = 40,
    // No packet number was registered yet.
    NothingSeen = 41,
    // The packet number is below the window of the newest 255.
    NumberLow = 42,
    // The packet number was received already.
    NumberAgain = 43,
    // The acknowledgement goes below packet number 0.
    BelowZero = 44,
    // The acknowledgement names more numbers than the list holds.
    ExpansionLong = 46,
    // A piece is empty or longer than 1,500 bytes.
    PieceLength = 50,
    // A follow-on piece has the number 0 or one above 127.
    PieceNumber = 51,
    // This neighbour has 4 messages open and this is a piece of another.
    StoreFull = 52,
    // The message would be longer than 65,535 bytes.
    MessageLong = 53,
    // The piece is held already and repeats it exactly.
    PieceAgain = 54,
    // The piece contradicts the pieces that are held.
    PieceConflict = 55,
    // The message would be finished, but the assembly buffer is too short.
    BufferShort = 56,
    // The message was finished already and its id is still remembered.
    AlreadyFinished = 57,
    // The neighbour number is above 3.
    NeighbourHigh = 58,
    // The lent room or record is too short, or the record names bytes outside the room.
    LentShort = 59,
    // 256 packets are outstanding.
    SenderFull = 70,
    // The last packet number was given out.
    NumbersUsedUp = 71,
    // The acknowledgement names a packet number that was never given out.
    NeverGivenOut = 72,
    // No packet is outstanding under the number that is to be sent again.
    NotOutstanding = 73,
}

impl Refusal {
    pub fn number(self) -> u8
        ensures { result ≡ number self }
    {
        self as u8
    }
}

// What is told of a call that answers nothing else: 0, or the number of its refusal.
pub fn number_of(answer: Result<(), Refusal>) -> u8
    ensures { result ≡ number_of answer }
{
    match answer {
        Ok(()) => 0,
        Err(refusal) => refusal.number(),
    }
}

// What tells of a refusal by a number: a refusal of 01, or a number alone, whatever it is. What hands one on takes either.
pub trait Numbered: Copy {
    ghost as_number: { Self → ℕ };

    fn of(refusal: Refusal) -> Self
        ensures { as_number result ≡ number refusal };

    fn as_number(self) -> u32
        ensures { result ≡ as_number self };
}

impl Numbered for Refusal {
    ghost as_number = { number };

    fn of(refusal: Refusal) -> Refusal {
        refusal
    }

    fn as_number(self) -> u32 {
        u32::from(self.number())
    }
}

impl Numbered for u32 {
    ghost as_number = { λ x. x };

    fn of(refusal: Refusal) -> u32 {
        u32::from(refusal.number())
    }

    fn as_number(self) -> u32 {
        self
    }
}
