// The values that the store of document 01 works with; what is done with them stands in specs/, and the laws of it in proofs/.
#![tactic(auto)]

ghost use Rattle.std.specs.Prelude.{◌≡◌};
ghost use Rattle.reassembly.specs.Calls.{bare};
ghost use Rattle.reassembly.specs.Arrivals.{reply_of};

use refusals::Refusal;

// The sizes of specs/Sizes.antt: the most bytes of a message, a slot's part of the room, the room, the record.
pub const MESSAGE_SIZE: usize = 65535;

pub const SLOT_SIZE: usize = 65535;

pub const ROOM_SIZE: usize = 1048560;

pub const RECORD_SIZE: usize = 9352;

// A neighbour's share of the room and of the record: a quarter of each.
pub const SHARE_ROOM: usize = 262140;

pub const SHARE_SIZE: usize = 2338;

// In a share of the record: a slot's head, where the tables begin, a slot's table and an entry of it.
pub const HEAD_SIZE: usize = 24;

pub const TABLES_AT: usize = 96;

pub const TABLE_SIZE: usize = 512;

pub const ENTRY_SIZE: usize = 4;

// Behind the tables: how many messages are open, the summary's number of this neighbour.
pub const OPEN_AT: usize = 2144;

// Behind that: how many finished messages are remembered at most, where their ids, their seconds and their count stand.
pub const MOST_REMEMBERED: usize = 16;

pub const IDS_AT: usize = 2145;

pub const ID_SIZE: usize = 4;

pub const SECONDS_AT: usize = 2209;

pub const SECOND_SIZE: usize = 8;

pub const COUNT_AT: usize = 2337;

// A slot: the message's id, the second it was opened in, its expiration and type once number 0 is held, the bytes held in all,
// how many numbers are held (0: the slot is free), the last number (0: not known), the highest number held.
// 0 for what is not there, as the record's bytes say it: C keeps them, and the definitions are of the bytes.
#[derive(Clone, Copy, Debug, Default, PartialEq, Eq)]
pub struct Head {
    pub id: u32,
    pub opened: u64,
    pub expires: u32,
    pub total: u16,
    pub count: u8,
    pub last: u8,
    pub top: u8,
    pub kind: u8,
}

// Where a held piece stands in its slot's room, and its length (0: the number is not held).
#[derive(Clone, Copy, Debug, Default, PartialEq, Eq)]
pub struct Entry {
    pub place: u16,
    pub len: u16,
}

// What comes with a piece's bytes: its message's id, its number, whether it is the last, and with number 0 the message's type and expiration.
#[derive(Clone, Copy, Debug, PartialEq, Eq)]
pub struct Label {
    pub id: u32,
    pub number: u8,
    pub last: bool,
    pub kind: u8,
    pub expires: u32,
}

// What comes with a fragment's bytes: a first fragment has its message's type and expiration, a follow-on its number and whether it is the last.
#[derive(Clone, Copy, Debug, PartialEq, Eq)]
pub enum Fragment {
    First { id: u32, kind: u8, expires: u32 },
    FollowOn { id: u32, number: u8, last: bool },
}

// What a piece that the store takes brings: it is kept, or it finishes its message, which stands at the start of the assembly buffer.
#[derive(Clone, Copy, Debug, PartialEq, Eq)]
pub enum Arrival {
    Kept,
    Finished {
        kind: u8,
        expires: u32,
        length: usize,
    },
}

// A call's answer to C: 01's number, and with 60 the finished message's type, expiration and length in the assembly buffer.
#[repr(C)]
#[derive(Clone, Copy)]
pub struct Reply {
    pub number: u8,
    pub kind: u8,
    pub expires: u32,
    pub length: usize,
}

// A number, and no message. docs/FREE.md names it, for every number and not those of a refusal alone.
#[tactic(auto, unfolding(crate::specs::Calls::bare))]
pub fn bare(number: u8) -> Reply
    ensures { result ≡ bare number }
{
    Reply {
        number,
        kind: 0,
        expires: 0,
        length: 0,
    }
}

// A call's answer as C is told it.
impl From<Result<Arrival, Refusal>> for Reply {
    fn from(answer: Result<Arrival, Refusal>) -> Reply
        ensures { result ≡ reply_of answer }
    {
        match answer {
            Ok(Arrival::Kept) => bare(0),
            Ok(
                Arrival::Finished {
                    kind,
                    expires,
                    length,
                },
            ) => Reply {
                number: 60,
                kind,
                expires,
                length,
            },
            Err(refusal) => bare(refusal.number()),
        }
    }
}
