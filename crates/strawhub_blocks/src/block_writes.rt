// Writing a block by numbers.
ghost use Rattle.std.specs.Prelude.{◌≡◌, length};
ghost use Rattle.blocks.specs.Numbers.{as_fields, writing_by, room_by};
ghost use Rattle.numbers_outcomes.specs.Outcomes.{write_outcome};

use blocks::FOLLOW_ON_FRAGMENT;
use numbers_outcomes::{Outcome, outcome_of};

// A follow-on's number, mark of the last and id among the eight numbers.
const NUMBER: usize = 0;

const LAST: usize = 1;

const ID: usize = 2;

// A follow-on's number above 127 is taken as this, which has no byte.
const MOST: u64 = 128;

// The fields of the eight numbers that are passed.
fn as_fields(kind: u8, v: [u64; 8]) -> [u64; 8]
    ensures { result ≡ as_fields kind v }
{
    if kind == FOLLOW_ON_FRAGMENT {
        return [
            v[NUMBER].min(MOST) * 2 + u64::from(v[LAST] != 0),
            v[ID],
            0,
            0,
            0,
            0,
            0,
            0,
        ];
    }
    v
}

// Writes a block to the start of a room, its bytes as they are lent: 0 and its length; or the writer's refusals, 32 also where a number does not fit its field, and then the room is as it was.
#[unsafe(no_mangle)]
pub extern "C" fn strawhub_block_write(
    room: &mut [u8],
    kind: u8,
    fields: &[u64; 8],
    bytes: &[u8],
) -> Outcome
    ensures { (result ≡ write_outcome (writing_by kind fields.now bytes.now (length room.old))) × (room.new ≡ room_by kind fields.now bytes.now room.old) }
{
    let v = *fields;
    let answer = blocks_writer::write_block(kind, as_fields(kind, v), bytes, room);
    outcome_of(answer)
}
