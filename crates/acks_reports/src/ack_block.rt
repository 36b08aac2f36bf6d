// A report written as an Ack block.
ghost use Rattle.std.specs.Prelude.{◌≡◌, length, Err, MatchResult};
ghost use Rattle.acks.specs.Reporting.{made};
ghost use Rattle.acks.specs.AckBlocks.{ack_fields_of, ack_writing, ack_room};
ghost use Rattle.refusals.specs.Numbers.{numbered, numbered_by};

use acks::AckInfo;
use blocks::{ACK, ACK_COUNT, ACK_THROUGH};
use blocks_rows::no_fields;
use refusals::{Numbered, Refusal};

fn fields_of(report: &AckInfo) -> [u64; 8]
    ensures { result ≡ ack_fields_of (made report.now) }
{
    let mut fields = no_fields();
    fields[ACK_THROUGH] = u64::from(report.through);
    fields[ACK_COUNT] = u64::from(report.count);
    fields
}

// A report that was made, to the start of a room: its length; refused, as the block writer does, and then the room stays.
fn put_ack(report: &AckInfo, room: &mut [u8]) -> Result<usize, Refusal>
    ensures { (numbered result ≡ ack_writing (made report.now) (length room.old)) × (room.new ≡ ack_room (made report.now) room.old) }
{
    let fields = fields_of(report);
    blocks_writer::write_block(ACK, fields, report.pairs.as_slice(), room)
}

// To the start of a room: its length. A report that was refused, by a refusal or by any number, is not written, and what refused it is the answer.
pub fn write_ack<E: Numbered>(report: Result<AckInfo, E>, room: &mut [u8]) -> Result<usize, E>
    ensures { MatchResult report (λ a. (numbered_by E.as_number result ≡ ack_writing (made a) (length room.old)) × (room.new ≡ ack_room (made a) room.old)) (λ e. (result ≡ Err e) × (room.new ≡ room.old)) }
{
    let report = report?;
    match put_ack(&report, room) {
        Ok(length) => Ok(length),
        Err(refusal) => Err(E::of(refusal)),
    }
}
