// Writing one block to the start of a room, by its row: its type and its fields, and its bytes as they are lent.
#![tactic(auto)]

ghost use Rattle.std.specs.Prelude.{◌≡◌, true, cond, [], ◌∷◌, ◌+◌, ◌≤◌, length};
ghost use Rattle.wire.specs.Parts.{splice};
ghost use Rattle.refusals.specs.Numbers.{numbered};
ghost use Rattle.blocks.specs.Table.{after_fields, typed, field_length, carries, allowed};
ghost use Rattle.blocks.specs.Extent.{is_i2np_type};
ghost use Rattle.blocks.specs.Writing.{carried_bytes, size_of, block_bytes, is_proper, writing, room_after};

use blocks::{After, MESSAGE_TYPE};
use blocks_extents::is_listed;
use blocks_rows::{Row, fit_fields, put_fields};
use refusals::Refusal;
use wire::copy_to;
use wire_numbers::put_be;

// Whether so many bytes may follow.
fn is_allowed(row: Row, n: usize) -> bool
    ensures { result ≡ allowed (after_fields row.kind) n }
{
    match row.after() {
        After::Nothing => true,
        After::Any => true,
        After::Some => 0 < n,
        After::Pairs => n % 2 == 0,
        After::Ip => (n == 4) | (n == 16),
    }
}

// A message's type is a listed one.
fn is_known(row: Row, first: u64) -> bool
    ensures { result ≡ cond (typed row.kind) (is_i2np_type first) true }
{
    !row.is_typed() || is_listed(first)
}

// Whether a block can be written; else it is BlockFaulty.
fn is_proper(row: Row, fields: [u64; 8], n: usize) -> bool
    ensures { result ≡ is_proper row.kind fields n }
{
    fit_fields(row.widths(), fields) & (is_allowed(row, n) & is_known(row, fields[MESSAGE_TYPE]))
}

// The bytes of so many that a type carries.
fn carried(row: Row, n: usize) -> usize
    ensures { (result ≡ cond (carries (after_fields row.kind)) n 0) × (result ≤ n) }
{
    if row.carries_bytes() { n } else { 0 }
}

#[tactic(auto, using(wire::proofs::Parts::stores_splice), unfolding(wire::specs::Parts::splice))]
fn put_u8(room: &mut [u8], at: usize, x: u8)
    requires { at + 1 ≤ length room.old }
    ensures { room.new ≡ splice room.old at (x ∷ []) }
{
    room[at] = x;
}

// The bytes after the fields.
fn put_bytes(row: Row, body: &[u8], room: &mut [u8])
    requires { 3 + size_of row.kind body.now ≤ length room.old }
    ensures { room.new ≡ splice room.old (3 + field_length row.kind) (carried_bytes row.kind body.now) }
{
    if row.carries_bytes() {
        copy_to(room, 3 + row.length(), body);
    }
}

// Type, size, fields and bytes, where there is room.
fn put_block(row: Row, fields: [u64; 8], body: &[u8], size: u16, room: &mut [u8])
    requires { (size ≡ size_of row.kind body.now) × (3 + size ≤ length room.old) }
    ensures { room.new ≡ splice room.old 0 (block_bytes row.kind fields body.now) }
{
    put_u8(room, 0, row.kind);
    put_be(room, 1, size);
    put_fields(room, 3, row.widths(), fields);
    put_bytes(row, body, room);
}

// Writes a block to the start of the room, with the bytes of its body as they are lent, or refuses and leaves the room as it was.
// A number that is proved to fit is turned with as: try_from would answer a Result that cannot fail.
pub fn write_block(
    kind: u8,
    fields: [u64; 8],
    body: &[u8],
    room: &mut [u8],
) -> Result<usize, Refusal>
    ensures { (numbered result ≡ writing kind fields body.now (length room.old)) × (room.new ≡ room_after kind fields body.now room.old) }
{
    let row = Row::of(kind);
    if !is_proper(row, fields, body.len()) {
        return Err(Refusal::BlockFaulty);
    }
    let size = row.length() + carried(row, body.len());
    if 65535 < size {
        return Err(Refusal::BodyLong);
    }
    if room.len() < 3 + size {
        return Err(Refusal::RoomShort);
    }
    put_block(row, fields, body, size as u16, room);
    Ok(3 + size)
}
