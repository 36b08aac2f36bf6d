// Reading one block, by its row: its fields as numbers, its bytes as a part of the payload.
#![tactic(auto)]

ghost use Rattle.std.specs.Prelude.{◌≡◌, ◌+◌, ◌<◌, ◌≤◌, length};
ghost use Rattle.blocks.specs.Layout.{fields_at, eight};
ghost use Rattle.blocks.specs.Table.{widths, field_length};
ghost use Rattle.blocks.specs.Reading.{bytes_after, read_as, read_at};

use blocks::{Block, End, Part, RefusedAt};
use blocks_extents::extent_of;
use blocks_rows::{Row, read_fields};

// The fields of a type's body, by its row.
fn fields_at(payload: &[u8], body: usize, row: Row) -> [u64; 8]
    requires { body + field_length row.kind ≤ length payload.now }
    ensures { result ≡ eight (fields_at (widths row.kind) payload.now body) }
{
    read_fields(payload, body, row.widths())
}

// The bytes after them, of a body that takes so many.
fn bytes_after(row: Row, body: usize, taken: usize) -> Part
    requires { (field_length row.kind ≤ taken) × (body + taken < 18446744073709551616) }
    ensures { result ≡ bytes_after row.kind body taken }
{
    if row.carries_bytes() {
        let n = row.length();
        return Part {
            start: body + n,
            len: taken - n,
        };
    }
    Part { start: 0, len: 0 }
}

// The block at a place of a payload.
pub fn read_block(payload: &[u8], at: usize) -> Result<Block, RefusedAt>
    ensures { read_as result ≡ read_at payload.now at }
{
    let End { kind, size, next } = extent_of(payload, at)?;
    let row = Row::of(kind);
    let body = at + 3;
    Ok(Block {
        kind,
        size,
        next,
        fields: fields_at(payload, body, row),
        bytes: bytes_after(row, body, next - body),
    })
}
