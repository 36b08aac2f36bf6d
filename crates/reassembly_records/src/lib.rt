// A neighbour's share of the record: 4 heads of 24 bytes, then 4 tables of 128 entries of 4 bytes. All zero is the empty store.
// The record is a slice with a clause: docs/FREE.md names these functions for every slice that is long enough, and an array would ask for more.
#![tactic(auto)]

ghost use Rattle.std.specs.Prelude.{◌≡◌, ◌+◌, ◌*◌, ◌<◌, ◌≤◌, length, replicate};
ghost use Rattle.wire.specs.Parts.{splice};
ghost use Rattle.reassembly.specs.Sizes.{head_size, entry_size, share_size};
ghost use Rattle.reassembly.specs.Record.{head_of, entry_of, head_at, with_head, entry_at, with_entry, cleared};

use reassembly::{ENTRY_SIZE, Entry, HEAD_SIZE, Head, TABLE_SIZE, TABLES_AT};

#[tactic(auto, unfolding(reassembly::specs::Record::head_of))]
fn head_of(b: &[u8]) -> Head
    requires { length b.now ≡ head_size }
    ensures { result ≡ head_of b.now }
{
    Head {
        id: wire_numbers::le(b, 0),
        opened: wire_numbers::le(b, 4),
        expires: wire_numbers::le(b, 12),
        total: wire_numbers::le(b, 16),
        count: b[18],
        last: b[19],
        top: b[20],
        kind: b[21],
    }
}

// The head of slot i.
// Record and place stay two parameters: a struct of both would be made for one call.
#[tactic(auto, using(wire::proofs::Slices::slice_is), unfolding(reassembly::specs::Record::head_at))]
pub fn load_head(rec: &[u8], i: usize) -> Head
    requires { (share_size ≤ length rec.now) × (i < 4) }
    ensures { result ≡ head_at rec.now i }
{
    let a = i * HEAD_SIZE;
    let e = a + HEAD_SIZE;
    head_of(&rec[a..e])
}

pub fn save_head(rec: &mut [u8], i: usize, h: Head)
    requires { (share_size ≤ length rec.old) × (i < 4) }
    ensures { rec.new ≡ with_head rec.old i h }
{
    let at = i * HEAD_SIZE;
    wire_numbers::put_le(rec, at, h.id);
    wire_numbers::put_le(rec, at + 4, h.opened);
    wire_numbers::put_le(rec, at + 12, h.expires);
    wire_numbers::put_le(rec, at + 16, h.total);
    let rest = [h.count, h.last, h.top, h.kind, 0, 0];
    wire::copy_to(rec, at + 18, &rest);
}

#[tactic(auto, unfolding(reassembly::specs::Record::entry_of))]
fn entry_of(b: &[u8]) -> Entry
    requires { length b.now ≡ entry_size }
    ensures { result ≡ entry_of b.now }
{
    Entry {
        place: wire_numbers::le(b, 0),
        len: wire_numbers::le(b, 2),
    }
}

// The entry of number k in slot i.
#[tactic(auto, using(wire::proofs::Slices::slice_is), unfolding(reassembly::specs::Record::entry_at))]
pub fn load_entry(rec: &[u8], i: usize, k: usize) -> Entry
    requires { (share_size ≤ length rec.now) × (i < 4) × (k < 128) }
    ensures { result ≡ entry_at rec.now i k }
{
    let a = TABLES_AT + i * TABLE_SIZE + k * ENTRY_SIZE;
    let e = a + ENTRY_SIZE;
    entry_of(&rec[a..e])
}

pub fn save_entry(rec: &mut [u8], i: usize, k: usize, e: Entry)
    requires { (share_size ≤ length rec.old) × (i < 4) × (k < 128) }
    ensures { rec.new ≡ with_entry rec.old i k e }
{
    let at = TABLES_AT + i * TABLE_SIZE + k * ENTRY_SIZE;
    wire_numbers::put_le(rec, at, e.place);
    wire_numbers::put_le(rec, at + 2, e.len);
}

// n zeros from a place on; every other byte stays.
pub fn clear(b: &mut [u8], at: usize, n: usize)
    requires { at + n ≤ length b.old }
    ensures { b.new ≡ splice b.old at (replicate n 0) }
{
    let e = at + n;
    b[at..e].fill(0);
}

// No number of slot i is held.
#[tactic(auto, unfolding(reassembly::specs::Record::cleared))]
pub fn clear_entries(rec: &mut [u8], i: usize)
    requires { (share_size ≤ length rec.old) × (i < 4) }
    ensures { rec.new ≡ cleared rec.old i }
{
    clear(rec, TABLES_AT + i * TABLE_SIZE, TABLE_SIZE);
}
