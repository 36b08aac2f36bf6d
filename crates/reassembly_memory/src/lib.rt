// The finished messages of a neighbour that are remembered, in its share of the record: 16 ids, 16 seconds and how many of them are in use.
// The record is a slice with a clause: docs/FREE.md names these functions for every slice that is long enough, and an array would ask for more.
#![tactic(auto)]

ghost use Rattle.std.specs.Prelude.{◌≡◌, ◌+◌, ◌<◌, ◌≤◌, length};
ghost use Rattle.reassembly.specs.Sizes.{most_remembered, share_size};
ghost use Rattle.reassembly.specs.Memory.{remembers};
ghost use Rattle.reassembly.specs.Remembered.{remembered_count, finished_at, memory_of, with_count, with_finished, moved_to, remembered_in, sifted, sifted_one, forgotten_in};

use reassembly::{COUNT_AT, ID_SIZE, IDS_AT, MOST_REMEMBERED, SECOND_SIZE, SECONDS_AT};

// How many are remembered: a count above 16 is read as 16.
#[tactic(auto, unfolding(reassembly::specs::Remembered::remembered_count))]
fn count_of(rec: &[u8]) -> usize
    requires { share_size ≤ length rec.now }
    ensures { (result ≡ remembered_count rec.now) × (result ≤ most_remembered) }
{
    usize::from(rec[COUNT_AT]).min(MOST_REMEMBERED)
}

// A number that is proved to fit is turned with as: try_from would answer a Result that cannot fail.
// Its answers stay: tried by unfolding, and the check does not find them.
fn save_count(rec: &mut [u8], n: usize)
    requires { (share_size ≤ length rec.old) × (n ≤ most_remembered) }
    ensures { rec.new ≡ with_count rec.old n }
{
    rec[COUNT_AT] = n as u8;
}

// Ids and seconds stand in two rows of two widths, for ids side by side are compared several at once: each row is read, put and moved by its own line.
// Record and place stay two parameters: a struct of both would be made for one call.
#[tactic(auto, unfolding(reassembly::specs::Remembered::finished_at))]
fn id_at(rec: &[u8], k: usize) -> u32
    requires { (share_size ≤ length rec.now) × (k < most_remembered) }
    ensures { result ≡ (finished_at rec.now k).id }
{
    wire_numbers::le(rec, IDS_AT + k * ID_SIZE)
}

#[tactic(auto, unfolding(reassembly::specs::Remembered::finished_at))]
fn second_at(rec: &[u8], k: usize) -> u64
    requires { (share_size ≤ length rec.now) × (k < most_remembered) }
    ensures { result ≡ (finished_at rec.now k).second }
{
    wire_numbers::le(rec, SECONDS_AT + k * SECOND_SIZE)
}

// An id and its finishing second stand as the k-th.
#[tactic(auto, unfolding(reassembly::specs::Remembered::with_finished))]
fn put(rec: &mut [u8], k: usize, id: u32, second: u64)
    requires { (share_size ≤ length rec.old) × (k < most_remembered) }
    ensures { rec.new ≡ with_finished rec.old k (record { id = id; second = second }) }
{
    wire_numbers::put_le(rec, IDS_AT + k * ID_SIZE, id);
    wire_numbers::put_le(rec, SECONDS_AT + k * SECOND_SIZE, second);
}

// n of them from the k-th on move down to the j-th.
#[tactic(auto, using(crate::proofs::Branches::moved))]
fn move_to(rec: &mut [u8], j: usize, k: usize, n: usize)
    requires { (share_size ≤ length rec.old) × (j ≤ k) × (k + n ≤ most_remembered) }
    ensures { rec.new ≡ moved_to rec.old j k n }
{
    wire::move_down(rec, IDS_AT + j * ID_SIZE, IDS_AT + k * ID_SIZE, n * ID_SIZE);
    wire::move_down(
        rec,
        SECONDS_AT + j * SECOND_SIZE,
        SECONDS_AT + k * SECOND_SIZE,
        n * SECOND_SIZE,
    );
}

// Whether an id is remembered. All ids are looked at, where `any` would stop: so the compiler compares several at once.
#[tactic(auto, unfolding(reassembly::specs::Memory::remembers, reassembly::specs::Remembered::memory_of), using(crate::proofs::Branches::found_turn))]
pub fn remembers(rec: &[u8], id: u32) -> bool
    requires { share_size ≤ length rec.now }
    ensures { result ≡ remembers (memory_of rec.now) id }
{
    let count = count_of(rec);
    let mut found = false;
    for k in 0..count {
        found |= id_at(rec, k) == id;
    }
    found
}

// A message finished: its id is remembered with its finishing second; where 16 are, the first is pushed out.
#[tactic(auto, unfolding(reassembly::specs::Remembered::remembered_in))]
pub fn remember(rec: &mut [u8], id: u32, second: u64)
    requires { share_size ≤ length rec.old }
    ensures { rec.new ≡ remembered_in rec.old (record { id = id; second = second }) }
{
    let n = count_of(rec);
    if n < MOST_REMEMBERED {
        put(rec, n, id, second);
        save_count(rec, n + 1);
        return;
    }
    move_to(rec, 0, 1, 15);
    put(rec, 15, id, second);
    save_count(rec, MOST_REMEMBERED);
}

// The k-th, where it is due, is passed by; else it moves down behind those that are kept, two places used one by one. How many are kept then.
#[tactic(auto, unfolding(reassembly::specs::Remembered::sifted_one, reassembly::specs::Memory::is_due))]
fn sift_one(rec: &mut [u8], kept: usize, k: usize, second: u64) -> usize
    requires { (share_size ≤ length rec.old) × (kept ≤ k) × (k < most_remembered) }
    ensures { (sifted rec.new result ≡ sifted_one second k (sifted rec.old kept)) × (result ≤ k + 1) }
{
    if reassembly_judge::long_ago(second_at(rec, k), second) {
        return kept;
    }
    move_to(rec, kept, k, 1);
    kept + 1
}

// A sweep forgets the finished messages that are due.
#[tactic(auto, unfolding(reassembly::specs::Remembered::forgotten_in))]
pub fn forget(rec: &mut [u8], second: u64)
    requires { share_size ≤ length rec.old }
    ensures { rec.new ≡ forgotten_in second rec.old }
{
    let n = count_of(rec);
    let mut kept = 0;
    for k in 0..n {
        kept = sift_one(rec, kept, k, second);
    }
    save_count(rec, kept);
}
