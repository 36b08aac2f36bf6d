// Listing a payload: a record for each block, in a list that the caller lends. The Rust's `parse_multiple`.
#![tactic(auto)]

ghost use Rattle.std.specs.Prelude.{◌≡◌, length};
ghost use Rattle.blocks_listing.specs.Listing.{answer_as, stays_at, step_at, listing, listing_answer, entries_after};

use blocks::RefusedAt;
use blocks_extents::head_at;
use blocks_sound::{body_length, quick_extent};
use refusals::Refusal;

// One block of a listing: its place, its type and its size field as it stands.
#[repr(C)]
#[derive(Clone, Copy, Debug, PartialEq, Eq)]
pub struct Entry {
    pub place: usize,
    pub kind: u8,
    pub size: u16,
}

// A record, and the place after its block.
#[derive(Clone, Copy, Debug, PartialEq, Eq)]
pub struct Step {
    pub entry: Entry,
    pub next: usize,
}

// How many blocks a payload has, all of them good and no more than so many; or the refusal and its place.
pub fn count_blocks(payload: &[u8], capacity: usize) -> Result<usize, RefusedAt>
    ensures { answer_as result ≡ listing_answer (listing capacity payload.now) }
{
    if payload.is_empty() {
        return Err(RefusedAt {
            refusal: Refusal::EndsInsideBlock,
            place: 0,
        });
    }
    // Each block says where the next one begins, so there is no slice to iterate over.
    let mut at = 0;
    let mut n = 0;
    let mut over = 0;
    while at < payload.len() {
        let next = quick_extent(payload, at)?.next;
        if n == capacity {
            over = at;
        }
        n += 1;
        at = next;
    }
    if capacity < n {
        return Err(RefusedAt {
            refusal: Refusal::ListFull,
            place: over,
        });
    }
    Ok(n)
}

fn stays_at(at: usize) -> Step
    ensures { result ≡ stays_at at }
{
    Step {
        entry: Entry {
            place: at,
            kind: 0,
            size: 0,
        },
        next: at,
    }
}

// The record of the block at a place, and the place after it by type and size alone, as for a block that was read; where that is past the end, the place itself. (No Option: each place that the listing asks for was counted, and a None would have to be told apart at each block again.)
pub fn step_at(payload: &[u8], at: usize) -> Step
    ensures { result ≡ step_at payload.now at }
{
    let Some(head) = head_at(payload, at) else {
        return stays_at(at);
    };
    let body = at + 3;
    let need = body_length(head.kind, head.size);
    if payload.len() - body < need {
        return stays_at(at);
    }
    Step {
        entry: Entry {
            place: at,
            kind: head.kind,
            size: head.size,
        },
        next: body + need,
    }
}

// Fills the list with a record for each block, or refuses and leaves it as it was.
pub fn list_blocks(payload: &[u8], list: &mut [Entry]) -> Result<usize, RefusedAt>
    ensures { (answer_as result ≡ listing_answer (listing (length list.old) payload.now)) × (list.new ≡ entries_after (listing (length list.old) payload.now) list.old) }
{
    let count = count_blocks(payload, list.len())?;
    let mut at = 0;
    let listed = &mut list[..count];
    for entry in listed.iter_mut() {
        let step = step_at(payload, at);
        *entry = step.entry;
        at = step.next;
    }
    Ok(count)
}
