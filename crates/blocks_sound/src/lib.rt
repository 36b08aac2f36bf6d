// Sound bodies, which nearly all are: what one takes is known by type and size alone, and its tests are few. Bits in place of branches: a listing's cost is its branches.
#![tactic(auto)]

ghost use Rattle.std.specs.Prelude.{◌≡◌, ◌+◌, ◌<◌, ◌≤◌, cond, ltb, length};
ghost use Rattle.blocks.specs.Outcomes.{extent_as};
ghost use Rattle.blocks.specs.Extent.{ignores_size, extent_at};
ghost use Rattle.blocks.specs.Sound.{floor_of, counted, body_length, sound, tested};

use blocks::{End, RefusedAt};
use blocks_extents::{at_least, extent_of, head_at, is_listed};

// The fewest bytes of a body, four bits a type from the lowest on: types 0 to 15, and 16 to 21.
const LOW: usize = 0x5_0000_0900_00C4;

const HIGH: usize = 0x14_00C4;

// The types whose size is not looked at, a bit each.
const DEAF: u32 = 0x33_8001;

fn row_of(kind: u8) -> usize
    ensures { result ≡ cond (ltb kind 16) 0x50000090000C4 0x1400C4 }
{
    if kind < 16 { LOW } else { HIGH }
}

// kind < 22 stands in three private functions: a type for it would be made at each block.
fn floor_of(kind: u8) -> usize
    requires { kind < 22 }
    ensures { result ≡ floor_of kind }
{
    (row_of(kind) >> (4 * (u32::from(kind) % 16))) % 16
}

fn ignores_size(kind: u8) -> bool
    requires { kind < 22 }
    ensures { result ≡ ignores_size kind }
{
    (DEAF >> u32::from(kind)) % 2 == 1
}

// The size as far as it counts: an Ack's only if its pairs are whole.
// Types by their numbers, as 01's table has them: any number is a block's type.
#[tactic(auto, using(std::proofs::lemmas::Bool::Decides::nat_tests), unfolding(blocks::specs::Sound::counted))]
fn counted(kind: u8, size: usize) -> usize
    requires { kind < 22 }
    ensures { (result ≡ counted kind size) × (result ≤ size) }
{
    if ignores_size(kind) | ((kind == 12) & (size % 2 == 0)) {
        return 0;
    }
    size
}

// The bytes that a sound body takes.
pub fn body_length(kind: u8, size: u16) -> usize
    ensures { (result ≡ body_length kind size) × (result < 65536) }
{
    if 21 < kind {
        return usize::from(size);
    }
    at_least(floor_of(kind), counted(kind, usize::from(size)))
}

// The tests by size alone, of types by their numbers, as 01's table has them.
#[tactic(auto, using(std::proofs::lemmas::Bool::Decides::nat_tests), unfolding(blocks::specs::Sound::tested))]
fn is_tested(kind: u8, size: usize) -> bool
    ensures { result ≡ tested kind size }
{
    match kind {
        2 => 2 < size,
        5 => 5 < size,
        13 => (size == 6) | (size == 18),
        _ => true,
    }
}

// Whether a body whose bytes are there is sound; types by their numbers, as 01's table has them.
fn is_sound(payload: &[u8], body: usize, kind: u8, size: usize) -> bool
    requires { body + body_length kind size ≤ length payload.now }
    ensures { result ≡ sound payload.now body kind size }
{
    if (kind == 3) | (kind == 4) {
        if size < 6 + usize::from(kind) {
            return false;
        }
        return is_listed(u64::from(payload[body]));
    }
    is_tested(kind, size)
}

// What `extent_of` says, out of line: a listing asks it only of the block that ends it.
#[cold]
#[inline(never)]
fn rare_extent(payload: &[u8], at: usize) -> Result<End, RefusedAt>
    ensures { extent_as result ≡ extent_at payload.now at }
{
    extent_of(payload, at)
}

// The same, inlined: the place for the answer is then cleared here, not at each block of a listing.
#[inline(always)]
fn unsound_extent(payload: &[u8], at: usize) -> Result<End, RefusedAt>
    ensures { extent_as result ≡ extent_at payload.now at }
{
    rare_extent(payload, at)
}

// What `extent_of` says, with a sound block known at once: a listing asks this.
pub fn quick_extent(payload: &[u8], at: usize) -> Result<End, RefusedAt>
    ensures { extent_as result ≡ extent_at payload.now at }
{
    let Some(head) = head_at(payload, at) else {
        return unsound_extent(payload, at);
    };
    let body = at + 3;
    let need = body_length(head.kind, head.size);
    if payload.len() - body < need {
        return unsound_extent(payload, at);
    }
    if is_sound(payload, body, head.kind, usize::from(head.size)) {
        return Ok(End {
            kind: head.kind,
            size: head.size,
            next: body + need,
        });
    }
    unsound_extent(payload, at)
}
