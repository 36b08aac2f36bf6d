// Where a block ends: the tests of a body, by family, and their refusals.
#![tactic(auto)]

ghost use Rattle.std.specs.Prelude.{◌≡◌, ◌+◌, ◌<◌, ◌≤◌, length};
ghost use Rattle.refusals.specs.Numbers.{numbered};
ghost use Rattle.blocks.specs.Outcomes.{extent_as};
ghost use Rattle.blocks.specs.Extent.{is_i2np_type, at_least, pair_bytes_in, takes_bytes, router_info, i2np, first_fragment, follow_on, address, ignores_size, plain_length, taken_at, head_at, extent_at};

use blocks::{End, Head, RefusedAt};
use blocks_rows::Row;
use refusals::Refusal;
use wire_numbers::be;

// Whether a number is the type of an I2NP message.
#[tactic(auto, unfolding(blocks::specs::Extent::is_i2np_type))]
pub fn is_listed(x: u64) -> bool
    ensures { result ≡ is_i2np_type x }
{
    ((1 <= x) & (x <= 3)) | ((10 <= x) & (x <= 11)) | ((18 <= x) & (x <= 26))
}

// A body of `need` bytes, if as many are there; else 1.
#[tactic(auto, using(std::proofs::lemmas::Bool::Decides::nat_tests), unfolding(blocks::specs::Extent::takes_bytes))]
fn takes_bytes(need: usize, there: usize) -> Result<usize, Refusal>
    ensures { numbered result ≡ takes_bytes need there }
{
    if need <= there {
        return Ok(need);
    }
    Err(Refusal::EndsInsideBlock)
}

// Size, but no less than the fields.
pub fn at_least(fields: usize, size: usize) -> usize
    ensures { result ≡ at_least fields size }
{
    fields.max(size)
}

// Five families, a function each: their tests and refusals stand in 01's order, which differs from one to the next.
#[tactic(auto, using(std::proofs::lemmas::Bool::Decides::nat_tests), unfolding(blocks::specs::Extent::router_info))]
fn router_info(size: usize, there: usize) -> Result<usize, Refusal>
    ensures { numbered result ≡ router_info size there }
{
    if size <= 2 {
        return Err(Refusal::RouterInfoSize);
    }
    takes_bytes(size, there)
}

// The message's type is the first byte of the body.
// The payload and a place in it, not the rest of it: the definitions and refusals speak of places in the whole payload.
fn i2np(payload: &[u8], body: usize, size: usize) -> Result<usize, Refusal>
    requires { body ≤ length payload.now }
    ensures { numbered result ≡ i2np payload.now body size }
{
    let there = payload.len() - body;
    if size < 9 {
        return Err(Refusal::I2npSize);
    }
    if there < 9 {
        return Err(Refusal::EndsInsideBlock);
    }
    if is_listed(u64::from(payload[body])) {
        return takes_bytes(size, there);
    }
    Err(Refusal::I2npType)
}

fn first_fragment(payload: &[u8], body: usize, size: usize) -> Result<usize, Refusal>
    requires { body ≤ length payload.now }
    ensures { numbered result ≡ first_fragment payload.now body size }
{
    let there = payload.len() - body;
    if there < 9 {
        return Err(Refusal::EndsInsideBlock);
    }
    if !is_listed(u64::from(payload[body])) {
        return Err(Refusal::I2npType);
    }
    if size <= 9 {
        return Err(Refusal::FirstFragmentSize);
    }
    if there < size {
        return Err(Refusal::FirstFragmentBytes);
    }
    Ok(size)
}

#[tactic(auto, using(std::proofs::lemmas::Bool::Decides::nat_tests), unfolding(blocks::specs::Extent::follow_on))]
fn follow_on(size: usize, there: usize) -> Result<usize, Refusal>
    ensures { numbered result ≡ follow_on size there }
{
    if there < 5 {
        return Err(Refusal::EndsInsideBlock);
    }
    if size <= 5 {
        return Err(Refusal::FollowOnSize);
    }
    if there < size {
        return Err(Refusal::FollowOnBytes);
    }
    Ok(size)
}

// The bytes of an Ack's pairs: those above five if they are even, else none.
#[tactic(auto, using(std::proofs::lemmas::Bool::Decides::nat_tests), unfolding(blocks::specs::Extent::pair_bytes_in))]
fn pair_bytes_in(size: usize) -> usize
    requires { size < 65536 }
    ensures { (result ≡ pair_bytes_in size) × (result < 65536) }
{
    if size <= 5 {
        return 0;
    }
    if (size - 5) % 2 == 0 {
        return size - 5;
    }
    0
}

#[tactic(auto, using(std::proofs::lemmas::Bool::Decides::nat_tests), unfolding(blocks::specs::Extent::address))]
fn address(size: usize, there: usize) -> Result<usize, Refusal>
    ensures { numbered result ≡ address size there }
{
    if there < 2 {
        return Err(Refusal::EndsInsideBlock);
    }
    if size == 6 {
        return takes_bytes(6, there);
    }
    if size == 18 {
        return takes_bytes(18, there);
    }
    Err(Refusal::AddressSize)
}

// Whether a type reads its fields whatever the size says. Types by their numbers, as 01's table has them.
fn ignores_size(row: Row) -> bool
    ensures { result ≡ ignores_size row.kind }
{
    !(row.carries_bytes() | ((row.kind == 1) | (row.kind == 6)))
}

// What a body takes that its size alone does not refuse.
fn plain_length(kind: u8, size: usize) -> usize
    ensures { result ≡ plain_length kind size }
{
    let row = Row::of(kind);
    let fields = row.length();
    if ignores_size(row) {
        return fields;
    }
    at_least(fields, size)
}

// The bytes that the body at a place takes.
// Types by their numbers, as 01's table has them: any number is a block's type.
#[tactic(auto, using(std::proofs::lemmas::Bool::Decides::nat_tests), unfolding(blocks::specs::Extent::taken_at))]
fn taken_at(payload: &[u8], body: usize, kind: u8, size: usize) -> Result<usize, Refusal>
    requires { (body ≤ length payload.now) × (size < 65536) }
    ensures { numbered result ≡ taken_at payload.now body kind size }
{
    let there = payload.len() - body;
    match kind {
        2 => router_info(size, there),
        3 => i2np(payload, body, size),
        4 => first_fragment(payload, body, size),
        5 => follow_on(size, there),
        12 => takes_bytes(5 + pair_bytes_in(size), there),
        13 => address(size, there),
        _ => takes_bytes(plain_length(kind, size), there),
    }
}

// The type and the size field of the block at a place, if its head is there.
pub fn head_at(payload: &[u8], at: usize) -> Option<Head>
    ensures { result ≡ head_at payload.now at }
{
    if payload.len() < 3 || payload.len() - 3 < at {
        return None;
    }
    Some(Head {
        kind: payload[at],
        size: be(payload, at + 1),
    })
}

// The type and size of the block at a place, and where it ends.
pub fn extent_of(payload: &[u8], at: usize) -> Result<End, RefusedAt>
    ensures { extent_as result ≡ extent_at payload.now at }
{
    let Some(head) = head_at(payload, at) else {
        return Err(RefusedAt {
            refusal: Refusal::EndsInsideBlock,
            place: at,
        });
    };
    match taken_at(payload, at + 3, head.kind, usize::from(head.size)) {
        Ok(count) => Ok(End {
            kind: head.kind,
            size: head.size,
            next: at + 3 + count,
        }),
        Err(refusal) => Err(RefusedAt { refusal, place: at }),
    }
}
