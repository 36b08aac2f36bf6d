// What a block of a payload delivers: a message, whole as a part of the payload, or rebuilt as a part of the assembly buffer.
#![tactic(auto)]

ghost use Rattle.std.specs.Prelude.{◌≡◌, true, Ok};
ghost use Rattle.wire.specs.Parts.{part};
ghost use Rattle.blocks.specs.Layout.{fits};
ghost use Rattle.blocks.specs.Table.{widths};
ghost use Rattle.blocks.specs.Names.{message_type, message_id, message_expiration};
ghost use Rattle.blocks.specs.Reading.{read_at};
ghost use Rattle.reassembly.specs.Calls.{lent};
ghost use Rattle.reassembly.specs.Arrivals.{reply_of};
ghost use Rattle.reassembly.specs.Fragments.{fragment_call};
ghost use Rattle.messages.specs.Delivery.{delivery_with, whole_at, rebuilt_by, rebuilt, delivered_by, delivered, message_in};
ghost use Rattle.messages.specs.Answers.{received_as, first_in, follow_on_in, id_of};

use blocks::{
    FIRST_FRAGMENT, FOLLOW_ON_BYTE, FOLLOW_ON_FRAGMENT, FOLLOW_ON_ID, I2NP, MESSAGE_EXPIRATION,
    MESSAGE_ID, MESSAGE_TYPE, Part, RefusedAt,
};
use reassembly::{Arrival, Fragment};
use refusals::Refusal;

// What a block delivers.
#[derive(Clone, Copy, Debug, PartialEq, Eq)]
pub enum Delivered {
    // No message: a piece was kept, or the block is none that has one.
    Nothing,
    // The message that the block has: a part of the payload.
    Whole {
        kind: u8,
        id: u32,
        expires: u32,
        bytes: Part,
    },
    // The message that the block's piece finished: a part of the assembly buffer, which receive gives from the buffer's start.
    Rebuilt {
        kind: u8,
        id: u32,
        expires: u32,
        bytes: Part,
    },
}

// What the store's answer to the piece of the block at a place delivers.
fn rebuilt_by(at: usize, answer: Result<Arrival, Refusal>, id: u32) -> Result<Delivered, RefusedAt>
    ensures { received_as result ≡ rebuilt_by at (reply_of answer) id }
{
    match answer {
        Ok(Arrival::Kept) => Ok(Delivered::Nothing),
        Ok(
            Arrival::Finished {
                kind,
                expires,
                length,
            },
        ) => Ok(Delivered::Rebuilt {
            kind,
            id,
            expires,
            bytes: Part {
                start: 0,
                len: length,
            },
        }),
        Err(refusal) => Err(RefusedAt { refusal, place: at }),
    }
}

// The part of a slice from a place on, as far as it is there: `part`, where `get` would want a sum that may wrap.
#[tactic(auto, using(wire::proofs::Slices::slice_is, wire::proofs::Slices::slice_to_end, wire::proofs::Slices::part_past))]
fn shown(b: &[u8], start: usize, len: usize) -> &[u8]
    ensures { result.now ≡ part b.now start len }
{
    if b.len() < start {
        return &b[0..0];
    }
    if b.len() - start < len {
        return &b[start..];
    }
    let end = start + len;
    &b[start..end]
}

// A whole message, by an I2NP block's fields; it stands in the payload.
// By the clause each field, a u64 here, fits its own width, so it is turned with as: try_from would answer a Result that cannot fail.
fn whole(fields: [u64; 8], bytes: Part) -> Delivered
    requires { fits (widths 3) fields ≡ true }
    ensures { received_as (Ok result) ≡ whole_at (message_type fields) (message_id fields) (message_expiration fields) bytes }
{
    Delivered::Whole {
        kind: fields[MESSAGE_TYPE] as u8,
        id: fields[MESSAGE_ID] as u32,
        expires: fields[MESSAGE_EXPIRATION] as u32,
        bytes,
    }
}

// A first fragment, by its block's fields.
fn first(fields: [u64; 8]) -> Fragment
    requires { fits (widths 4) fields ≡ true }
    ensures { result ≡ first_in fields }
{
    Fragment::First {
        id: fields[MESSAGE_ID] as u32,
        kind: fields[MESSAGE_TYPE] as u8,
        expires: fields[MESSAGE_EXPIRATION] as u32,
    }
}

// A follow-on fragment, by its block's fields: the first byte is the number twice, and 1 more where it is the last.
fn follow_on(fields: [u64; 8]) -> Fragment
    requires { fits (widths 5) fields ≡ true }
    ensures { result ≡ follow_on_in fields }
{
    let byte = fields[FOLLOW_ON_BYTE];
    Fragment::FollowOn {
        id: fields[FOLLOW_ON_ID] as u32,
        number: (byte / 2) as u8,
        last: byte % 2 == 1,
    }
}

// The id of a fragment's message.
fn id_of(fragment: Fragment) -> u32
    ensures { result ≡ id_of fragment }
{
    match fragment {
        Fragment::First { id, .. } => id,
        Fragment::FollowOn { id, .. } => id,
    }
}

// A fragment, whose bytes are a part of the payload, handed to the store.
// Record, room and buffer stay three: with a struct of three &mut slices, each function would promise that its fields stay the same references.
#[inline(always)]
fn deliver_fragment(
    payload: &[u8],
    at: usize,
    fragment: Fragment,
    bytes: Part,
    rec: &mut [u8],
    room: &mut [u8],
    out: &mut [u8],
    neighbour: u64,
    second: u64,
) -> Result<Delivered, RefusedAt>
    ensures { delivery_with (received_as result) (lent rec.new room.new out.new) ≡ rebuilt at (fragment_call (lent rec.old room.old out.old) neighbour fragment second (part payload.now bytes.start bytes.len)) (id_of fragment) }
{
    let piece = shown(payload, bytes.start, bytes.len);
    let answer = reassembly_store::arrive(rec, room, out, neighbour, fragment, second, piece);
    rebuilt_by(at, answer, id_of(fragment))
}

// What a block of a type, with its fields and its bytes, delivers.
fn deliver(
    payload: &[u8],
    at: usize,
    kind: u8,
    fields: [u64; 8],
    bytes: Part,
    rec: &mut [u8],
    room: &mut [u8],
    out: &mut [u8],
    neighbour: u64,
    second: u64,
) -> Result<Delivered, RefusedAt>
    requires { fits (widths kind) fields ≡ true }
    ensures { delivery_with (received_as result) (lent rec.new room.new out.new) ≡ delivered_by payload.now at (lent rec.old room.old out.old) neighbour second kind fields bytes }
{
    if kind == I2NP {
        return Ok(whole(fields, bytes));
    }
    if kind == FIRST_FRAGMENT {
        return deliver_fragment(
            payload,
            at,
            first(fields),
            bytes,
            rec,
            room,
            out,
            neighbour,
            second,
        );
    }
    if kind == FOLLOW_ON_FRAGMENT {
        return deliver_fragment(
            payload,
            at,
            follow_on(fields),
            bytes,
            rec,
            room,
            out,
            neighbour,
            second,
        );
    }
    Ok(Delivered::Nothing)
}

// What the block at a place of a neighbour's payload delivers. Its refusal, or the store's, has the block's place.
pub fn receive(
    payload: &[u8],
    at: usize,
    rec: &mut [u8],
    room: &mut [u8],
    out: &mut [u8],
    neighbour: u64,
    second: u64,
) -> Result<Delivered, RefusedAt>
    ensures { delivery_with (received_as result) (lent rec.new room.new out.new) ≡ delivered payload.now at (lent rec.old room.old out.old) neighbour second (read_at payload.now at) }
{
    let block = blocks_reader::read_block(payload, at)?;
    let fields = block.fields;
    deliver(
        payload,
        at,
        block.kind,
        fields,
        block.bytes,
        rec,
        room,
        out,
        neighbour,
        second,
    )
}

// The bytes of the message that was delivered, as the part of the payload or of the assembly buffer that it is; none where the block was refused.
pub fn message<'a>(
    payload: &'a [u8],
    out: &'a [u8],
    answer: Result<Delivered, RefusedAt>,
) -> &'a [u8]
    ensures { result.now ≡ message_in payload.now out.now (received_as answer) }
{
    match answer {
        Ok(Delivered::Nothing) => &out[0..0],
        Ok(Delivered::Whole { bytes, .. }) => shown(payload, bytes.start, bytes.len),
        Ok(Delivered::Rebuilt { bytes, .. }) => shown(out, bytes.start, bytes.len),
        Err(_) => &out[0..0],
    }
}
