// Store calls, each lent as C passes it: the record is 9,352 bytes and the room 1,048,560 bytes that the caller keeps, as the last call left them.
ghost use Rattle.std.specs.Prelude.{◌≡◌, false, not, eqb};
ghost use Rattle.reassembly.specs.Calls.{lent, after};
ghost use Rattle.reassembly.specs.Shares.{first_call, follow_on_call, swept, renewed, renewal};

use reassembly::Reply;

// An empty store. 59 where the record is short, and then it stays.
#[unsafe(no_mangle)]
pub extern "C" fn strawhub_store_new(rec: &mut [u8]) -> u8
    ensures { (result ≡ renewal rec.old) × (rec.new ≡ renewed rec.old) }
{
    refusals::number_of(reassembly_store::new(rec))
}

// A first piece of a neighbour arrives: 0 kept, 60 with the message at the start of out and its head and length in the reply, or a refusal, and then nothing changes.
#[unsafe(no_mangle)]
pub extern "C" fn strawhub_store_first(
    rec: &mut [u8],
    room: &mut [u8],
    out: &mut [u8],
    neighbour: u64,
    id: u32,
    kind: u8,
    expires: u32,
    second: u64,
    bytes: &[u8],
) -> Reply
    ensures { after result (lent rec.new room.new out.new) ≡ first_call (lent rec.old room.old out.old) neighbour (record { id = id; number = 0; last = false; kind = kind; expires = expires }) second bytes.now }
{
    let answer = reassembly_store::first_fragment(
        rec, room, out, neighbour, id, kind, expires, second, bytes,
    );
    Reply::from(answer)
}

// A follow-on piece arrives, in the same way. Any last but 0 marks the last piece.
#[unsafe(no_mangle)]
pub extern "C" fn strawhub_store_follow_on(
    rec: &mut [u8],
    room: &mut [u8],
    out: &mut [u8],
    neighbour: u64,
    id: u32,
    number: u8,
    last: u8,
    second: u64,
    bytes: &[u8],
) -> Reply
    ensures { after result (lent rec.new room.new out.new) ≡ follow_on_call (lent rec.old room.old out.old) neighbour (record { id = id; number = number; last = not (eqb last 0); kind = 0; expires = 0 }) second bytes.now }
{
    let answer = reassembly_store::follow_on_fragment(
        rec,
        room,
        out,
        neighbour,
        id,
        number,
        last != 0,
        second,
        bytes,
    );
    Reply::from(answer)
}

// Drops exactly the messages that were opened 30 seconds ago or more, whoever sent them. Answers 0.
#[unsafe(no_mangle)]
pub extern "C" fn strawhub_store_sweep(rec: &mut [u8], second: u64) -> u8
    ensures { (result ≡ 0) × (rec.new ≡ swept second rec.old) }
{
    reassembly_store::sweep(rec, second);
    0
}
