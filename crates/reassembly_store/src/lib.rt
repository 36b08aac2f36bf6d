// Pieces of messages of four neighbours, put together: the store of document 01, with the fair slots of request P12.
// The record is a slice with a clause: docs/FREE.md names these functions for every slice that is long enough, and an array would ask for more.
#![tactic(auto)]

ghost use Rattle.std.specs.Prelude.{◌≡◌, false, ◌<◌, ◌≤◌, length};
ghost use Rattle.refusals.specs.Numbers.{number_of};
ghost use Rattle.reassembly.specs.Sizes.{share_room, share_size, record_size};
ghost use Rattle.reassembly.specs.Store.{first, follow};
ghost use Rattle.reassembly.specs.Neighbours.{step_from};
ghost use Rattle.reassembly.specs.Calls.{lent, after, swept_at, swept_to, share_swept};
ghost use Rattle.reassembly.specs.Arrivals.{reply_of};
ghost use Rattle.reassembly.specs.Shares.{lent_short, first_call, follow_on_call, shares_swept, swept, renewed, renewal};
ghost use Rattle.reassembly.specs.Standing.{neighbours_of, AllMade, AllAgree, SweepAgrees, NewAgrees};
ghost use Rattle.reassembly.specs.Fragments.{fragment_taken, fragment_call};

use reassembly::{Arrival, Fragment, Label, RECORD_SIZE, ROOM_SIZE, SHARE_ROOM, SHARE_SIZE};
use reassembly_slots::summary;
use refusals::Refusal;

// 59: the lent record or room is short.
#[tactic(auto, unfolding(reassembly::specs::Shares::lent_short))]
fn is_short(rec: &[u8], room: &[u8]) -> bool
    ensures { result ≡ lent_short rec.now room.now }
{
    (rec.len() < RECORD_SIZE) | (room.len() < ROOM_SIZE)
}

// A fragment is taken into its neighbour's share.
#[inline(always)]
fn take(
    rec: &mut [u8],
    room: &mut [u8],
    out: &mut [u8],
    fragment: Fragment,
    second: u64,
    bytes: &[u8],
) -> Result<Arrival, Refusal>
    requires { (share_size ≤ length rec.old) × (share_room ≤ length room.old) }
    ensures { after (reply_of result) (lent rec.new room.new out.new) ≡ fragment_taken (lent rec.old room.old out.old) fragment second bytes.now }
{
    match fragment {
        Fragment::First { id, kind, expires } => {
            let label = Label {
                id,
                number: 0,
                last: false,
                kind,
                expires,
            };
            reassembly_taking::take_first(rec, room, out, label, second, bytes)
        }
        Fragment::FollowOn { id, number, last } => {
            let label = Label {
                id,
                number,
                last,
                kind: 0,
                expires: 0,
            };
            reassembly_taking::take_follow_on(rec, room, out, label, second, bytes)
        }
    }
}

// A fragment of a neighbour arrives at the present second. The neighbour's share of record and room is all that it comes to. Each is passed as C passes it.
// Record, room and buffer stay three: with a struct of three &mut slices, each function would promise that its fields stay the same references.
// inline(always) here, on take and on deliver_fragment of messages: by calls, each fragment and each answer would go through memory once more.
#[inline(always)]
pub fn arrive(
    rec: &mut [u8],
    room: &mut [u8],
    out: &mut [u8],
    neighbour: u64,
    fragment: Fragment,
    second: u64,
    bytes: &[u8],
) -> Result<Arrival, Refusal>
    ensures { after (reply_of result) (lent rec.new room.new out.new) ≡ fragment_call (lent rec.old room.old out.old) neighbour fragment second bytes.now }
{
    if is_short(rec, room) {
        return Err(Refusal::LentShort);
    }
    if 3 < neighbour {
        return Err(Refusal::NeighbourHigh);
    }
    // Below 4 here, so as changes nothing.
    let n = neighbour as usize;
    let a = n * SHARE_SIZE;
    let e = a + SHARE_SIZE;
    let b = n * SHARE_ROOM;
    let f = b + SHARE_ROOM;
    take(
        &mut rec[a..e],
        &mut room[b..f],
        out,
        fragment,
        second,
        bytes,
    )
}

// A first fragment of a neighbour arrives, with its message's type and expiration.
// This and the next are arrive with a fragment by its parts, as README and docs/ name them.
pub fn first_fragment(
    rec: &mut [u8],
    room: &mut [u8],
    out: &mut [u8],
    neighbour: u64,
    id: u32,
    kind: u8,
    expires: u32,
    second: u64,
    bytes: &[u8],
) -> Result<Arrival, Refusal>
    ensures out_after { after (reply_of result) (lent rec.new room.new out.new) ≡ first_call (lent rec.old room.old out.old) neighbour (record { id = id; number = 0; last = false; kind = kind; expires = expires }) second bytes.now }
    ensures all_agree { AllMade rec.old room.old → AllAgree out.old (after (reply_of result) (lent rec.new room.new out.new)) (step_from (length out.old) (neighbours_of rec.old room.old) neighbour (first id kind expires bytes.now) second) }
{
    arrive(
        rec,
        room,
        out,
        neighbour,
        Fragment::First { id, kind, expires },
        second,
        bytes,
    )
}

// A follow-on fragment of a neighbour arrives, with its number and whether it is the last.
pub fn follow_on_fragment(
    rec: &mut [u8],
    room: &mut [u8],
    out: &mut [u8],
    neighbour: u64,
    id: u32,
    number: u8,
    last: bool,
    second: u64,
    bytes: &[u8],
) -> Result<Arrival, Refusal>
    ensures out_after { after (reply_of result) (lent rec.new room.new out.new) ≡ follow_on_call (lent rec.old room.old out.old) neighbour (record { id = id; number = number; last = last; kind = 0; expires = 0 }) second bytes.now }
    ensures all_agree { AllMade rec.old room.old → AllAgree out.old (after (reply_of result) (lent rec.new room.new out.new)) (step_from (length out.old) (neighbours_of rec.old room.old) neighbour (follow id number last bytes.now) second) }
{
    arrive(
        rec,
        room,
        out,
        neighbour,
        Fragment::FollowOn { id, number, last },
        second,
        bytes,
    )
}

// Slot i of a share is free where its message is old, and one less is open.
#[tactic(auto, unfolding(reassembly::specs::Calls::swept_at))]
fn sweep_one(rec: &mut [u8], i: usize, second: u64)
    requires { (share_size ≤ length rec.old) × (i < 4) }
    ensures { rec.new ≡ swept_at second rec.old i }
{
    if reassembly_judge::is_old(reassembly_records::load_head(rec, i), second) {
        reassembly_records::save_head(rec, i, reassembly_judge::no_head());
        summary::lower(rec);
    }
}

fn sweep_slots(rec: &mut [u8], second: u64)
    requires { share_size ≤ length rec.old }
    ensures { rec.new ≡ swept_to second rec.old 4 }
{
    for i in 0..4 {
        sweep_one(rec, i, second);
    }
}

// A neighbour's share swept: old messages are dropped, finished ones that are due are forgotten.
#[tactic(auto, unfolding(reassembly::specs::Calls::share_swept))]
fn sweep_share(rec: &mut [u8], second: u64)
    requires { share_size ≤ length rec.old }
    ensures { rec.new ≡ share_swept second rec.old }
{
    sweep_slots(rec, second);
    reassembly_memory::forget(rec, second);
}

fn sweep_all(rec: &mut [u8], second: u64)
    requires { record_size ≤ length rec.old }
    ensures { rec.new ≡ shares_swept second rec.old 4 }
{
    for n in 0..4 {
        let a = n * SHARE_SIZE;
        let e = a + SHARE_SIZE;
        sweep_share(&mut rec[a..e], second);
    }
}

// Drops the messages that were opened 30 seconds ago or earlier, and forgets those that finished then, whoever sent them.
pub fn sweep(rec: &mut [u8], second: u64)
    ensures value { rec.new ≡ swept second rec.old }
    ensures sweep_agrees { SweepAgrees second rec.old rec.new }
{
    if RECORD_SIZE <= rec.len() {
        sweep_all(rec, second);
    }
}

// A new store: the record is all zero. 59 where the record is short.
#[tactic(auto, using(std::proofs::lemmas::Bool::Decides::nat_tests, reassembly::proofs::NewShares::new_promise), unfolding(reassembly::specs::Shares::renewal, reassembly::specs::Shares::renewed))]
pub fn new(rec: &mut [u8]) -> Result<(), Refusal>
    ensures value { (number_of result ≡ renewal rec.old) × (rec.new ≡ renewed rec.old) }
    ensures new_agrees { NewAgrees rec.old rec.new }
{
    if rec.len() < RECORD_SIZE {
        return Err(Refusal::LentShort);
    }
    reassembly_records::clear(rec, 0, RECORD_SIZE);
    Ok(())
}
