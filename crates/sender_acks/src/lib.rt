// An Ack block fed to a sender, on a record that the caller lends: one walk up the list beside one up the pairs.
// The record is a slice with a clause: docs/FREE.md names these functions for every slice that is long enough, and an array would ask for more.
#![tactic(auto)]

ghost use Rattle.std.specs.Prelude.{◌≡◌, cond, ◌+◌, ◌-◌, ◌*◌, ◌<◌, ◌≤◌, length};
ghost use Rattle.wire.specs.Parts.{part, splice};
ghost use Rattle.acks.specs.History.{among};
ghost use Rattle.acks.specs.Expanding.{ack_numbers};
ghost use Rattle.sender.specs.Sizes.{most_outstanding, packets_at, packet_size, sender_size};
ghost use Rattle.sender.specs.Sender.{ack};
ghost use Rattle.sender.specs.Recorded.{outstanding_count, packet_at, answer_there, sender_after, settled_there};
ghost use Rattle.sender.specs.Outcomes.{told_as};
ghost use Rattle.sender.specs.Settling.{Passed, Walked};
ghost use Rattle.sender_acks.specs.Unnamed.{Unnamed};

use acks_expand::{Ack, Measured};
use acks_naming::Walk;
use refusals::Refusal;
use sender::SENDER_SIZE;

// The packets in front of the first that is named, which stay where they stand: how many, and where the walk stands then.
fn pass<'a>(rec: &[u8], said: Measured<'a>, outstanding: usize) -> (usize, Walk<'a>)
    requires { (sender_size ≤ length rec.now) × (outstanding ≤ most_outstanding) }
    ensures { (result.0 ≤ outstanding) × Unnamed said.entry.ack.through said.entry.ack.count said.entry.ack.pairs.now rec.now result.0 × (result.1.said ≡ said.entry) }
{
    let mut walk = Walk::new(said);
    for k in 0..outstanding {
        let next = walk.find(sender_records::number_at(rec, k));
        if next.named {
            return (k, next);
        }
        walk = next;
    }
    (outstanding, walk)
}

// The k-th packet moves down behind those that are kept; where all before it are, it stands there already. kept and k are two places, used one by one.
fn keep_one(rec: &mut [u8], kept: usize, k: usize)
    requires { (sender_size ≤ length rec.old) × (kept ≤ k) × (k < most_outstanding) }
    ensures { rec.new ≡ splice rec.old (packets_at + kept * packet_size) (part rec.old (packets_at + k * packet_size) packet_size) }
{
    if kept == k {
        return;
    }
    let packet = sender_records::packet_at(rec, k);
    sender_records::put_packet(rec, kept, packet);
}

// The k-th packet: named, its number joins the settled ones; else it moves down behind those that are kept.
fn settle_one<'a>(
    rec: &mut [u8],
    settled: &mut [u32],
    walk: Walk<'a>,
    kept: usize,
    k: usize,
) -> Walk<'a>
    requires { (sender_size ≤ length rec.old) × (most_outstanding ≤ length settled.old) × (kept ≤ k) × (k < most_outstanding) }
    ensures { Passed (among (ack_numbers walk.entry.said.ack.through walk.entry.said.ack.count walk.entry.said.ack.pairs.now) (packet_at rec.old k).number) k kept (cond result.named kept (kept + 1)) rec.old rec.new settled.old settled.new × (result.said ≡ walk.entry.said) }
{
    let number = sender_records::number_at(rec, k);
    let next = walk.find(number);
    if next.named {
        settled[k - kept] = number;
        return next;
    }
    keep_one(rec, kept, k);
    next
}

// All of them, the oldest first: how many are kept.
fn settle(rec: &mut [u8], said: Measured, settled: &mut [u32], outstanding: usize) -> usize
    requires { (sender_size ≤ length rec.old) × (most_outstanding ≤ length settled.old) × (outstanding ≡ outstanding_count rec.old) × (outstanding ≤ most_outstanding) }
    ensures { Walked (ack said.entry.ack.through said.entry.ack.count said.entry.ack.pairs.now) result rec.old rec.new settled.old settled.new }
{
    let (passed, mut walk) = pass(rec, said, outstanding);
    let mut kept = passed;
    for k in passed..outstanding {
        let next = settle_one(rec, settled, walk, kept, k);
        kept += usize::from(!next.named);
        walk = next;
    }
    kept
}

// An Ack block comes: how many packets it settles, their numbers in front of a list, the oldest first; or 59, 44, 72, and then both stay.
pub fn ack_in(rec: &mut [u8], said: Ack, settled: &mut [u32; 256]) -> Result<usize, Refusal>
    ensures { (told_as result ≡ record { answer = answer_there rec.old (ack said.entry.through said.entry.count said.entry.pairs.now); value = length (settled_there rec.old (ack said.entry.through said.entry.count said.entry.pairs.now)) }) × (rec.new ≡ sender_after rec.old (ack said.entry.through said.entry.count said.entry.pairs.now)) × (settled.new ≡ splice settled.old 0 (settled_there rec.old (ack said.entry.through said.entry.count said.entry.pairs.now))) }
{
    if rec.len() < SENDER_SIZE {
        return Err(Refusal::LentShort);
    }
    let Some(measured) = said.measure() else {
        return Err(Refusal::BelowZero);
    };
    let highest = sender_records::highest_of(rec);
    if highest < said.through {
        return Err(Refusal::NeverGivenOut);
    }
    let outstanding = sender_records::count_of(rec);
    let kept = settle(rec, measured, settled, outstanding);
    sender_records::put_head(rec, highest, kept);
    Ok(outstanding - kept)
}
