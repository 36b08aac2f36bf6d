// C calls: the tracker, each call a few lines over a proved function. The tracker is 259 bytes that the caller keeps, the highest number in four and 255 marks.
#![tactic(auto)]

ghost use Rattle.std.specs.Prelude.{◌≡◌, length};
ghost use Rattle.acks.specs.Recorded.{register_there, record_after, duplicate_there, report_there};
ghost use Rattle.acks.specs.Expanding.{expand_of, list_after};
ghost use Rattle.acks_expand.specs.Expanding.{expanded_as};
ghost use Rattle.acks.specs.AckBlocks.{ack_writing, ack_room};
ghost use Rattle.refusals.specs.Numbers.{number_of, numbered};
ghost use Rattle.numbers_outcomes.specs.Outcomes.{write_outcome};
ghost use Rattle.numbers_outcomes.specs.Trackers.{new_answer, new_record, report_numbers, report_pairs};

use acks::{Expanded, TRACKER_SIZE};
use acks_expand::Ack;
use acks_reports::ack_block::write_ack;
use acks_tracker::recorded::{is_duplicate_in, register_in};
use numbers_outcomes::{Outcome, outcome_of};
use refusals::{Refusal, number_of};

// All zero is a tracker that has seen nothing. Its size and its two definitions are its own, so no function is shared with the sender and the store.
fn begin(tracker: &mut [u8]) -> Result<(), Refusal>
    ensures { (number_of result ≡ new_answer tracker.old) × (tracker.new ≡ new_record tracker.old) }
{
    if tracker.len() < TRACKER_SIZE {
        return Err(Refusal::LentShort);
    }
    tracker[..TRACKER_SIZE].fill(0);
    Ok(())
}

// A tracker that has seen nothing. 59 where the record is short, and then it stays.
#[unsafe(no_mangle)]
pub extern "C" fn strawhub_tracker_new(tracker: &mut [u8]) -> u32
    ensures { (result ≡ new_answer tracker.old) × (tracker.new ≡ new_record tracker.old) }
{
    u32::from(number_of(begin(tracker)))
}

// The number of a packet whose payload was authenticated: 0, or 40, 42, 43, 59, and then the tracker stays.
#[unsafe(no_mangle)]
pub extern "C" fn strawhub_tracker_register(tracker: &mut [u8], n: u32) -> u32
    ensures { (result ≡ register_there tracker.old n) × (tracker.new ≡ record_after tracker.old n) }
{
    u32::from(number_of(register_in(tracker, n)))
}

// Whether a number is in the window and received: 1 for yes, 0 for no, 59 where the record is short.
#[unsafe(no_mangle)]
pub extern "C" fn strawhub_tracker_duplicate(tracker: &[u8], n: u32) -> u32
    ensures { result ≡ duplicate_there tracker.now n }
{
    match is_duplicate_in(tracker, n) {
        Ok(true) => 1,
        Ok(false) => 0,
        Err(refusal) => u32::from(refusal.number()),
    }
}

// The report in lent arrays; refused, both stay.
// as u64: std has no From of a usize for it.
fn put_report(tracker: &[u8], out: &mut [u64; 3], pairs: &mut [u8; 254]) -> Result<(), Refusal>
    ensures { (number_of result ≡ (report_there tracker.now).number) × (out.new ≡ report_numbers (report_there tracker.now) out.old) × (pairs.new ≡ report_pairs (report_there tracker.now) pairs.old) }
{
    let report = acks_reports::report_in(tracker)?;
    *out = [
        u64::from(report.through),
        u64::from(report.count),
        report.pairs.len as u64,
    ];
    let bytes = report.pairs.bytes;
    *pairs = bytes;
    Ok(())
}

// The report: through, count and the count of pair bytes in out, the pairs as an Ack block has them; 41 or 59, and then both stay.
#[unsafe(no_mangle)]
pub extern "C" fn strawhub_tracker_report(
    tracker: &[u8],
    out: &mut [u64; 3],
    pairs: &mut [u8; 254],
) -> u32
    ensures { (result ≡ (report_there tracker.now).number) × (out.new ≡ report_numbers (report_there tracker.now) out.old) × (pairs.new ≡ report_pairs (report_there tracker.now) pairs.old) }
{
    u32::from(number_of(put_report(tracker, out, pairs)))
}

// The report as an Ack block at the start of a room: its length, or 41, 59, 30, and then the room stays.
#[unsafe(no_mangle)]
pub extern "C" fn strawhub_tracker_ack_block(tracker: &[u8], room: &mut [u8]) -> Outcome
    ensures { (result ≡ write_outcome (ack_writing (report_there tracker.now) (length room.old))) × (room.new ≡ ack_room (report_there tracker.now) room.old) }
{
    let report = acks_reports::report_in(tracker);
    outcome_of(write_ack(report, room))
}

// 0 and how many numbers there are; or the number of the refusal, and 0. Its definition is `expanded_as`: a From would name one for all.
fn expanded(answer: Result<usize, Refusal>) -> Expanded
    ensures { result ≡ expanded_as answer }
{
    match answer {
        Ok(names) => Expanded {
            number: 0,
            count: names,
        },
        Err(refusal) => Expanded {
            number: u32::from(refusal.number()),
            count: 0,
        },
    }
}

// The numbers that an acknowledgement names, falling, in front of a list; 44 or 46, and then the list stays.
#[unsafe(no_mangle)]
pub extern "C" fn strawhub_ack_expand(
    through: u32,
    count: u8,
    pairs: &[u8],
    list: &mut [u32],
) -> Expanded
    ensures { (result ≡ expand_of through count pairs.now (length list.old)) × (list.new ≡ list_after through count pairs.now list.old) }
{
    let said = Ack {
        through,
        count,
        pairs,
    };
    expanded(said.expand(list))
}
