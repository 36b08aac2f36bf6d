// The sender's calls but for the ack, on a record that the caller lends: changed in place, without a copy. All zero is a sender that has given out nothing.
// Each call tests the record's length by itself, a line each: a function with `?` in its place would be as long.
#![tactic(auto)]

ghost use Rattle.std.specs.Prelude.{◌≡◌, ◌<◌, ◌≤◌, length, MatchOption};
ghost use Rattle.sender.specs.Sender.{send, resend, place_of};
ghost use Rattle.sender.specs.Sizes.{sender_size};
ghost use Rattle.sender.specs.Recorded.{outstanding_count, packet_at, sender_at, lent_answer, answer_there, given_there, sender_after, outstanding_there};
ghost use Rattle.sender.specs.Outcomes.{told_as};
ghost use Rattle.sender.specs.Packets.{packet_as};

use refusals::Refusal;
use sender::{LAST_NUMBER, MOST_OUTSTANDING, Packet, SENDER_SIZE};

// A packet is sent: its number; or 59, 71, 70, and then the record stays.
pub fn send_in(rec: &mut [u8], second: u64) -> Result<u32, Refusal>
    ensures { (told_as result ≡ record { answer = answer_there rec.old (send second); value = given_there rec.old (send second) }) × (rec.new ≡ sender_after rec.old (send second)) }
{
    if rec.len() < SENDER_SIZE {
        return Err(Refusal::LentShort);
    }
    let highest = sender_records::highest_of(rec);
    if LAST_NUMBER <= highest {
        return Err(Refusal::NumbersUsedUp);
    }
    let count = sender_records::count_of(rec);
    if MOST_OUTSTANDING <= count {
        return Err(Refusal::SenderFull);
    }
    let number = highest + 1;
    let packet = Packet {
        number,
        second,
        resends: 0,
    };
    sender_records::put_packet(rec, count, packet);
    sender_records::put_head(rec, number, count + 1);
    Ok(number)
}

// Where the packet of a number stands among the outstanding ones, if it is one of them. A loop: a closure is not told that its k is below the count.
fn place_of(rec: &[u8], count: usize, n: u32) -> Option<usize>
    requires { (sender_size ≤ length rec.now) × (count ≡ outstanding_count rec.now) }
    ensures { MatchOption result (place_of n (sender_at rec.now).packets ≡ count) (λ k. (k ≡ place_of n (sender_at rec.now).packets) × (k < count)) }
{
    for k in 0..count {
        if sender_records::number_at(rec, k) == n {
            return Some(k);
        }
    }
    None
}

// The packet of a number is sent again: its new number; or 59, 73, 71, and then the record stays. Those behind the old one move down, and the new one stands last.
pub fn resend_in(rec: &mut [u8], n: u32, second: u64) -> Result<u32, Refusal>
    ensures { (told_as result ≡ record { answer = answer_there rec.old (resend n second); value = given_there rec.old (resend n second) }) × (rec.new ≡ sender_after rec.old (resend n second)) }
{
    if rec.len() < SENDER_SIZE {
        return Err(Refusal::LentShort);
    }
    let count = sender_records::count_of(rec);
    let Some(k) = place_of(rec, count, n) else {
        return Err(Refusal::NotOutstanding);
    };
    let highest = sender_records::highest_of(rec);
    if LAST_NUMBER <= highest {
        return Err(Refusal::NumbersUsedUp);
    }
    let old = sender_records::packet_at(rec, k);
    sender_records::move_to(rec, k, k + 1, count - k - 1);
    let number = highest + 1;
    // Calls never reach the last count: each resend uses up a number.
    let packet = Packet {
        number,
        second,
        resends: old.resends.wrapping_add(1),
    };
    sender_records::put_packet(rec, count - 1, packet);
    sender_records::put_head(rec, number, count);
    Ok(number)
}

// How many packets are outstanding; or 59.
pub fn outstanding_in(rec: &[u8]) -> Result<usize, Refusal>
    ensures { told_as result ≡ record { answer = lent_answer rec.now; value = outstanding_there rec.now } }
{
    if rec.len() < SENDER_SIZE {
        return Err(Refusal::LentShort);
    }
    Ok(sender_records::count_of(rec))
}

// The k-th outstanding packet, the oldest first; none where there are not so many, or the record is short.
pub fn packet_in(rec: &[u8], k: usize) -> Option<Packet>
    ensures { MatchOption result (outstanding_there rec.now ≤ k) (λ p. (k < outstanding_there rec.now) × (packet_as p ≡ packet_at rec.now k)) }
{
    if rec.len() < SENDER_SIZE {
        return None;
    }
    if k < sender_records::count_of(rec) {
        return Some(sender_records::packet_at(rec, k));
    }
    None
}
