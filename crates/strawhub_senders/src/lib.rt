// C calls: the sender's list, each call a few lines over a proved function. The sender is 4,104 bytes that the caller keeps.
// as usize: std has no From of a u32 for it.
#![tactic(auto)]

ghost use Rattle.std.specs.Prelude.{◌≡◌, length};
ghost use Rattle.wire.specs.Parts.{splice};
ghost use Rattle.sender.specs.Sender.{send, resend, ack};
ghost use Rattle.sender.specs.Recorded.{lent_answer, new_sender_record, answer_there, given_there, sender_after, settled_there, outstanding_there, packet_numbers};
ghost use Rattle.sender.specs.Outcomes.{told_as};
ghost use Rattle.numbers_outcomes.specs.Outcomes.{outcome};

use acks_expand::Ack;
use numbers_outcomes::{Outcome, outcome_of};
use refusals::Refusal;
use sender::SENDER_SIZE;

// What is told of an answer, in the words of the sender's definitions: `told_as`, where a From would name one definition for all.
fn told(answer: Result<usize, Refusal>) -> Outcome
    ensures { result ≡ outcome (told_as answer).answer (told_as answer).value }
{
    outcome_of(answer)
}

// A sender that has given out nothing. 59 where the record is short, and then it stays.
#[unsafe(no_mangle)]
pub extern "C" fn strawhub_sender_new(sender: &mut [u8]) -> u32
    ensures { (result ≡ lent_answer sender.old) × (sender.new ≡ new_sender_record sender.old) }
{
    if sender.len() < SENDER_SIZE {
        return u32::from(Refusal::LentShort.number());
    }
    sender[..SENDER_SIZE].fill(0);
    0
}

// A packet is sent, at a second: 0 and its number; or 59, 71, 70, and then the sender stays.
#[unsafe(no_mangle)]
pub extern "C" fn strawhub_sender_send(sender: &mut [u8], second: u64) -> Outcome
    ensures { (result ≡ outcome (answer_there sender.old (send second)) (given_there sender.old (send second))) × (sender.new ≡ sender_after sender.old (send second)) }
{
    let answer = sender_list::send_in(sender, second);
    told(answer.map(|number| number as usize))
}

// The packet of a number is sent again: 0 and its new number; or 59, 73, 71, and then the sender stays.
#[unsafe(no_mangle)]
pub extern "C" fn strawhub_sender_resend(sender: &mut [u8], number: u32, second: u64) -> Outcome
    ensures { (result ≡ outcome (answer_there sender.old (resend number second)) (given_there sender.old (resend number second))) × (sender.new ≡ sender_after sender.old (resend number second)) }
{
    let answer = sender_list::resend_in(sender, number, second);
    told(answer.map(|number| number as usize))
}

// An Ack block came: 0 and how many packets it settles, their numbers in front of settled, the oldest first; or 59, 44, 72, and then both stay.
#[unsafe(no_mangle)]
pub extern "C" fn strawhub_sender_ack(
    sender: &mut [u8],
    through: u32,
    count: u8,
    pairs: &[u8],
    settled: &mut [u32; 256],
) -> Outcome
    ensures { (result ≡ outcome (answer_there sender.old (ack through count pairs.now)) (length (settled_there sender.old (ack through count pairs.now)))) × (sender.new ≡ sender_after sender.old (ack through count pairs.now)) × (settled.new ≡ splice settled.old 0 (settled_there sender.old (ack through count pairs.now))) }
{
    let said = Ack {
        through,
        count,
        pairs,
    };
    told(sender_acks::ack_in(sender, said, settled))
}

// The k-th outstanding packet, the oldest first: its number, second and resends in out, which stays where there are not so many. 0 and how many there are; or 59, and then out stays.
#[unsafe(no_mangle)]
pub extern "C" fn strawhub_sender_outstanding(
    sender: &[u8],
    k: usize,
    out: &mut [u64; 3],
) -> Outcome
    ensures { (result ≡ outcome (lent_answer sender.now) (outstanding_there sender.now)) × (out.new ≡ packet_numbers sender.now k out.old) }
{
    // Asked before out is written: the count is then read once.
    let count = sender_list::outstanding_in(sender);
    if let Some(packet) = sender_list::packet_in(sender, k) {
        *out = [
            u64::from(packet.number),
            packet.second,
            u64::from(packet.resends),
        ];
    }
    told(count)
}
