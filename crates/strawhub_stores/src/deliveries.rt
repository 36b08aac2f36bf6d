// What a block delivers, by numbers.
ghost use Rattle.std.specs.Prelude.{◌≡◌};
ghost use Rattle.numbers_outcomes.specs.Deliveries.{delivery_outcome, delivery_numbers, told_with, deliver_call};
ghost use Rattle.messages.specs.Answers.{received_as};
ghost use Rattle.reassembly.specs.Calls.{lent};

use blocks::RefusedAt;
use messages::Delivered;
use numbers_outcomes::Outcome;

// What was delivered put into the lent numbers; refused, they stay. C is told where by a number, and 60 of a message that was rebuilt.
// as u64: std has no From of a usize for it.
fn tell(answer: Result<Delivered, RefusedAt>, told: &mut [u64; 6]) -> Outcome
    ensures { (result ≡ delivery_outcome (received_as answer)) × (told.new ≡ delivery_numbers (received_as answer) told.old) }
{
    match answer {
        Ok(Delivered::Nothing) => {
            *told = [0; 6];
            Outcome::done(0)
        }
        Ok(
            Delivered::Whole {
                kind,
                id,
                expires,
                bytes,
            },
        ) => {
            let (start, length) = (bytes.start as u64, bytes.len as u64);
            *told = [
                1,
                u64::from(kind),
                u64::from(id),
                u64::from(expires),
                start,
                length,
            ];
            Outcome::done(0)
        }
        Ok(
            Delivered::Rebuilt {
                kind,
                id,
                expires,
                bytes,
            },
        ) => {
            let (start, length) = (bytes.start as u64, bytes.len as u64);
            *told = [
                2,
                u64::from(kind),
                u64::from(id),
                u64::from(expires),
                start,
                length,
            ];
            Outcome {
                number: 60,
                value: 0,
            }
        }
        Err(RefusedAt { refusal, place }) => Outcome::refused(refusal, place),
    }
}

// What the block at a place of a neighbour's payload delivers: 0 and 60 with the message in told; or the block's refusal or the store's, with the block's place, and then nothing changes.
#[unsafe(no_mangle)]
pub extern "C" fn strawhub_block_deliver(
    payload: &[u8],
    at: usize,
    rec: &mut [u8],
    room: &mut [u8],
    out: &mut [u8],
    neighbour: u64,
    second: u64,
    told: &mut [u64; 6],
) -> Outcome
    ensures { told_with result told.new (lent rec.new room.new out.new) ≡ deliver_call payload.now at (lent rec.old room.old out.old) neighbour second told.old }
{
    let answer = messages::receive(payload, at, rec, room, out, neighbour, second);
    tell(answer, told)
}
