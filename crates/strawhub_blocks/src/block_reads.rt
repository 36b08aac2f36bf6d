// Reading a block by numbers.
ghost use Rattle.std.specs.Prelude.{◌≡◌};
ghost use Rattle.blocks.specs.Reading.{read_at};
ghost use Rattle.blocks.specs.Numbers.{as_numbers, read_numbers};
ghost use Rattle.numbers_outcomes.specs.Outcomes.{read_outcome};

use blocks::{FOLLOW_ON_BYTE, FOLLOW_ON_FRAGMENT, FOLLOW_ON_ID, RefusedAt};
use numbers_outcomes::Outcome;

// A block's fields as they are passed: of a follow-on's first byte its number, and the mark of the last.
#[tactic(auto, using(std::proofs::lemmas::Bool::Decides::nat_tests, crate::proofs::Numbers::follow_on_as_numbers), unfolding(blocks::specs::Numbers::as_numbers))]
fn as_numbers(kind: u8, fields: [u64; 8]) -> [u64; 8]
    ensures { result ≡ as_numbers kind fields }
{
    if kind == FOLLOW_ON_FRAGMENT {
        let byte = fields[FOLLOW_ON_BYTE];
        return [byte / 2, byte % 2, fields[FOLLOW_ON_ID], 0, 0, 0, 0, 0];
    }
    fields
}

// Reads the block at a place: 0 and the place after it, its numbers in out; or the refusal and the block's place, and then out is as it was.
// as u64: std has no From of a usize for it.
#[unsafe(no_mangle)]
pub extern "C" fn strawhub_block_read(payload: &[u8], at: usize, out: &mut [u64; 12]) -> Outcome
    ensures { (result ≡ read_outcome (read_at payload.now at)) × (out.new ≡ read_numbers (read_at payload.now at) out.old) }
{
    match blocks_reader::read_block(payload, at) {
        Ok(block) => {
            let fields = block.fields;
            let v = as_numbers(block.kind, fields);
            *out = [
                u64::from(block.kind),
                u64::from(block.size),
                block.bytes.start as u64,
                block.bytes.len as u64,
                v[0],
                v[1],
                v[2],
                v[3],
                v[4],
                v[5],
                v[6],
                v[7],
            ];
            Outcome::done(block.next)
        }
        Err(RefusedAt { refusal, place }) => Outcome::refused(refusal, place),
    }
}
