// A payload's blocks, listed into records that the caller lends.
ghost use Rattle.std.specs.Prelude.{◌≡◌, length};
ghost use Rattle.blocks_listing.specs.Listing.{listing, listing_answer, entries_after};
ghost use Rattle.numbers_outcomes.specs.Listings.{list_outcome};

use blocks::RefusedAt;
use blocks_listing::Entry;
use numbers_outcomes::Outcome;

// 0 and the count of blocks, a record for each in the list; or 1 to 10 and the place of the block that was refused, and then the list stays.
#[unsafe(no_mangle)]
pub extern "C" fn strawhub_block_list(payload: &[u8], list: &mut [Entry]) -> Outcome
    ensures { (result ≡ list_outcome (listing_answer (listing (length list.old) payload.now))) × (list.new ≡ entries_after (listing (length list.old) payload.now) list.old) }
{
    match blocks_listing::list_blocks(payload, list) {
        Ok(count) => Outcome::done(count),
        Err(RefusedAt { refusal, place }) => Outcome::refused(refusal, place),
    }
}
