// The slots of a neighbour, in its share of the lent bytes. Here: the slot of a message, found by its id, or the first that is free.
// The record is a slice with a clause: docs/FREE.md names these functions for every slice that is long enough, and an array would ask for more.
#![tactic(auto)]

pub mod pieces; // pieces.rt: held pieces, and the message that they make
pub mod summary; // summary.rt: how many messages are open

ghost use Rattle.std.specs.Prelude.{◌≡◌, ◌<◌, ◌≤◌, length, unwrap_or, IfSome};
ghost use Rattle.reassembly.specs.Sizes.{share_size};
ghost use Rattle.reassembly.specs.Slots.{first_from, is_open_as, is_free};

use reassembly::Head;

// The slot of the open message with an id.
pub fn find(rec: &[u8], id: u32) -> Option<usize>
    requires { share_size ≤ length rec.now }
    ensures slot { unwrap_or result 4 ≡ first_from (is_open_as rec.now id) 0 4 }
    ensures below { IfSome result (λ i. i < 4) }
{
    (0..4).find(|i| {
        let h = reassembly_records::load_head(rec, *i);
        (h.count != 0) & (h.id == id)
    })
}

// The first free slot.
pub fn vacant(rec: &[u8]) -> Option<usize>
    requires { share_size ≤ length rec.now }
    ensures slot { unwrap_or result 4 ≡ first_from (is_free rec.now) 0 4 }
    ensures below { IfSome result (λ i. i < 4) }
{
    (0..4).find(|i| reassembly_records::load_head(rec, *i).count == 0)
}
