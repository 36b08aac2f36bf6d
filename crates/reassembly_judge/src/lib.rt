// What a piece is to a slot: pure steps on the slot's head and the piece's label.
// No methods of Head: these would stand in crate reassembly, and this crate's must-fail edits are held to its own source.
#![tactic(auto)]

ghost use Rattle.std.specs.Prelude.{◌≡◌, ◌+◌, ◌<◌, ◌≤◌};
ghost use Rattle.refusals.specs.Numbers.{number};
ghost use Rattle.reassembly.specs.Sizes.{message_size};
ghost use Rattle.reassembly.specs.Ages.{long_ago};
ghost use Rattle.reassembly.specs.Judge.{same_label, again, misfits, grown_by, is_complete, new_head, no_head, is_old};

use reassembly::{Head, Label};
use refusals::Refusal;

// The held piece of the label's number came with the same head, or the same flag.
#[tactic(auto, unfolding(reassembly::specs::Judge::same_label))]
fn same_label(h: Head, l: Label) -> bool
    ensures { result ≡ same_label h l }
{
    if l.number == 0 {
        return (h.kind == l.kind) & (h.expires == l.expires);
    }
    (h.last == l.number) == l.last
}

// A piece whose number is held: 54 where it is an exact repeat, 55 where it is not.
#[tactic(auto, unfolding(reassembly::specs::Judge::again))]
pub fn again(h: Head, l: Label, held: &[u8], bytes: &[u8]) -> Refusal
    ensures { number result ≡ again h l held.now bytes.now }
{
    if same_label(h, l) && wire::same_bytes(held, bytes) {
        return Refusal::PieceAgain;
    }
    Refusal::PieceConflict
}

// 55, of a piece whose number is not held: it is above the known last; or it is a last, below a held number or beside another last.
#[tactic(auto, unfolding(reassembly::specs::Judge::misfits))]
pub fn misfits(h: Head, l: Label) -> bool
    ensures { result ≡ misfits h l }
{
    ((0 < h.last) & (h.last < l.number)) | (l.last & ((l.number < h.top) | (0 < h.last)))
}

// The head with a piece of n bytes more.
#[tactic(auto, unfolding(reassembly::specs::Judge::grown_by, reassembly::specs::Judge::more_of))]
pub fn grown(h: Head, l: Label, n: u16) -> Head
    requires { h.total + n ≤ message_size }
    ensures { result ≡ grown_by h l n }
{
    let mut g = h;
    g.total += n;
    g.count = h.count.saturating_add(1);
    g.top = h.top.max(l.number);
    if l.last {
        g.last = l.number;
    }
    if l.number == 0 {
        g.kind = l.kind;
        g.expires = l.expires;
    }
    g
}

// A last number is known, and as many numbers are held as there are up to it.
#[tactic(auto, unfolding(reassembly::specs::Judge::is_complete))]
pub fn is_complete(h: Head) -> bool
    ensures { result ≡ is_complete h }
{
    (0 < h.last) & (h.last < 128) & (usize::from(h.count) == usize::from(h.last) + 1)
}

// The head of a message that is opened now, with nothing held.
#[tactic(auto, unfolding(reassembly::specs::Judge::new_head))]
pub fn new_head(l: Label, second: u64) -> Head
    ensures { result ≡ new_head l second }
{
    Head {
        id: l.id,
        opened: second,
        ..Head::default()
    }
}

// The head of a free slot.
#[tactic(auto, unfolding(reassembly::specs::Judge::no_head))]
pub fn no_head() -> Head
    ensures { result ≡ no_head }
{
    Head::default()
}

// The present second is at least 30 above another; by a difference, for a sum might wrap.
#[tactic(auto, using(std::proofs::lemmas::Bool::Decides::nat_tests))]
pub fn long_ago(at: u64, second: u64) -> bool
    ensures { result ≡ long_ago at second }
{
    if second < 30 {
        return false;
    }
    at <= second - 30
}

// A slot whose message was opened 30 seconds ago or earlier.
#[tactic(auto, unfolding(reassembly::specs::Judge::is_old))]
pub fn is_old(h: Head, second: u64) -> bool
    ensures { result ≡ is_old second h }
{
    (h.count != 0) & long_ago(h.opened, second)
}
