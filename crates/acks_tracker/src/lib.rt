// The tracker of received packet numbers, by value; in place is `recorded`. The Rust's `RemoteAckManager`.
// Functions and no methods: pages name them here, and methods would stand with the type in acks, below acks_marks, which these call.
#![tactic(auto)]

pub mod recorded;

ghost use Rattle.std.specs.Prelude.{◌≡◌};
ghost use Rattle.acks.specs.Tracking.{fresh, is_duplicate, register_of, registered_as};

use acks::Tracker;
use acks_marks::Window;
use refusals::Refusal;

#[tactic(auto, unfolding(acks::specs::Tracking::fresh))]
pub fn new() -> Tracker
    ensures { result ≡ fresh }
{
    Tracker {
        highest: 0,
        marks: [0; 255],
    }
}

// Whether n is in the window and received.
pub fn is_duplicate(t: &Tracker, n: u32) -> bool
    ensures { result ≡ is_duplicate t.now.highest t.now.marks n }
{
    Window::of(t).is_duplicate(n)
}

// The Rust's `register_pkt`: 40, 42 or 43, and then the tracker stays.
pub fn register(t: &mut Tracker, n: u32) -> Result<(), Refusal>
    ensures { registered_as result t.new ≡ register_of t.old n }
{
    t.highest = acks_marks::register(&mut t.marks, t.highest, n)?;
    Ok(())
}
