// The ring of 255 marks: number n's mark stands at n % 255, and is set where it is not 0.
// x % 255 as usize: std has no From of a u32 for it, and try_from would answer a Result that cannot fail.
#![tactic(auto)]

ghost use Rattle.std.specs.Prelude.{◌≡◌, ◌+◌, ◌-◌, true, false, MatchResult};
ghost use Rattle.acks.specs.History.{answer_to};
ghost use Rattle.acks.specs.Tracking.{mark, is_duplicate, clear_up, marks_after, register_of, registered_as, raised};
ghost use Rattle.acks.specs.Recorded.{tracker_short, tracker_at};
ghost use Rattle.refusals.specs.Numbers.{number, number_of};

use acks::{MARKS_AT, Tracker};
use refusals::Refusal;

// The window of the newest 255 numbers: the highest number seen, and the marks that say which were received.
#[derive(Clone, Copy)]
pub struct Window<'a> {
    pub top: u32,
    pub marks: &'a [u8; 255],
}

impl<'a> Window<'a> {
    pub fn of(tracker: &'a Tracker) -> Window<'a>
        ensures { (result.top ≡ tracker.now.highest) × (result.marks.now ≡ tracker.now.marks) }
    {
        Window {
            top: tracker.highest,
            marks: &tracker.marks,
        }
    }

    // The window of a record that a caller lends; 59 where that is short.
    pub fn lent(tracker: &'a [u8]) -> Result<Window<'a>, Refusal>
        ensures { MatchResult result (λ w. (tracker_short tracker.now ≡ false) × (w.top ≡ (tracker_at tracker.now).highest) × (w.marks.now ≡ (tracker_at tracker.now).marks)) (λ e. (tracker_short tracker.now ≡ true) × (number e ≡ 59)) }
    {
        let Some((_, rest)) = tracker.split_first_chunk::<MARKS_AT>() else {
            return Err(Refusal::LentShort);
        };
        let Some(marks) = rest.first_chunk() else {
            return Err(Refusal::LentShort);
        };
        Ok(Window {
            top: wire_numbers::le(tracker, 0),
            marks,
        })
    }

    #[tactic(auto, unfolding(acks::specs::Tracking::mark))]
    pub fn is_marked(self, n: u32) -> bool
        ensures { result ≡ mark self.entry.marks.now n }
    {
        self.marks[(n % 255) as usize] != 0
    }

    // Whether n is in the window, and marked.
    #[tactic(auto, using(std::proofs::lemmas::Bool::Decides::nat_tests), unfolding(acks::specs::Tracking::is_duplicate, acks::specs::Window::in_window))]
    pub fn is_duplicate(self, n: u32) -> bool
        ensures { result ≡ is_duplicate self.entry.top self.entry.marks.now n }
    {
        if self.top < n {
            return false;
        }
        if 255 <= self.top - n {
            return false;
        }
        self.is_marked(n)
    }

    // What a registration of n answers.
    #[tactic(auto, using(std::proofs::lemmas::Bool::Decides::nat_tests), unfolding(acks::specs::History::answer_to))]
    pub fn answer(self, n: u32) -> Result<(), Refusal>
        ensures { number_of result ≡ answer_to self.entry.top (is_duplicate self.entry.top self.entry.marks.now) n }
    {
        if 255 < n.saturating_sub(self.top) {
            return Err(Refusal::NumberHigh);
        }
        if 255 <= self.top.saturating_sub(n) {
            return Err(Refusal::NumberLow);
        }
        if self.is_duplicate(n) {
            return Err(Refusal::NumberAgain);
        }
        Ok(())
    }
}

// The marks of the numbers between top and n, unset.
#[tactic(auto, using(acks::proofs::Ring::clear_more), unfolding(acks::specs::Tracking::clear_up))]
fn clear(marks: &mut [u8; 255], top: u32, n: u32)
    ensures { marks.new ≡ clear_up marks.old (top + 1) (n - top - 1) }
{
    let missing = n.saturating_sub(top).saturating_sub(1);
    for k in 0..missing {
        marks[((top + 1 + k) % 255) as usize] = 0;
    }
}

// The marks once n was accepted: top's too, which is number 0's with the first number.
// Marks and highest apart, not a Window: the marks are changed, and the highest may lie in a record's bytes.
#[tactic(auto, unfolding(acks::specs::Tracking::marks_after))]
pub fn accept(marks: &mut [u8; 255], top: u32, n: u32)
    ensures { marks.new ≡ marks_after marks.old top n }
{
    marks[(top % 255) as usize] = 1;
    clear(marks, top, n);
    marks[(n % 255) as usize] = 1;
}

// Registers n in the window that ends at top: the highest number afterwards, or 40, 42 or 43, and then the marks stay.
#[tactic(auto, using(std::proofs::lemmas::Bool::Decides::nat_tests), unfolding(acks::specs::Tracking::register_of, acks::specs::Tracking::register_answer, acks::specs::Tracking::accept_of))]
pub fn register(marks: &mut [u8; 255], top: u32, n: u32) -> Result<u32, Refusal>
    ensures { registered_as result (record { highest = raised top result; marks = marks.new }) ≡ register_of (record { highest = top; marks = marks.old }) n }
{
    Window { top, marks }.answer(n)?;
    accept(marks, top, n);
    Ok(top.max(n))
}
