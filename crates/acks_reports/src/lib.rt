// What to tell the sender. The Rust's `ack_info`.
// u8, u32 and usize are turned with as: std has no From for these turns, and each number is proved to fit.
#![tactic(auto)]

pub mod ack_block;
mod runs;

ghost use Rattle.std.specs.Prelude.{◌≡◌};
ghost use Rattle.acks.specs.Tracking.{mark};
ghost use Rattle.acks.specs.Reporting.{report_as, report_of, ack_info};
ghost use Rattle.acks.specs.Recorded.{report_there};

use acks::{AckInfo, Tracker};
use acks_marks::Window;
use refusals::Refusal;

// What the marks of a window report.
fn report_of(seen: Window) -> Result<AckInfo, Refusal>
    ensures { report_as result ≡ report_of seen.entry.top (mark seen.entry.marks.now) }
{
    let top = seen.top;
    let marks = seen.marks;
    if !seen.is_marked(top) {
        return Err(Refusal::NothingSeen);
    }
    let k = top.min(254);
    let count = runs::run(marks, top, k, true);
    let pairs = runs::pairs(marks, top - count, k - count);
    Ok(AckInfo {
        through: top,
        count: count as u8,
        pairs,
    })
}

// 41 before any number.
pub fn report(t: &Tracker) -> Result<AckInfo, Refusal>
    ensures { report_as result ≡ ack_info t.now }
{
    report_of(Window::of(t))
}

// Of the tracker as 259 bytes that a caller lends; 59 where the record is short.
pub fn report_in(tracker: &[u8]) -> Result<AckInfo, Refusal>
    ensures { report_as result ≡ report_there tracker.now }
{
    report_of(Window::lent(tracker)?)
}
