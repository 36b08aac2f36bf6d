// The tracker as 259 bytes that a caller lends, changed in place: a C call copies no record. All zero is a new tracker.
ghost use Rattle.std.specs.Prelude.{◌≡◌, length, IfErr};
ghost use Rattle.acks.specs.Tracking.{register_of, registered_as, raised};
ghost use Rattle.acks.specs.Recorded.{register_there, record_after, duplicate_there, duplicate_number};
ghost use Rattle.refusals.specs.Numbers.{number, number_of};

use acks::{MARKS_AT, TRACKER_SIZE};
use acks_marks::Window;
use refusals::Refusal;

// A registration in the bytes of the marks. A function of its own: where a part of a slice is lent as an array at once, the proof does not see what the slice ends as.
fn register_ring(ring: &mut [u8], top: u32, n: u32) -> Result<u32, Refusal>
    requires { length ring.old ≡ 255 }
    ensures { registered_as result (record { highest = raised top result; marks = ring.new }) ≡ register_of (record { highest = top; marks = ring.old }) n }
{
    let Some(marks) = ring.as_mut_array() else {
        unreachable!()
    };
    acks_marks::register(marks, top, n)
}

// As a registration by value does; 59 where the record is short, and then it stays too.
pub fn register_in(tracker: &mut [u8], n: u32) -> Result<(), Refusal>
    ensures { (number_of result ≡ register_there tracker.old n) × (tracker.new ≡ record_after tracker.old n) }
{
    if tracker.len() < TRACKER_SIZE {
        return Err(Refusal::LentShort);
    }
    let top = wire_numbers::le(tracker, 0);
    let raised = register_ring(&mut tracker[MARKS_AT..TRACKER_SIZE], top, n)?;
    wire_numbers::put_le(tracker, 0, raised);
    Ok(())
}

// Whether n is in the window and received; 59 where the record is short.
pub fn is_duplicate_in(tracker: &[u8], n: u32) -> Result<bool, Refusal>
    ensures { (duplicate_number result ≡ duplicate_there tracker.now n) × IfErr result (λ e. number e ≡ 59) }
{
    Ok(Window::lent(tracker)?.is_duplicate(n))
}
