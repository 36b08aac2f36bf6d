// Runs of received and missing numbers, downward, and the pairs that a report makes of them.
// as: std has no From between these widths; each number fits its place, or is cut on purpose.
ghost use Rattle.std.specs.Prelude.{◌≡◌, true, not, eqb, ◌≤◌, length, reverse};
ghost use Rattle.std.specs.List.{prefix_len};
ghost use Rattle.std.specs.Bool.{beq};
ghost use Rattle.acks.specs.Runs.{leading, later_runs};
ghost use Rattle.acks.specs.Reporting.{view, padded};

use acks::PairBytes;

// How many of some marks, from the last one down, are as wanted before the first that is not.
fn straight(part: &[u8], want: bool) -> u32
    requires { length part.now ≤ 255 }
    ensures { result ≡ prefix_len (λ x. beq (not (eqb x 0)) want) (reverse part.now) }
{
    part.iter()
        .rev()
        .take_while(|mark| (**mark != 0) == want)
        .count() as u32
}

// want is what the marks are compared with, no switch of steps: a closure for it would be no plainer.
// Marks, top and k, not a Window: the walk goes on below top, with a top that is not the window's.
// The run finder: how many of the k numbers below top, downward, are as wanted (received or missing) before the first that is not.
pub(crate) fn run(marks: &[u8; 255], top: u32, k: u32, want: bool) -> u32
    requires { (k ≤ top) × (k ≤ 255) }
    ensures { result ≡ leading want (view marks.now top k) }
{
    let end = top % 255;
    let front = k.min(end);
    let found = straight(&marks[(end - front) as usize..end as usize], want);
    if found < front {
        return found;
    }
    front + straight(&marks[(255 - (k - front)) as usize..], want)
}

// The pairs of missing and received runs of the k numbers below top, of which the first is missing.
pub(crate) fn pairs(marks: &[u8; 255], top: u32, k: u32) -> PairBytes
    requires { (k ≤ top) × (k ≤ 254) × (leading true (view marks.now top k) ≡ 0) }
    ensures { (result.bytes ≡ padded (later_runs true (view marks.now top k))) × (result.len ≡ length (later_runs true (view marks.now top k))) }
{
    let mut bytes = PairBytes::none().bytes;
    let mut len: usize = 0;
    let mut used: u32 = 0;
    // A while: a turn goes on by the two runs that it found, which no range or chain says more plainly; bytes and len are put here alone.
    while used < k {
        let nack = run(marks, top - used, k - used, false);
        let mid = used + nack;
        let ack = run(marks, top - mid, k - mid, true);
        bytes[len] = nack as u8;
        bytes[len + 1] = ack as u8;
        len += 2;
        used = mid + ack;
    }
    PairBytes { bytes, len }
}
