// What an acknowledgement names: the through number, count numbers below it, then each pair skips and names.
// u32 and usize are turned with as: std has no From between them, and each number is proved to fit.
#![tactic(auto)]

ghost use Rattle.std.specs.Prelude.{◌≡◌, true, false, not, ◌+◌, ◌-◌, ◌≤◌, ◌<◌, length, get_or, MatchOption};
ghost use Rattle.wire.specs.Parts.{part, splice};
ghost use Rattle.acks.specs.Window.{falling};
ghost use Rattle.acks.specs.Runs.{named, flags, whole_pairs, run_sum};
ghost use Rattle.acks.specs.Expanding.{ack_numbers, goes_below, expand_of, list_after};
ghost use Rattle.acks_expand.specs.Expanding.{expanded_as};

use blocks::Part;
use refusals::Refusal;

// An acknowledgement, as an Ack block says it: the through number, how many numbers directly below it, and the pairs.
#[derive(Clone, Copy, Debug, PartialEq, Eq)]
pub struct Ack<'a> {
    pub through: u32,
    pub count: u8,
    pub pairs: &'a [u8],
}

// One whose count and pairs stay at 0 or above: how many numbers it names, and the lowest that it speaks of.
#[derive(Clone, Copy, Debug, PartialEq, Eq)]
pub struct Measured<'a> {
    pub ack: Ack<'a>,
    pub names: usize,
    pub lowest: u32,
    ghost named: { names ≡ length (ack_numbers ack.through ack.count ack.pairs.now) },
    ghost ends: { lowest + (ack.count + run_sum (whole_pairs ack.pairs.now)) ≡ ack.through },
}

impl<'a> Ack<'a> {
    // What it comes to, without its numbers: none where it goes below 0, so 44 can be given where there is no list.
    // Pair by pair off the front, here and in `fill_pairs`: over `as_chunks`, 127 pairs took up to a third more time.
    pub fn measure(self) -> Option<Measured<'a>>
        ensures { MatchOption result (goes_below self.entry.through self.entry.count self.entry.pairs.now ≡ true) (λ m. (goes_below self.entry.through self.entry.count self.entry.pairs.now ≡ false) × (m.ack ≡ self.entry)) }
    {
        let limit = u64::from(self.through);
        let mut sum = u64::from(self.count);
        let mut names = 1 + usize::from(self.count);
        let mut left = self.pairs;
        while let [nack, ack, rest @ ..] = left {
            if limit < sum {
                return None;
            }
            sum = sum + u64::from(*nack) + u64::from(*ack);
            names += usize::from(*ack);
            left = rest;
        }
        if sum <= limit {
            return Some(Measured {
                ack: self,
                names,
                lowest: self.through - sum as u32,
            });
        }
        None
    }
}

// The k numbers below above, falling, at a place of the list. j is the place of what is put and of what it is made of.
fn fall(list: &mut [u32], at: usize, above: u32, k: u32)
    requires { (at + k ≤ length list.old) × (k ≤ above) }
    ensures { list.new ≡ splice list.old at (falling (above - 1) k) }
{
    for j in 0..k {
        list[at + j as usize] = above - 1 - j;
    }
}

// What the pairs name below top, at a place of the list.
fn fill_pairs(pairs: &[u8], list: &mut [u32], place: usize, top: u32)
    requires { (run_sum (whole_pairs pairs.now) ≤ top) × (place + length (named (top - 1) (flags false (whole_pairs pairs.now))) ≤ length list.old) }
    ensures { list.new ≡ splice list.old place (named (top - 1) (flags false (whole_pairs pairs.now))) }
{
    let mut at = place;
    let mut above = top;
    let mut left = pairs;
    while let [skipped, named, rest @ ..] = left {
        let nack = u32::from(*skipped);
        let ack = u32::from(*named);
        fall(list, at, above - nack, ack);
        above = above - nack - ack;
        at += ack as usize;
        left = rest;
    }
}

impl Measured<'_> {
    // The numbers, into a list that holds them.
    fn fill(self, list: &mut [u32])
        requires { self.names ≤ length list.old }
        ensures { list.new ≡ splice list.old 0 (ack_numbers self.entry.ack.through self.entry.ack.count self.entry.ack.pairs.now) }
    {
        let through = self.ack.through;
        let first = u32::from(self.ack.count);
        list[0] = through;
        fall(list, 1, through, first);
        fill_pairs(
            self.ack.pairs,
            list,
            1 + usize::from(self.ack.count),
            through - first,
        );
    }
}

impl Ack<'_> {
    // The numbers that it names, falling, in front of a list: how many; or 44 or 46, and then the list stays.
    pub fn expand(self, list: &mut [u32]) -> Result<usize, Refusal>
        ensures { (expanded_as result ≡ expand_of self.entry.through self.entry.count self.entry.pairs.now (length list.old)) × (list.new ≡ list_after self.entry.through self.entry.count self.entry.pairs.now list.old) }
    {
        let Some(measured) = self.measure() else {
            return Err(Refusal::BelowZero);
        };
        if list.len() < measured.names {
            return Err(Refusal::ExpansionLong);
        }
        measured.fill(list);
        Ok(measured.names)
    }
}

// The pairs are a part of the payload that the block was read from; what lies outside of it is not there. Two min say it, as short as a call would.
pub fn expand_ack(
    payload: &[u8],
    through: u32,
    count: u8,
    pairs: Part,
    list: &mut [u32],
) -> Result<usize, Refusal>
    ensures { (expanded_as result ≡ expand_of through count (part payload.now pairs.start pairs.len) (length list.old)) × (list.new ≡ list_after through count (part payload.now pairs.start pairs.len) list.old) }
{
    let from = pairs.start.min(payload.len());
    let to = from + pairs.len.min(payload.len() - from);
    let ack = Ack {
        through,
        count,
        pairs: &payload[from..to],
    };
    ack.expand(list)
}
