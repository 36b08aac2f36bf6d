// Whether an acknowledgement names a number, found by a walk up its pairs, the last pair first: for numbers that rise it goes over the pairs once.
#![tactic(auto)]

ghost use Rattle.std.specs.Prelude.{◌≡◌, ◌≤◌, length, take};
ghost use Rattle.acks.specs.History.{among};
ghost use Rattle.acks.specs.Expanding.{ack_numbers};
ghost use Rattle.acks.specs.Naming.{StandsAt, RunOf};

use acks_expand::Measured;

// Where the walk stands: the pairs that are left speak of the numbers from low on, and those behind them of numbers below. All numbers from first to last are named, or none is.
#[derive(Clone, Copy, Debug, PartialEq, Eq)]
pub struct Walk<'a> {
    pub said: Measured<'a>,
    pub left: &'a [u8],
    pub low: u32,
    pub first: u32,
    pub last: u32,
    pub named: bool,
    ghost front: { left.now ≡ take (length left.now) said.ack.pairs.now },
    ghost stands: { StandsAt said.ack.through said.ack.count said.ack.pairs.now (length left.now) low },
    ghost run: { RunOf said.ack.through said.ack.count said.ack.pairs.now first last named },
}

impl<'a> Walk<'a> {
    // It begins behind the last pair, in no run.
    pub fn new(said: Measured<'a>) -> Walk<'a>
        ensures { (result.said ≡ said.entry) × (result.low ≡ said.entry.lowest) }
    {
        let n = said.ack.pairs.len();
        Walk {
            said,
            left: &said.ack.pairs[..n - n % 2],
            low: said.lowest,
            first: 1,
            last: 0,
            named: false,
        }
    }

    // It goes up from where it stands, to the pair that speaks of x; and over it where x is skipped, as the numbers above that run are.
    fn climb(self, x: u32) -> Walk<'a>
        requires { self.low ≤ x }
        ensures { (result.said ≡ self.entry.said) × (result.named ≡ among (ack_numbers self.entry.said.ack.through self.entry.said.ack.count self.entry.said.ack.pairs.now) x) }
    {
        let said = self.said;
        let mut left = self.left;
        let mut low = self.low;
        while let Some((before, pair)) = left.split_last_chunk::<2>() {
            let nack = u32::from(pair[0]);
            let ack = u32::from(pair[1]);
            if x - low < ack {
                return Walk {
                    said,
                    left,
                    low,
                    first: low,
                    last: low + ack - 1,
                    named: true,
                };
            }
            let over = low + ack + nack;
            if x < over {
                return Walk {
                    said,
                    left: before,
                    low: over,
                    first: low + ack,
                    last: over - 1,
                    named: false,
                };
            }
            left = before;
            low = over;
        }
        let through = said.ack.through;
        if x <= through {
            return Walk {
                said,
                left,
                low,
                first: low,
                last: through,
                named: true,
            };
        }
        Walk {
            said,
            left,
            low,
            first: through + 1,
            last: u32::MAX,
            named: false,
        }
    }

    // It is moved to x and says whether x is named: no pair is read in the run where it stands, and where x lies below it starts anew.
    pub fn find(self, x: u32) -> Walk<'a>
        ensures { (result.said ≡ self.entry.said) × (result.named ≡ among (ack_numbers self.entry.said.ack.through self.entry.said.ack.count self.entry.said.ack.pairs.now) x) }
    {
        if (self.first..=self.last).contains(&x) {
            return self;
        }
        if self.low <= x {
            return self.climb(x);
        }
        let said = self.said;
        if said.lowest <= x {
            return Walk::new(said).climb(x);
        }
        Walk {
            said,
            left: self.left,
            low: self.low,
            first: 0,
            last: said.lowest - 1,
            named: false,
        }
    }
}
