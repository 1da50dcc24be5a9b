//! The offset of a line whose slope is known: where over the held shots it is best laid.
ghost use Rattle.std.specs.Prelude.{◌≡◌, ◌<◌, length, MatchResult};
ghost use Rattle.theory.specs.Offsets.{BalancedOffset};
ghost use Rattle.fit.specs.Points.{points};
ghost use Rattle.fit.specs.Offsets.{IsSlope, pull_at, OffsetOf, OffsetBest};

use crate::fit::Fit;
use arrayvec::ArrayVec;
use balance::{Pull, whole_balance_point};
use racks::{MOST_SHOTS, Rack};
use shots::{PriceRule, Refusal, Shot};

// The slope B/A of a line that is to be laid; it need not be in lowest terms.
#[derive(Clone, Copy)]
struct Incline {
    a: i32,
    b: i32,
    ghost in_range: { IsSlope a b },
}

impl Incline {
    // The slope of these two numbers; refused by `Slope` where one is out of its range.
    fn new(a: i32, b: i32) -> Result<Incline, Refusal>
        ensures { MatchResult result (λ incline. IsSlope a b × (incline.a ≡ a) × (incline.b ≡ b)) (λ refusal. (IsSlope a b → ⊥) × (refusal ≡ Refusal.Slope)) }
    {
        if !(1..=4000).contains(&a) || !(-16_000..=16_000).contains(&b) {
            return Err(Refusal::Slope);
        }
        Ok(Incline { a, b })
    }

    // How a shot pulls on the offset: to the line through it.
    fn pull(self, shot: Shot, prices: (u8, u8)) -> Pull<i32>
        ensures { result ≡ pull_at self.a self.b shot prices }
    {
        let (late, early) = prices;
        Pull {
            // at most 96,000,000 whatever the sign; a line's own sum stops at an A of 3999
            key: self.a * i32::from(shot.lead) - self.b * i32::from(shot.speed),
            under: u32::from(shot.weight) * u32::from(late),
            over: u32::from(shot.weight) * u32::from(early),
        }
    }
}

impl<R: Rack, P: PriceRule> Fit<'_, R, P> {
    /// The offset C for a known slope B/A: the balance point of the keys A·h - B·s of all held shots,
    /// with the weight times the late price as under price and the weight times the early price as over
    /// price. Of all lines of this slope none is cheaper, and each of lower offset is dearer. Refused by
    /// `Slope` where A is outside 1 to 4000 or B outside -16000 to 16000, then by `Empty` where no shot
    /// is held. A need not be reduced against B.
    pub fn offset(&self, a: i32, b: i32) -> Result<i32, Refusal>
        ensures offset { OffsetOf (P.PriceRule.tariff self.now.rule.now) a b (R.Rack.held self.now.rack.now) result }
        ensures cheapest { OffsetBest (P.PriceRule.tariff self.now.rule.now) a b (R.Rack.held self.now.rack.now) result }
    {
        let incline = Incline::new(a, b)?;
        if self.rack.is_empty() {
            return Err(Refusal::Empty);
        }
        Ok(self.balanced(incline))
    }

    // The offset of a slope, where a shot is held.
    fn balanced(&self, incline: Incline) -> i32
        requires { 0 < length (R.Rack.held self.now.rack.now) }
        ensures { BalancedOffset incline.a incline.b (points (P.PriceRule.tariff self.now.rule.now) (R.Rack.held self.now.rack.now)) result }
    {
        let mut pulls: ArrayVec<_, MOST_SHOTS> = ArrayVec::new();
        for shot in self.rack.iter() {
            pulls.push(incline.pull(shot, self.prices_of(shot)));
        }
        whole_balance_point(pulls.as_slice()).unwrap().lowest
    }
}
