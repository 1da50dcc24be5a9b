//! The turn of a line about a held shot: of all lines through the shot, the lowest of the cheapest.
ghost use Rattle.std.specs.Prelude.{◌≡◌, ◌*◌, ◌≤◌, MatchOption};
ghost use Rattle.fit.specs.Turning.{PullFrom, PullAt, TurnedAbout, TurnedAt, Descends, LowestAt};

use crate::fit::Fit;
use arrayvec::ArrayVec;
use balance::{Pull, balance_point};
use lines::{Line, Slope};
use racks::{MOST_SHOTS, Rack};
use shots::{PriceRule, Shot};

impl<R: Rack, P: PriceRule> Fit<'_, R, P> {
    /// The line through the shot at a place with the balance slope: each held shot of another speed pulls
    /// with key (h - hz)/(s - sz); its under and over prices are w·late·(s - sz) and w·early·(s - sz) if
    /// s > sz, and w·early·(sz - s) and w·late·(sz - s), the other way round, if s < sz. None where no
    /// shot is held there, or no held shot has another speed.
    pub fn turned_line(&self, place: i32) -> Option<Line>
        ensures turned { TurnedAt (P.PriceRule.tariff self.now.rule.now) (R.Rack.held self.now.rack.now) place result }
        ensures descends { Descends (P.PriceRule.tariff self.now.rule.now) (R.Rack.held self.now.rack.now) place result }
        ensures lowest { LowestAt (P.PriceRule.tariff self.now.rule.now) (R.Rack.held self.now.rack.now) place result }
    {
        let z = self.rack.read(place).ok()?;
        self.turn_about(z)
    }

    // The same about a shot.
    fn turn_about(&self, z: Shot) -> Option<Line>
        ensures { TurnedAbout (P.PriceRule.tariff self.now.rule.now) (R.Rack.held self.now.rack.now) z result }
    {
        let mut pulls: ArrayVec<_, MOST_SHOTS> = ArrayVec::new();
        for shot in self.rack.iter() {
            if let Some(pull) = turn_pull(z, shot, self.prices_of(shot)) {
                pulls.push(pull);
            }
        }
        let balance = balance_point(pulls.as_slice())?;
        // a key between two shots fits a line
        Line::about(z, balance.lowest)
    }
}

// The pull of a shot about z; none for a shot of z's own speed.
fn turn_pull(z: Shot, shot: Shot, prices: (u8, u8)) -> Option<Pull<Slope>>
    ensures { MatchOption result (shot.speed ≡ z.speed) (λ p. PullAt z shot prices p) }
{
    let (late, early) = prices;
    if z.speed < shot.speed {
        pull_from(z, shot, shot.weight, late, early)
    } else {
        pull_from(shot, z, shot.weight, early, late)
    }
}

// The pull of two shots, the slower one first; none where the first is not the slower.
fn pull_from(slow: Shot, fast: Shot, weight: u8, under: u8, over: u8) -> Option<Pull<Slope>>
    ensures { MatchOption result (fast.speed ≤ slow.speed) (λ p. PullFrom slow fast weight under over p) }
{
    let key = Slope::between(slow, fast)?;
    let ahead = fast.speed - slow.speed;
    Some(Pull {
        key,
        under: pull_price(weight, under, ahead),
        over: pull_price(weight, over, ahead),
    })
}

// Weight times price times the difference in speed.
fn pull_price(weight: u8, price: u8, ahead: u16) -> u32
    ensures { result ≡ weight * price * ahead }
{
    // at most 255 × 255 × 65535, which fits
    u32::from(weight) * u32::from(price) * u32::from(ahead)
}
