//! Whether the card is the cheapest line there is over the held shots, at even prices.
ghost use Rattle.std.specs.Prelude.{◌≡◌};
ghost use Rattle.shots.specs.Prices.{even};
ghost use Rattle.fit.specs.Testing.{First};
ghost use Rattle.appraisal.specs.Deciding.{Verdict, Shown};

use crate::answer::{Answer, CheaperLine};
use fit::{Fit, has_two_speeds};
use lines::{Line, PricedLine};
use racks::Rack;
use shots::EvenPrices;
use slips::Row;

/// Whether any line is cheaper than the card's over the held shots, and if so, which.
pub fn verdict<R: Rack>(rack: &R, line: Line) -> Answer
    ensures { Verdict (R.Rack.held rack.now) line result }
{
    if !has_two_speeds(rack, line) {
        return Answer::Untested;
    }
    let fit = Fit {
        rack,
        rule: &EvenPrices,
    };
    match fit.failing_place(line) {
        None => Answer::Cheapest,
        Some(place) => {
            let (at, by) = cheaper(&fit, line, place);
            Answer::NotCheapest { at, by }
        }
    }
}

// The first place that shows that a line is cheaper, and the line turned about it.
fn cheaper<R: Rack>(fit: &Fit<R, EvenPrices>, line: Line, place: usize) -> (Row, CheaperLine)
    requires { First even line (R.Rack.held fit.now.rack.now) place }
    ensures { (result.0.place ≡ place) × Shown (R.Rack.held fit.now.rack.now) line place result.0 result.1 }
{
    // a rack holds at most 512 shots, so the place fits; the rates take it as a fitter types it
    let at = place as i32;
    let rise = fit.rise_rate(line, at).unwrap();
    let fall = fit.fall_rate(line, at).unwrap();
    let turned = fit.turned_line(at).unwrap();
    let by = PricedLine {
        line: turned,
        total: fit.total(turned),
    };
    (Row { place, rise, fall }, CheaperLine::from(by))
}
