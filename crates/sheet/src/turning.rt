//! What the calls ask of the shots held now.
ghost use Rattle.std.specs.Prelude.{◌≡◌, pos, Some};
ghost use Rattle.fit.specs.Testing.{First};
ghost use Rattle.fit.specs.Totals.{total_of};
ghost use Rattle.fit.specs.Turning.{TurnedAt};
ghost use Rattle.sheet.specs.Sheets.{Judged};

use crate::sheet::Sheet;
use fit::Fit;
use law::{Pivoted, Stage, Word};
use lines::{Line, PricedLine};
use racks::Rack;
use shots::PriceRule;

impl<R: Rack, P: PriceRule> Sheet<R, P> {
    // The shots held now, under the rule.
    pub(crate) fn fit(&self) -> Fit<'_, R, P>
        ensures rack { result.rack.now ≡ self.now.rack }
        ensures rule { result.rule.now ≡ self.now.rule }
    {
        Fit {
            rack: &self.rack,
            rule: &self.rule,
        }
    }

    // The first place at which a line that is tried fails the test. A bare sheet has no line to fail,
    // and a line in force has passed over the shots held now.
    pub(crate) fn failing_place(&self) -> Option<usize>
        ensures { Judged (P.PriceRule.tariff self.now.rule) (R.Rack.held self.now.rack) self.now.inner.stage result }
    {
        match self.inner.stage {
            Stage::Trying(line) => self.fit().failing_place(line),
            _ => None,
        }
    }

    // The line turned about the first place with a rate below 0.
    pub(crate) fn turned_at(&self, line: Line, place: usize) -> Line
        requires { First (P.PriceRule.tariff self.now.rule) line (R.Rack.held self.now.rack) place }
        ensures { TurnedAt (P.PriceRule.tariff self.now.rule) (R.Rack.held self.now.rack) (pos place) (Some result) }
    {
        // a rack holds at most 512 shots, so the place fits; the turn takes it as a fitter types it
        self.fit().turned_line(place as i32).unwrap()
    }

    // A pivot's answer: what it did, the line, and what that costs over the held shots.
    pub(crate) fn told(&self, word: Word, line: Line) -> Pivoted
        ensures word { result.word ≡ word }
        ensures line { result.priced.line ≡ line }
        ensures total { result.priced.total ≡ total_of (P.PriceRule.tariff self.now.rule) line (R.Rack.held self.now.rack) }
    {
        let total = self.fit().total(line);
        Pivoted {
            word,
            priced: PricedLine { line, total },
        }
    }
}
