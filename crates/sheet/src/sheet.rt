//! The sheet and its six calls. Each call's contract says by `Called` what it does to what can be seen
//! of the sheet, and that it carries on every life that led here: whatever was called and answered
//! before, the law of a sheet's life holds of this call with this answer too.
ghost use Rattle.std.specs.Prelude.{◌≡◌, List, [], length};
ghost use Rattle.law.specs.declared.kinds.Call.TheVariants.{Add, Strike, Pivot, Mount, Slip, Issue};
ghost use Rattle.law.specs.declared.stage.Stage.TheVariants.{Bare};
ghost use Rattle.law.specs.declared.kinds.Moment.{Moment as Then};
ghost use Rattle.law.specs.Lives.{held_by, in_force_by};
ghost use Rattle.law.specs.Ties.{Called, Life};
ghost use Rattle.sheet.specs.Sheets.{sees, done_reply, pivot_reply, mount_reply, slip_reply, issue_reply, line_on, SlipWrites};
ghost use Rattle.law.specs.Views.{in_force};
ghost use Rattle.fit.specs.Offsets.{OffsetBest};

use crate::inner::Inner;
use crate::pass::Pass;
use fit::first_line;
use law::{Pivoted, Stage, Word};
use lines::Line;
use racks::Rack;
use shots::{Entry, PriceRule, Refusal};
use slips::{Row, write_rows};

/// A sheet: a rack of shots, a price rule, and how far the line for them has come. It is bare, trying
/// a line, or has a line in force. While it lives only its calls reach the rack, and nothing sets the
/// rule.
// no model: a view that keeps the very rack and rule, which `end` gives back, is these fields themselves
#[derive(Drop)]
pub struct Sheet<R, P> {
    pub(crate) rack: R,
    pub(crate) rule: P,
    pub(crate) inner: Inner,
}

impl<R: Rack, P: PriceRule> Sheet<R, P> {
    /// A bare sheet over a rack; shots already in it count as held.
    pub fn begin(rack: R, rule: P) -> Sheet<R, P>
        ensures rack { result.rack ≡ rack }
        ensures rule { result.rule ≡ rule }
        ensures bare { result.inner.stage ≡ Bare }
        ensures life { R.Rack.held rack ≡ [] → Life [] (sees R.Rack.held R.Rack.capacity P.PriceRule.tariff result) }
    {
        Sheet {
            rack,
            rule,
            inner: Inner { stage: Stage::Bare },
        }
    }

    /// Ends the sheet, and gives its rack and its rule back.
    pub fn end(self) -> (R, P)
        ensures rack { result.0 ≡ self.rack }
        ensures rule { result.1 ≡ self.rule }
    {
        let Sheet {
            rack,
            rule,
            inner: _,
        } = self;
        (rack, rule)
    }

    /// Puts the shot of four numbers at the end; refused by the rack's refusals, which leave everything.
    /// A line in force stays so if it passes the test over the shots now held, else it is tried again.
    pub fn add(&mut self, entry: Entry) -> Result<(), Refusal>
        ensures called { Called (Add entry) (done_reply result) (sees R.Rack.held R.Rack.capacity P.PriceRule.tariff self.old) (sees R.Rack.held R.Rack.capacity P.PriceRule.tariff self.new) }
        ensures rule { self.new.rule ≡ self.old.rule }
    {
        self.rack.add(entry)?;
        self.inner.stage = self.after_add();
        Ok(())
    }

    /// Takes the shot at a place out, and later shots move down one; refused by `Place`, which leaves
    /// everything. The line stands as after an add, but the sheet is bare where no two held shots of
    /// different speeds are left on it.
    pub fn strike(&mut self, place: i32) -> Result<(), Refusal>
        ensures called { Called (Strike place) (done_reply result) (sees R.Rack.held R.Rack.capacity P.PriceRule.tariff self.old) (sees R.Rack.held R.Rack.capacity P.PriceRule.tariff self.new) }
        ensures rule { self.new.rule ≡ self.old.rule }
    {
        self.rack.strike(place)?;
        self.inner.stage = self.after_strike();
        Ok(())
    }

    /// Answers by the stage and by what the test says. Bare: lays the first line, now trying; refused by
    /// `OneSpeed` where the held shots have not two speeds. Trying, and the test fails: moves, by a turn
    /// about the first place with a rate below 0. Trying, and the test passes: proved, now in force. In
    /// force: stands. Each answer has the line, and T over the held shots.
    pub fn pivot(&mut self) -> Result<Pivoted, Refusal>
        ensures called { Called Pivot (pivot_reply result) (sees R.Rack.held R.Rack.capacity P.PriceRule.tariff self.old) (sees R.Rack.held R.Rack.capacity P.PriceRule.tariff self.new) }
        ensures rack { self.new.rack ≡ self.old.rack }
        ensures rule { self.new.rule ≡ self.old.rule }
    {
        match (self.inner.stage, self.failing_place()) {
            (Stage::Bare, _) => {
                let line = first_line(&self.rack).ok_or(Refusal::OneSpeed)?;
                self.inner.stage = Stage::Trying(line);
                Ok(self.told(Word::Laid, line))
            }
            (Stage::Trying(line), Some(place)) => {
                let turned = self.turned_at(line, place);
                self.inner.stage = Stage::Trying(turned);
                Ok(self.told(Word::Moved, turned))
            }
            (Stage::Trying(line), None) => {
                self.inner.stage = Stage::InForce(line);
                Ok(self.told(Word::Proved, line))
            }
            (Stage::InForce(line), _) => Ok(self.told(Word::Stands, line)),
        }
    }

    /// The offset C for the slope B/A over the held shots: of all lines of this slope none is cheaper, and
    /// each of lower offset is dearer. Refused by `Slope` where A is outside 1 to 4000 or B outside -16000
    /// to 16000, then by `Empty` where no shot is held. A need not be reduced against B.
    pub fn mount(&self, a: i32, b: i32) -> Result<i32, Refusal>
        ensures called { Called (Mount a b) (mount_reply result) (sees R.Rack.held R.Rack.capacity P.PriceRule.tariff self.now) (sees R.Rack.held R.Rack.capacity P.PriceRule.tariff self.now) }
        ensures cheapest { OffsetBest (P.PriceRule.tariff self.now.rule) a b (R.Rack.held self.now.rack) result }
    {
        self.fit().offset(a, b)
    }

    /// Writes one row for each held shot on the line in force, in order of place, from the front of the
    /// table, and says how many; rows beyond stay. Refused by `Idle` where no line is in force, then by
    /// `SlipShort` where the table has fewer rows than there are such shots; then nothing is written.
    pub fn slip(&self, table: &mut [Row]) -> Result<usize, Refusal>
        ensures called { Called (Slip (length table.old)) (slip_reply result) (sees R.Rack.held R.Rack.capacity P.PriceRule.tariff self.now) (sees R.Rack.held R.Rack.capacity P.PriceRule.tariff self.now) }
        ensures rows { SlipWrites (P.PriceRule.tariff self.now.rule) (R.Rack.held self.now.rack) (in_force self.now.inner.stage) table.old result table.new }
        ensures life { (past : List Then) → Life past (sees R.Rack.held R.Rack.capacity P.PriceRule.tariff self.now) → SlipWrites (P.PriceRule.tariff self.now.rule) (held_by past) (in_force_by past) table.old result table.new }
    {
        let line = self.in_force().ok_or(Refusal::Idle)?;
        write_rows(&self.fit(), line, table).ok_or(Refusal::SlipShort)
    }

    /// A pass with the line in force; refused by `Idle` where none is.
    pub fn issue(&self) -> Result<Pass, Refusal>
        ensures called { Called Issue (issue_reply result) (sees R.Rack.held R.Rack.capacity P.PriceRule.tariff self.now) (sees R.Rack.held R.Rack.capacity P.PriceRule.tariff self.now) }
        ensures line { line_on result ≡ in_force self.now.inner.stage }
    {
        let line = self.in_force().ok_or(Refusal::Idle)?;
        Ok(Pass { line })
    }

    // The line in force, if one is.
    fn in_force(&self) -> Option<Line>
        ensures { result ≡ in_force self.now.inner.stage }
    {
        match self.inner.stage {
            Stage::InForce(line) => Some(line),
            _ => None,
        }
    }
}
