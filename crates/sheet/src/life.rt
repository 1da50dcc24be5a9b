//! Whole lives: one call after another on one sheet, each written down with its answer and with the
//! line in force after it.
ghost use Rattle.std.specs.Prelude.{◌≡◌, List, ◌∷◌, ◌++◌, map, reverse, length, IfNone};
ghost use Rattle.law.specs.declared.kinds.Call.TheVariants.{Slip};
ghost use Rattle.law.specs.declared.kinds.Moment.{Moment as Then};
ghost use Rattle.law.specs.Ties.{Called, Life};
ghost use Rattle.law.specs.Views.{in_force};
ghost use Rattle.sheet.specs.Living.{Lives};
ghost use Rattle.sheet.specs.Sheets.{sees, reply_of, slip_reply};

use crate::sheet::Sheet;
use law::{Call, Moment, Pivoted, Reply};
use lines::Line;
use racks::{MOST_SHOTS, Rack};
use shots::{PriceRule, Refusal};
use slips::Row;

/// A rack and a rule after a life on them.
#[derive(Drop)]
pub struct Lived<R, P> {
    /// How many moments were written; none where no life was made.
    pub count: Option<usize>,
    /// The rack, with the shots that the life left in it.
    pub rack: R,
    /// The rule, as it was.
    pub rule: P,
}

/// Makes each call in turn on a new sheet, asks issue after each, and writes the moments down. No
/// life is made, and nothing is written, where the rack holds a shot or there is less room than one
/// moment for each call.
pub fn live<R: Rack, P: PriceRule>(
    rack: R,
    rule: P,
    calls: &[Call],
    moments: &mut [Moment],
) -> Lived<R, P>
    ensures lives { Lives (P.PriceRule.tariff rule) (R.Rack.capacity rack) (R.Rack.held rack) calls.now moments.old result.count moments.new (R.Rack.held result.rack) }
    ensures kept { IfNone result.count (result.rack ≡ rack) }
    ensures room { R.Rack.capacity result.rack ≡ R.Rack.capacity rack }
    ensures rule { result.rule ≡ rule }
{
    if !rack.is_empty() || moments.len() < calls.len() {
        return Lived {
            count: None,
            rack,
            rule,
        };
    }
    let mut sheet = Sheet::begin(rack, rule);
    sheet.run(calls, &mut moments[..calls.len()]);
    let (rack, rule) = sheet.end();
    Lived {
        count: Some(calls.len()),
        rack,
        rule,
    }
}

impl<R: Rack, P: PriceRule> Sheet<R, P> {
    // Makes each call in turn on a sheet, whatever life led to it.
    fn run(&mut self, calls: &[Call], moments: &mut [Moment])
        requires { length moments.old ≡ length calls.now }
        ensures called { map (λ m. m.call) moments.new ≡ calls.now }
        ensures life { (past : List Then) → Life past (sees R.Rack.held R.Rack.capacity P.PriceRule.tariff self.old) → Life (reverse moments.new ++ past) (sees R.Rack.held R.Rack.capacity P.PriceRule.tariff self.new) }
        ensures room { R.Rack.capacity self.new.rack ≡ R.Rack.capacity self.old.rack }
        ensures rule { self.new.rule ≡ self.old.rule }
    {
        // by index: after a `zip` over `iter_mut` no contract says what became of the moments
        for (i, call) in calls.iter().enumerate() {
            moments[i] = self.perform(*call);
        }
    }

    /// Makes one call, asks issue, and tells both.
    pub fn perform(&mut self, call: Call) -> Moment
        ensures call { result.call ≡ call }
        ensures called { Called call result.reply (sees R.Rack.held R.Rack.capacity P.PriceRule.tariff self.old) (sees R.Rack.held R.Rack.capacity P.PriceRule.tariff self.new) }
        ensures pass { result.pass ≡ in_force self.new.inner.stage }
        ensures life { (past : List Then) → Life past (sees R.Rack.held R.Rack.capacity P.PriceRule.tariff self.old) → Life (result ∷ past) (sees R.Rack.held R.Rack.capacity P.PriceRule.tariff self.new) }
        ensures rule { self.new.rule ≡ self.old.rule }
    {
        let reply = self.make(call);
        let pass = self.line_in_force();
        Moment { call, reply, pass }
    }

    // Makes one call, and tells the answer or the refusal.
    fn make(&mut self, call: Call) -> Reply
        ensures called { Called call result (sees R.Rack.held R.Rack.capacity P.PriceRule.tariff self.old) (sees R.Rack.held R.Rack.capacity P.PriceRule.tariff self.new) }
        ensures rule { self.new.rule ≡ self.old.rule }
    {
        self.answer(call).unwrap_or_else(Reply::Refused)
    }

    // Makes one call.
    fn answer(&mut self, call: Call) -> Result<Reply, Refusal>
        ensures called { Called call (reply_of result) (sees R.Rack.held R.Rack.capacity P.PriceRule.tariff self.old) (sees R.Rack.held R.Rack.capacity P.PriceRule.tariff self.new) }
        ensures rule { self.new.rule ≡ self.old.rule }
    {
        Ok(match call {
            Call::Add(entry) => {
                self.add(entry)?;
                Reply::Done
            }
            Call::Strike { place } => {
                self.strike(place)?;
                Reply::Done
            }
            Call::Pivot => {
                let Pivoted { word, priced } = self.pivot()?;
                Reply::Told(word, priced)
            }
            Call::Mount { a, b } => Reply::Mounted(self.mount(a, b)?),
            Call::Slip { rows } => Reply::Slipped(self.rows_of_slip(rows)?),
            Call::Issue => Reply::Issued(self.issue()?.give_up()),
        })
    }

    // The line for which issue answers a pass now: by issue itself, since that is what a moment tells.
    fn line_in_force(&self) -> Option<Line>
        ensures { result ≡ in_force self.now.inner.stage }
    {
        Some(self.issue().ok()?.give_up())
    }

    // How many rows a slip writes into a table of so many. No rack holds more than 512 shots, so a table of
    // 512 rows stands in for any longer one.
    fn rows_of_slip(&self, rows: usize) -> Result<usize, Refusal>
        ensures { Called (Slip rows) (slip_reply result) (sees R.Rack.held R.Rack.capacity P.PriceRule.tariff self.now) (sees R.Rack.held R.Rack.capacity P.PriceRule.tariff self.now) }
    {
        let mut table = [Row::default(); MOST_SHOTS];
        self.slip(&mut table[..rows.min(MOST_SHOTS)])
    }
}
