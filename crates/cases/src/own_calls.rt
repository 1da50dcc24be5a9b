//! A caller that makes the calls itself.
ghost use Rattle.std.specs.Prelude.{◌≡◌, [], ◌∷◌, pos};
ghost use Rattle.law.specs.declared.kinds.Call.TheVariants.{Add, Strike, Pivot, Mount, Slip, Issue};
ghost use Rattle.cases.specs.Hands.{OwnLife};

use racks::Rack;
use sheet::{Pass, Sheet};
use shots::{Entry, PriceRule, Refusal};
use slips::Row;

/// Makes each of the six calls once, whatever the others answered, the last one an issue. Nothing but
/// the calls' own contracts is known here, and they give the law of the life just made, and with it
/// every answer: on an empty rack the result is the one that the law names.
pub fn by_hand<R: Rack + Drop, P: PriceRule + Drop>(
    rack: R,
    rule: P,
    speed: i32,
    lead: i32,
    place: i32,
) -> Result<Pass, Refusal>
    ensures { R.Rack.held rack ≡ [] → OwnLife (P.PriceRule.tariff rule) (R.Rack.capacity rack) (Issue ∷ Slip 5 ∷ Mount speed lead ∷ Strike place ∷ Pivot ∷ Add (record { speed = speed; lead = lead; weight = pos 1; stuff = pos 0 }) ∷ []) result }
{
    let mut sheet = Sheet::begin(rack, rule);
    let _ = sheet.add(Entry::new(speed, lead, 1, 0));
    let _ = sheet.pivot();
    let _ = sheet.strike(place);
    let _ = sheet.mount(speed, lead);
    let mut table = [Row::default(); 5];
    let _ = sheet.slip(&mut table);
    sheet.issue()
}
