//! Writing the rows of the shots on a line into a table that the caller lends.
ghost use Rattle.std.specs.Prelude.{◌≡◌, ◌<◌, ◌≤◌, ◌++◌, length, drop};
ghost use Rattle.slips.specs.Rows.{on_line, rows_of, RowAt, Written};

use crate::row::Row;
use fit::Fit;
use lines::Line;
use racks::Rack;
use shots::PriceRule;

/// Writes one row for each held shot on the line, in order of place, from the front of the table, and
/// says how many there are; the rows beyond stay as they were. None, with nothing written, where the
/// table has fewer rows than there are held shots on the line.
pub fn write_rows<R: Rack, P: PriceRule>(
    fit: &Fit<R, P>,
    line: Line,
    table: &mut [Row],
) -> Option<usize>
    ensures { Written (P.PriceRule.tariff fit.now.rule.now) line (R.Rack.held fit.now.rack.now) table.old result table.new }
{
    let count = count_on(fit.rack, line);
    if count <= table.len() {
        fill(fit, line, table);
        Some(count)
    } else {
        None
    }
}

// How many held shots are on the line.
fn count_on<R: Rack>(rack: &R, line: Line) -> usize
    ensures { result ≡ on_line line (R.Rack.held rack.now) }
{
    rack.iter()
        .filter(|shot| line.passes_through(*shot))
        .count()
}

// Writes the rows into a table that has room for them.
fn fill<R: Rack, P: PriceRule>(fit: &Fit<R, P>, line: Line, table: &mut [Row])
    requires { on_line line (R.Rack.held fit.now.rack.now) ≤ length table.old }
    ensures { table.new ≡ rows_of (P.PriceRule.tariff fit.now.rule.now) line (R.Rack.held fit.now.rack.now) ++ drop (on_line line (R.Rack.held fit.now.rack.now)) table.old }
{
    let mut count = 0;
    // by place, which is all that the rates ask for; and counted, since of what an adapter of `iter_mut`
    // yields no proof knows where it lies in the table
    for place in 0..fit.rack.count() {
        if let Some(row) = row_at(fit, line, place) {
            table[count] = row;
            count += 1;
        }
    }
}

// The row of the shot at a place that is known to hold one, by the range of the one loop that asks; none
// where it is off the line.
fn row_at<R: Rack, P: PriceRule>(fit: &Fit<R, P>, line: Line, place: usize) -> Option<Row>
    requires { place < length (R.Rack.held fit.now.rack.now) }
    ensures { RowAt (P.PriceRule.tariff fit.now.rule.now) line (R.Rack.held fit.now.rack.now) place result }
{
    // a rack holds at most 512 shots, so the place fits; the rates take it as a fitter types it
    let rise = fit.rise_rate(line, place as i32)?;
    let fall = fit.fall_rate(line, place as i32)?;
    Some(Row { place, rise, fall })
}
