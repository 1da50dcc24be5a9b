//! The cheapest line over the held shots, found by a fresh life of them, at even prices.
ghost use Rattle.std.specs.Prelude.{◌≡◌, ℕ, length, Decides, Some, Option as Maybe};
ghost use Rattle.appraisal.specs.Finding.{best_text, Tells, Finds, Settles};
ghost use Rattle.appraisal.specs.Planning.{Planned};

use crate::answer::CheaperLine;
use crate::planning::plan;
use fit::Fit;
use law::{Call, Moment, Reply, Word};
use lines::{Line, PricedLine};
use racks::Rack;
use sheet::live;
use shots::EvenPrices;
use std::fmt;

/// The cheapest line there is, with its total; none where fewer than two speeds are held, so that
/// there is no line to find.
#[derive(Clone, Copy, PartialEq, Eq, Debug)]
pub struct BestLine(pub Option<CheaperLine>);

impl fmt::Display for BestLine {
    ghost output = { λ best. Some (best_text best.0) };

    fn fmt<W: fmt::Write>(&self, f: &mut fmt::Formatter<W>) -> fmt::Result {
        match self.0 {
            Some(line) => write!(f, "best\t{line}"),
            None => f.write_str("no line\tfewer than two speeds"),
        }
    }
}

/// What came of a life.
#[derive(Clone, Copy)]
pub struct Found {
    /// How many moments were written.
    pub count: usize,
    /// The line in force at last, with its total, or that there is none.
    pub best: BestLine,
}

/// A rack after a life on it.
#[derive(Drop)]
pub struct Finding<F> {
    /// What came of it; none where no life was made.
    pub found: Option<Found>,
    /// The rack, with the shots that the life left in it.
    pub rack: F,
}

/// Adds each held shot to the fresh rack and pivots to the end, with the calls and their moments
/// written into what is lent, and answers the line that is then in force. No life is made, and no
/// moment is written, where the fresh rack holds a shot, or there is too little room for the calls or
/// for their moments.
pub fn find_best<R: Rack, F: Rack>(
    rack: &R,
    fresh: F,
    calls: &mut [Call],
    moments: &mut [Moment],
) -> Finding<F>
    ensures finds { Finds (F.Rack.capacity fresh) (R.Rack.held rack.now) (F.Rack.held fresh) (length calls.old) moments.old result.found moments.new (F.Rack.held result.rack) }
    ensures planned { (o : Maybe ℕ) × Planned (R.Rack.held rack.now) calls.old o calls.new }
    ensures room { F.Rack.capacity result.rack ≡ F.Rack.capacity fresh }
{
    let Some(planned) = plan(rack, calls) else {
        return Finding {
            found: None,
            rack: fresh,
        };
    };
    let lived = live(fresh, EvenPrices, &calls[..planned], moments);
    let found = lived.count.map(|count| Found {
        count,
        best: BestLine(in_force(rack, moments[count - 1].pass)),
    });
    Finding {
        found,
        rack: lived.rack,
    }
}

/// Whether a pivot's answer settles the life: the line is proved, or there is none to find.
pub fn settles(reply: Reply) -> bool
    ensures { Decides result (Settles reply) }
{
    matches!(reply, Reply::Told(Word::Proved, _) | Reply::Refused(_))
}

// A line in force with its total, or that none is.
fn in_force<R: Rack>(rack: &R, pass: Option<Line>) -> Option<CheaperLine>
    ensures { Tells (R.Rack.held rack.now) pass result }
{
    pass.map(|line| {
        let fit = Fit {
            rack,
            rule: &EvenPrices,
        };
        CheaperLine::from(PricedLine {
            line,
            total: fit.total(line),
        })
    })
}
