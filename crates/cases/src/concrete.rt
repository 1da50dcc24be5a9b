//! The sample life, made by the code on a rack of five records.
ghost use Rattle.std.specs.Prelude.{◌≡◌, reverse};
ghost use Rattle.cases.specs.Examples.{add as added};
ghost use Rattle.cases.specs.Sample.{sample};

use law::{Call, Moment, Reply};
use racks::RecordRack;
use sheet::live;
use shots::{Entry, EvenPrices, Shot};

/// The sample life as the code makes it, moment by moment.
pub fn sample_life() -> [Moment; 11]
    ensures { result ≡ reverse sample }
{
    let calls = [
        add(500, 20),
        add(1000, 0),
        add(2000, 0),
        add(3000, 0),
        add(3500, -20),
        Call::Pivot,
        Call::Pivot,
        Call::Pivot,
        Call::Issue,
        Call::Strike { place: 2 },
        Call::Strike { place: 0 },
    ];
    let blank = Moment {
        call: Call::Pivot,
        reply: Reply::Done,
        pass: None,
    };
    let mut moments = [blank; 11];
    let mut records = [any_shot(); 5];
    let mut rack = RecordRack::open(&mut records);
    let _ = live(&mut rack, EvenPrices, &calls, &mut moments);
    moments
}

// An add of weight 1 and stuff 0.
fn add(speed: i32, lead: i32) -> Call
    ensures { result ≡ added speed lead }
{
    Call::Add(Entry::new(speed, lead, 1, 0))
}

// What the records hold before they are written.
fn any_shot() -> Shot {
    Shot::try_from(Entry::new(1, 0, 1, 0)).unwrap()
}
