//! How long the calls on a sheet take, over 8, 64 and 512 shots of which half lie on one line. What they
//! answered goes to standard output and is always the same; the times go to standard error.
#![tactic(auto)]

use law::Word;
use racks::{MOST_SHOTS, Rack, RecordRack};
use sheet::Sheet;
use shots::{Entry, EvenPrices, PriceRule, Shot};
use slips::Row;
use std::rt::{Clock, Runtime};
use std::time::Instant;

// How often each call is made.
const TURNS: u32 = 100;

fn main(rt: HostRuntime) -> anyhow::Result<()> {
    pace_all(&rt)
}

fn pace_all<T: Runtime>(rt: &T) -> anyhow::Result<()> {
    pace(rt, 8)?;
    pace(rt, 64)?;
    pace(rt, 512)
}

// Times the calls over so many shots.
fn pace<T: Runtime>(rt: &T, count: u32) -> anyhow::Result<()> {
    let blank = Shot {
        speed: 1,
        lead: 0,
        weight: 1,
        stuff: 0,
    };
    let mut records = [blank; MOST_SHOTS];
    let mut rack = RecordRack::open(&mut records);
    for i in 0..count {
        let _ = rack.add(entry(i));
    }
    let mut sheet = Sheet::begin(&mut rack, EvenPrices);
    pace_pivots(rt, &mut sheet, count)?;
    pace_changes(rt, &mut sheet, count)?;
    pace_questions(rt, &sheet, count)
}

// Pivots to the end, then once more.
fn pace_pivots<T: Runtime, R: Rack, P: PriceRule>(
    rt: &T,
    sheet: &mut Sheet<R, P>,
    count: u32,
) -> anyhow::Result<()> {
    let start = Instant::now(rt)?;
    let mut pivots: u32 = 0;
    for _ in 0..1000 {
        pivots = pivots.saturating_add(1);
        let Ok(pivoted) = sheet.pivot() else { break };
        if pivoted.word == Word::Proved {
            break;
        }
    }
    let each = start.elapsed(rt)?.as_nanos() / u128::from(pivots.max(1));
    println!(rt; "{count} shots: {pivots} pivots")?;
    eprintln!(rt; "{count}\tpivot, trying\t{each}")?;
    let start = Instant::now(rt)?;
    let mut total: i64 = 0;
    for _ in 0..TURNS {
        if let Ok(pivoted) = sheet.pivot() {
            total = total.wrapping_add(pivoted.priced.total);
        }
    }
    let each = start.elapsed(rt)?.as_nanos() / u128::from(TURNS);
    println!(rt; "{count} shots: {TURNS} totals add up to {total}")?;
    Ok(eprintln!(rt; "{count}\tpivot, in force\t{each}")?)
}

// Takes the last shot out and puts it back, with a line in force.
fn pace_changes<T: Runtime, R: Rack, P: PriceRule>(
    rt: &T,
    sheet: &mut Sheet<R, P>,
    count: u32,
) -> anyhow::Result<()> {
    let last = count.saturating_sub(1);
    let mut strikes: u128 = 0;
    let mut adds: u128 = 0;
    for _ in 0..TURNS {
        let start = Instant::now(rt)?;
        let _ = sheet.strike((last % MOST_SHOTS as u32) as i32);
        strikes = strikes.saturating_add(start.elapsed(rt)?.as_nanos());
        let start = Instant::now(rt)?;
        let _ = sheet.add(entry(last));
        adds = adds.saturating_add(start.elapsed(rt)?.as_nanos());
    }
    let strike = strikes / u128::from(TURNS);
    let add = adds / u128::from(TURNS);
    eprintln!(rt; "{count}\tstrike, in force\t{strike}")?;
    Ok(eprintln!(rt; "{count}\tadd, in force\t{add}")?)
}

// Mounts, slips and issues.
fn pace_questions<T: Runtime, R: Rack, P: PriceRule>(
    rt: &T,
    sheet: &Sheet<R, P>,
    count: u32,
) -> anyhow::Result<()> {
    let start = Instant::now(rt)?;
    let mut offsets: i64 = 0;
    for b in 0..TURNS {
        if let Ok(offset) = sheet.mount(7, b as i32) {
            offsets = offsets.wrapping_add(i64::from(offset));
        }
    }
    let mount = start.elapsed(rt)?.as_nanos() / u128::from(TURNS);
    println!(rt; "{count} shots: {TURNS} offsets add up to {offsets}")?;
    eprintln!(rt; "{count}\tmount\t{mount}")?;
    let start = Instant::now(rt)?;
    let mut rates: i64 = 0;
    for i in 0..TURNS {
        rates = rates.wrapping_add(rates_in_row(sheet, i as usize));
    }
    let slip = start.elapsed(rt)?.as_nanos() / u128::from(TURNS);
    eprintln!(rt; "{count}\tslip\t{slip}")?;
    Ok(println!(rt; "{count} shots: rates, up less down, add up to {rates}")?)
}

// Slips, and takes the fall rate in a row from its rise rate; 0 in a row that is not written.
fn rates_in_row<R: Rack, P: PriceRule>(sheet: &Sheet<R, P>, row: usize) -> i64 {
    let mut table = [Row::default(); MOST_SHOTS];
    let _ = sheet.slip(&mut table);
    let Row { rise, fall, .. } = table[row % MOST_SHOTS];
    rise.wrapping_sub(fall)
}

// Entries of weight 1 and stuff 0.
fn entry(i: u32) -> Entry {
    Entry::new(speed(i), lead(i), 1, 0)
}

// Speeds that differ, in no order.
fn speed(i: u32) -> i32 {
    1 + (i.wrapping_mul(2654435761) % 4000) as i32
}

// Every other lead is the speed itself; the rest lie up to 499 off on either side.
fn lead(i: u32) -> i32 {
    if i % 2 == 0 {
        speed(i)
    } else {
        speed(i).wrapping_add((i.wrapping_mul(40503) % 999) as i32 - 499)
    }
}
