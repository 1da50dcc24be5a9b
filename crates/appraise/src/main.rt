//! What does the card that is in the valve now cost over these test shots? The card and the shots
//! come as text lines on standard input; each gets one answer, and the total and the verdict come last.
#![tactic(auto)]

use appraisal::{Answer, close, judge, read_card, text_line, verdict};
use racks::{MOST_SHOTS, RecordRack};
use shots::{Refusal, Shot};
use std::io::Read;

fn main(rt: HostRuntime) -> anyhow::Result<()> {
    let mut input = Vec::new(rt.alloc());
    rt.stdin().read_to_end(&mut input)?;
    appraise(&rt, input.as_slice())
}

// Answers the card, each shot and the whole.
fn appraise(rt: &impl Print, input: &[u8]) -> anyhow::Result<()> {
    let (card, mut rest) = text_line(input).unwrap_or((input, input));
    let Some(line) = read_card(card) else {
        let answer = Answer::Refused {
            refusal: Refusal::Unreadable,
            line: 1,
        };
        return Ok(println!(rt; "{answer}")?);
    };
    let blank = Shot {
        speed: 1,
        lead: 0,
        weight: 1,
        stuff: 0,
    };
    let mut records = [blank; MOST_SHOTS];
    let mut rack = RecordRack::open(&mut records);
    // numbered by a range, which ends the loop: no contract says that the text lines come to an end
    for number in 2..u64::MAX {
        let Some((text, after)) = text_line(rest) else {
            break;
        };
        let answer = judge(&mut rack, line, text, number);
        println!(rt; "{answer}")?;
        rest = after;
    }
    let answer = close(&rack, line);
    println!(rt; "{answer}")?;
    let answer = verdict(&rack, line);
    Ok(println!(rt; "{answer}")?)
}
