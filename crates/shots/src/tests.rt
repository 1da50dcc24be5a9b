//! Ranges at their ends, images byte by byte, and the stuff table.
use crate::{Entry, EvenPrices, PriceRule, Refusal, Shot, StuffPrices};
use std::test::Fail;

#[test]
fn ends_of_ranges_are_taken(rt: HostRuntime) -> Result<(), Fail> {
    let slow = Shot::try_from(Entry::new(1, -8000, 1, 0))?;
    assert_eq!(rt;
        (slow.speed, slow.lead, slow.weight, slow.stuff),
        (1, -8000, 1, 0)
    );
    let fast = Shot::try_from(Entry::new(4000, 8000, 100, 15))?;
    assert_eq!(rt;
        (fast.speed, fast.lead, fast.weight, fast.stuff),
        (4000, 8000, 100, 15)
    );
    Ok(())
}

#[test]
fn first_number_out_of_range_is_named(rt: HostRuntime) {
    assert_eq!(rt;
        Shot::try_from(Entry::new(0, 9000, 0, 16)),
        Err(Refusal::Speed)
    );
    assert_eq!(rt;
        Shot::try_from(Entry::new(4001, 0, 1, 0)),
        Err(Refusal::Speed)
    );
    assert_eq!(rt;
        Shot::try_from(Entry::new(i32::MIN, 0, 1, 0)),
        Err(Refusal::Speed)
    );
    assert_eq!(rt;
        Shot::try_from(Entry::new(1, -8001, 101, 16)),
        Err(Refusal::Lead)
    );
    assert_eq!(rt;
        Shot::try_from(Entry::new(1, i32::MIN, 1, 0)),
        Err(Refusal::Lead)
    );
    assert_eq!(rt;
        Shot::try_from(Entry::new(1, i32::MAX, 1, 0)),
        Err(Refusal::Lead)
    );
    assert_eq!(rt;
        Shot::try_from(Entry::new(1, 0, 101, -1)),
        Err(Refusal::Weight)
    );
    assert_eq!(rt;
        Shot::try_from(Entry::new(1, 0, 1, 16)),
        Err(Refusal::Stuff)
    );
    assert_eq!(rt;
        Shot::try_from(Entry::new(1, 0, 1, i32::MAX)),
        Err(Refusal::Stuff)
    );
}

#[test]
fn images_are_big_endian(rt: HostRuntime) -> Result<(), Fail> {
    let shot = Shot::try_from(Entry::new(258, -2, 10, 3))?;
    assert_eq!(rt; shot.image(), [1, 2, 255, 254, 10, 3]);
    assert_eq!(rt; Shot::from_image([1, 2, 255, 254, 10, 3]), Some(shot));
    assert_eq!(rt; Shot::from_image([0, 0, 0, 0, 1, 0]), None);
    assert_eq!(rt; Shot::from_image([1, 2, 31, 65, 10, 3]), None);
    Ok(())
}

#[test]
fn prices_are_set_by_stuff(rt: HostRuntime) -> Result<(), Fail> {
    let mut rule = StuffPrices::new();
    assert_eq!(rt; rule.prices(7), (1, 1));
    rule.set(7, 20, 3)?;
    assert_eq!(rt; rule.prices(7), (20, 3));
    assert_eq!(rt; rule.prices(8), (1, 1));
    assert_eq!(rt; rule.prices(-1), (1, 1));
    assert_eq!(rt; rule.prices(16), (1, 1));
    assert_eq!(rt; rule.set(16, 0, 0), Err(Refusal::Stuff));
    assert_eq!(rt; rule.set(7, 21, 1), Err(Refusal::Price));
    assert_eq!(rt; rule.set(7, 1, 0), Err(Refusal::Price));
    assert_eq!(rt; rule.prices(7), (20, 3));
    assert_eq!(rt; EvenPrices.prices(7), (1, 1));
    Ok(())
}

#[test]
fn refusals_have_numbers_and_words(rt: HostRuntime) {
    assert_eq!(rt; u8::from(Refusal::Speed), 1);
    assert_eq!(rt; u8::from(Refusal::Paper), 16);
    assert_eq!(rt; Refusal::OneSpeed.word(), "one speed");
}

#[test]
fn refusals_print_their_words(rt: HostRuntime) -> Result<(), Fail> {
    let text = Refusal::OneSpeed.to_string(rt.alloc())?;
    assert_eq!(rt; text.as_str(), "one speed");
    Ok(())
}
