//! Money, moments, prices, codes, secrets and days.

use base_dates::{moment_text, read_day, read_moment};
use base_values::{
    Cents, Draw, Moment, PriceMode, ValueRefusal, cents_text, order_code, price_within, read_cents,
    read_code, secret,
};
use std::process::Abort;
use std::test::Fail;

// What a text is read as.
#[derive(Clone, Copy, Drop)]
enum Reader {
    Money,
    Moment,
    Day,
    Code,
}

impl Reader {
    // The number that a text reads as.
    fn read(self, text: &str) -> Result<u64, ValueRefusal> {
        match self {
            Reader::Money => read_cents(text).map(|cents| cents.get()),
            Reader::Moment => read_moment(text).map(|moment| moment.get()),
            Reader::Day => read_day(text).map(|moment| moment.get()),
            Reader::Code => read_code(text).map(|number| u64::from(number)),
        }
    }
}

// Each of these texts reads as the number beside it.
fn read_as(rt: &impl Abort, reader: Reader, cases: &[(&str, u64)]) {
    for (text, number) in cases {
        assert_eq!(rt; reader.read(text), Ok(*number), "{text}");
    }
}

// Each of these texts is refused so.
fn refused_as(rt: &impl Abort, reader: Reader, why: ValueRefusal, texts: &[&str]) {
    for text in texts {
        assert_eq!(rt; reader.read(text), Err(why), "{text}");
    }
}

#[test]
fn money(rt: HostRuntime) -> Result<(), Fail> {
    let cases = [
        ("99999999.99", 9_999_999_999),
        ("23", 2300),
        ("23.5", 2350),
        ("0.03", 3),
        ("007.10", 710),
    ];
    read_as(&rt, Reader::Money, &cases);
    let no_money = [
        "1.234",
        "",
        ".",
        ".5",
        "5.",
        "-1",
        "+1",
        " 1",
        "1,50",
        "123456789.555",
        "1.2.3",
    ];
    refused_as(&rt, Reader::Money, ValueRefusal::NotMoney, &no_money);
    let large = ["100000000", "123456789.55", "000000001"];
    refused_as(&rt, Reader::Money, ValueRefusal::TooLarge, &large);
    let alloc = rt.alloc();
    for (amount, text) in [
        (Cents::new(1533), "15.33"),
        (Cents::new(2), "0.02"),
        (Cents::new(0), "0.00"),
        (Cents::new(9_999_999_999), "99999999.99"),
    ] {
        assert_eq!(rt; cents_text(alloc, amount)?.as_str(), text);
    }
    Ok(())
}

#[test]
fn moments(rt: HostRuntime) -> Result<(), Fail> {
    let cases = [
        ("2026-05-01T12:00:00.9+02:00", 1_777_629_600),
        ("1970-01-01T00:00:00Z", 0),
        ("9998-12-31T23:59:59Z", 253_370_764_799),
    ];
    read_as(&rt, Reader::Moment, &cases);
    let no_moment = ["2026-05-01", "", "noon", "2026-05-01T10:00:00"];
    refused_as(&rt, Reader::Moment, ValueRefusal::NotMoment, &no_moment);
    let outside = ["1969-12-31T23:59:59Z", "9999-01-01T00:00:00Z"];
    refused_as(&rt, Reader::Moment, ValueRefusal::OutOfRange, &outside);
    let alloc = rt.alloc();
    for (moment, text) in [
        (Moment::new(0), "1970-01-01T00:00:00Z"),
        (Moment::new(1_777_629_600), "2026-05-01T10:00:00Z"),
        (Moment::new(253_370_764_799), "9998-12-31T23:59:59Z"),
    ] {
        assert_eq!(rt; moment_text(alloc, moment)?.as_str(), text);
    }
    Ok(())
}

#[test]
fn prices(rt: HostRuntime) {
    let base = Cents::new(500);
    let third = price_within(
        PriceMode::Percent,
        Some(Cents::new(3333)),
        Cents::new(2300),
        None,
    );
    assert_eq!(rt; third.get(), 1533);
    let half = price_within(
        PriceMode::Percent,
        Some(Cents::new(5000)),
        Cents::new(3),
        None,
    );
    assert_eq!(rt; half.get(), 2);
    let less = price_within(PriceMode::Subtract, Some(Cents::new(750)), base, None);
    assert_eq!(rt; less.get(), 0);
    let set = price_within(PriceMode::Set, Some(Cents::new(750)), base, None);
    assert_eq!(rt; set.get(), 750);
    let unchanged = price_within(PriceMode::None, Some(Cents::new(750)), base, None);
    assert_eq!(rt; unchanged.get(), 500);
    let unset = price_within(PriceMode::Set, None, base, None);
    assert_eq!(rt; unset.get(), 500);
}

// The price, in cents, of what costs 5.00 by a voucher of the value 7.50 with so much left of its budget.
fn priced(mode: PriceMode, left: Cents) -> u64 {
    let value = Some(Cents::new(750));
    price_within(mode, value, Cents::new(500), Some(left)).get()
}

#[test]
fn prices_within_a_budget(rt: HostRuntime) {
    for (left, lowered) in [
        (Cents::new(0), 500),
        (Cents::new(1), 499),
        (Cents::new(499), 1),
        (Cents::new(500), 0),
        (Cents::new(900), 0),
    ] {
        assert_eq!(rt; priced(PriceMode::Subtract, left), lowered);
        assert_eq!(rt; priced(PriceMode::Set, left), 750);
    }
}

#[test]
fn codes(rt: HostRuntime) -> Result<(), Fail> {
    let alloc = rt.alloc();
    for (number, text) in [
        (1, "AAAAB"),
        (28, "AAABA"),
        (17_210_366, "99998"),
        (17_210_367, "99999"),
    ] {
        assert_eq!(rt; order_code(alloc, number)?.as_str(), text);
        read_as(&rt, Reader::Code, &[(text, u64::from(number))]);
    }
    let no_codes = [
        "AAAAA", "AAAA0", "aaaab", "AAAb", "AAAB", "AAAAAB", "", "AAAÄ",
    ];
    refused_as(&rt, Reader::Code, ValueRefusal::NotCode, &no_codes);
    Ok(())
}

#[test]
fn secrets(rt: HostRuntime) -> Result<(), Fail> {
    let draw = Draw {
        bytes: [0, 0, 0, 0, 0, 0, 0, 0, 0, 0, 0, 0, 0, 0, 171, 4],
    };
    let text = secret(rt.alloc(), draw, 1, 12)?;
    assert_eq!(rt; text.as_str(), "0000000000000000000000000000ab04z1z12");
    Ok(())
}

#[test]
fn days(rt: HostRuntime) {
    let cases = [
        ("2026-06-01", 1_780_358_399),
        ("1970-01-01", 86_399),
        ("2024-02-29", 1_709_251_199),
        ("9998-12-31", 253_370_764_799),
    ];
    read_as(&rt, Reader::Day, &cases);
    let no_days = [
        "2026-02-29",
        "20260601",
        "2026-6-1",
        "2026-06-1",
        "26-06-0001",
        "2026-06-01T00:00:00",
        "+002026-06-01",
        "2026/06/01",
        "",
    ];
    refused_as(&rt, Reader::Day, ValueRefusal::NotMoment, &no_days);
    let outside = ["1969-12-31", "9999-01-01"];
    refused_as(&rt, Reader::Day, ValueRefusal::OutOfRange, &outside);
}
