//! Texts that write moments and days.

ghost use Rattle.std.specs.Prelude.{◌≡◌};
ghost use Rattle.jiff_core.specs.Date.{epoch_day};
ghost use Rattle.base_dates.specs.Moments.{day_of, last_second, moment_of};

use base_values::moment::{LAST_MOMENT, Moment};
use base_values::refusal::ValueRefusal;
use jiff::Timestamp;
use jiff::civil::Date;

/// The moment of the instant that a text writes, rounded down to the second.
/// Refusals: 3 `NotMoment` where it writes none, 4 `OutOfRange` before 1970 or after the last moment.
pub fn read_moment(text: &str) -> Result<Moment, ValueRefusal>
    ensures { result ≡ moment_of text.now }
{
    let read: Result<Timestamp, jiff::Error> = text.parse();
    let Ok(instant) = read else {
        return Err(ValueRefusal::NotMoment);
    };
    let nanoseconds = instant.as_nanosecond();
    if nanoseconds < 0 {
        return Err(ValueRefusal::OutOfRange);
    }
    let second = nanoseconds / 1_000_000_000;
    if second > LAST_MOMENT as i128 {
        return Err(ValueRefusal::OutOfRange);
    }
    Ok(Moment::new(second as u64))
}

/// The last second in UTC of the day that ten bytes write, as `2026-05-01`.
/// Refusals: 3 `NotMoment` where they write none or aren't ten, 4 `OutOfRange` before 1970 or after 9998.
pub fn read_day(text: &str) -> Result<Moment, ValueRefusal>
    ensures { result ≡ day_of text.now }
{
    let read: Result<Date, jiff::Error> = text.parse();
    match read {
        Ok(date) if text.len() == 10 => last_second(date),
        _ => Err(ValueRefusal::NotMoment),
    }
}

fn last_second(date: Date) -> Result<Moment, ValueRefusal>
    ensures { result ≡ last_second (epoch_day date) }
{
    let second = date.to_plain().to_unix_epoch_day() as i64 * 86_400 + 86_399;
    if second < 0 || second > LAST_MOMENT as i64 {
        return Err(ValueRefusal::OutOfRange);
    }
    Ok(Moment::new(second as u64))
}
