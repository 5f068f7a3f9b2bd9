// Dates and weekdays of minutes.
ghost use Rattle.std.specs.Prelude.{◌≡◌};
ghost use Rattle.units.specs.Dates.{date_of, weekday_of, listed};

// The date of a minute: days since minute 0.
pub fn date_of(minute: u32) -> u32
    ensures { result ≡ date_of minute }
{
    minute / 1440
}

// The weekday of a date, 0 for Monday. The remainder is taken first, so that no date is too large.
pub fn weekday_of(date: u32) -> u32
    ensures { result ≡ weekday_of date }
{
    (date % 7 + 3) % 7
}

// Whether a date is one of the days of a mask, bit 0 Monday.
pub(crate) fn listed(mask: u16, date: u32) -> bool
    ensures { result ≡ listed mask date }
{
    let day = weekday_of(date);
    (mask >> day) % 2 == 1
}
