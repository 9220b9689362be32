// A date as its year, month and day. It is plain data, so that who names a date needs nothing of `jiff`.
ghost use Rattle.std.specs.Prelude.{◌≡◌};
ghost use Rattle.std.specs.Int.{IsInRange};
ghost use Rattle.jiff_core.specs.Calendar.{IsYear, days_in_month};

use jiff::civil::Date;
use jiff_core::civil;
use std::marker::Model;

/// A date of the calendar, from -9999-01-01 to 9999-12-31. Months and days count from 1.
#[derive(Clone, Copy)]
pub struct CivilDate {
    pub year: i16,
    pub month: u8,
    pub day: u8,
    pub ghost year_in: { IsYear year },
    pub ghost month_in: { IsInRange 1 12 month },
    pub ghost day_in: { IsInRange 1 (days_in_month year month) day },
}

impl Model for CivilDate {
    ghost use Rattle.jiff_core.specs.declared.civil.date.Date.{Date};

    ghost Value = { Date };

    ghost view = { λ d. record {
      year = d.year;
      month = d.month;
      day = d.day;
      year_in = d.year_in;
      month_in = d.month_in;
      day_in = d.day_in;
    } };

    ghost inverse = { λ d. record {
      year = d.year;
      month = d.month;
      day = d.day;
      year_in = d.year_in;
      month_in = d.month_in;
      day_in = d.day_in;
    } };
}

/// The date of `jiff`'s own type.
pub fn from_jiff(date: Date) -> CivilDate
    ensures { result ≡ date }
{
    let plain = date.to_plain();
    CivilDate {
        year: plain.year,
        month: plain.month,
        day: plain.day,
    }
}

/// The date as one of `jiff`'s own type.
pub fn to_jiff(date: CivilDate) -> Date
    ensures { result ≡ date }
{
    Date::from_plain(civil::Date {
        year: date.year,
        month: date.month,
        day: date.day,
    })
}
