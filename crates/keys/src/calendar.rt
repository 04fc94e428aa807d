// The calendar of the stamps: the Gregorian years 2000 to 2399.
ghost use Rattle.std.specs.Prelude.{◌≡◌};
ghost use Rattle.keys.specs.Calendar.{OrdinalDates, OrderOfInstants, OneStampEach, Known};
ghost use Rattle.keys.specs.Dates.{days_in};
ghost use Rattle.keys.specs.Gregorian.{leap};

// 4 divides a leap year, except that of the years that 100 divides only those are leap years that 400 divides.
pub fn is_leap(year: u64) -> bool
    ensures { result ≡ leap year }
{
    year % 4 == 0 && (year % 100 != 0 || year % 400 == 0)
}

// The number of the last day of a year.
pub fn last_day(year: u64) -> u64
    ensures { result ≡ days_in year }
{
    if is_leap(year) { 366 } else { 365 }
}

// The days of the stamps are the calendar's dates, their order is the order in time, and each millisecond of the 400 years has one stamp.
pub fn calendar_stands()
    ensures dates { OrdinalDates }
    ensures order { OrderOfInstants }
    ensures each { OneStampEach }
    ensures known { Known }
{}
