// Making stamps, and stamps as keys.
ghost use Rattle.std.specs.Prelude.{◌≡◌};
ghost use Rattle.keys.specs.Dates.{valid_stamp};
ghost use Rattle.keys.specs.InWords.{in_words, numbers_before};
ghost use Rattle.keys.specs.Stamps.{stamp_of, stamp_kind};
ghost use Rattle.keys.specs.StampLaws;

use super::Stamp;
use crate::Key;
use crate::calendar::last_day;
use refusal::Refusal;

// The one test of a stamp.
#[inline(always)]
fn is_stamp(year: u64, day: u64, millisecond: u64) -> bool
    ensures { result ≡ valid_stamp year day millisecond }
{
    // Day 366 alone asks whether the year is a leap year.
    let day_fits = day >= 1 && (day <= 365 || day <= last_day(year));
    year >= 2000 && year <= 2399 && day_fits && millisecond < 86_400_000
}

// By first and then second words.
#[inline(always)]
fn first_before(a: (u64, u64), b: (u64, u64)) -> bool
    ensures { result ≡ numbers_before a b }
{
    a < b
}

// Whether two words are a stamp.
#[inline(always)]
fn is_packed(words: (u64, u64)) -> bool
    ensures { result ≡ (in_words stamp_kind).valid words }
{
    is_stamp(words.1 / 512, words.1 % 512, words.0)
}

impl Stamp {
    // The stamp of a year, a day of the year and a millisecond of the day, whatever the three numbers are.
    #[inline(always)]
    pub fn new(year: u64, day: u64, millisecond: u64) -> Result<Self, Refusal>
        ensures { result ≡ stamp_of year day millisecond }
    {
        if !is_stamp(year, day, millisecond) {
            return Err(Refusal::NotAKey);
        }
        // Each fits, by the test.
        Ok(Stamp {
            year: year as u16,
            day: day as u16,
            millisecond: millisecond as u32,
        })
    }
}

impl Key for Stamp {
    ghost kind = { stamp_kind };

    ghost ordered = { StampLaws.ordered };

    ghost formed = { StampLaws.formed };

    fn code() -> u64 {
        1
    }

    #[inline(always)]
    fn pack(&self) -> (u64, u64) {
        (self.millisecond(), self.year() * 512 + self.day())
    }

    #[inline(always)]
    fn unpack(words: (u64, u64)) -> Result<Stamp, Refusal> {
        Stamp::new(words.1 / 512, words.1 % 512, words.0)
    }

    #[inline(always)]
    fn before(&self, other: &Stamp) -> bool {
        self < other
    }

    #[inline(always)]
    fn stands_before(words: (u64, u64), key: &Stamp) -> bool {
        let own = key.pack();
        is_packed(words) && first_before((words.1, words.0), (own.1, own.0))
    }

    // The words of stamps are compared as they stand, the second ones first: that is their order in time.
    #[inline(always)]
    fn pair_before(a: (u64, u64), b: (u64, u64)) -> bool {
        match (is_packed(a), is_packed(b)) {
            (true, true) => first_before((a.1, a.0), (b.1, b.0)),
            (true, false) => true,
            (false, true) => false,
            (false, false) => first_before(a, b),
        }
    }
}
