// A millisecond of a day of one of the years 2000 to 2399.
ghost use Rattle.std.specs.Prelude.{◌≡◌, T};
ghost use Rattle.keys.specs.Dates.{valid_stamp};

pub mod make;

#[derive(Clone, Copy, PartialEq, Eq, PartialOrd, Ord)]
pub struct Stamp {
    year: u16,
    day: u16,
    millisecond: u32,
    ghost ok: { T (valid_stamp year day millisecond) },
}

impl Stamp {
    pub fn year(&self) -> u64
        ensures { result ≡ self.now.year }
    {
        u64::from(self.year)
    }

    pub fn day(&self) -> u64
        ensures { result ≡ self.now.day }
    {
        u64::from(self.day)
    }

    pub fn millisecond(&self) -> u64
        ensures { result ≡ self.now.millisecond }
    {
        u64::from(self.millisecond)
    }
}
