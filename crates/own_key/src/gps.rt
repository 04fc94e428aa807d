// A second of GPS time: the week since 6 January 1980, and the second of the week. GPS time has no leap seconds.
ghost use Rattle.std.specs.Prelude.{◌≡◌, T};
ghost use Rattle.own_key.specs.Weeks.{instant, valid_gps};

pub mod make;

#[derive(Clone, Copy, PartialEq, Eq)]
pub struct GpsTime {
    week: u16,
    second: u32,
    ghost ok: { T (valid_gps week second) },
}

impl GpsTime {
    pub fn week(&self) -> u64
        ensures { result ≡ self.now.week }
    {
        u64::from(self.week)
    }

    pub fn second(&self) -> u64
        ensures { result ≡ self.now.second }
    {
        u64::from(self.second)
    }

    // The seconds since the first week began.
    pub fn instant(&self) -> u64
        ensures { result ≡ instant self.now.week self.now.second }
    {
        self.week() * 604_800 + self.second()
    }
}
