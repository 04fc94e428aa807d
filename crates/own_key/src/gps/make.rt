// Making GPS times, and GPS times as keys.
ghost use Rattle.std.specs.Prelude.{◌≡◌};
ghost use Rattle.own_key.specs.GpsLaws;
ghost use Rattle.own_key.specs.GpsTimes.{gps_kind, gps_of};
ghost use Rattle.own_key.specs.Weeks.{valid_gps};

use super::GpsTime;
use keys::Key;
use refusal::Refusal;

fn is_gps(week: u64, second: u64) -> bool
    ensures { result ≡ valid_gps week second }
{
    week < 8192 && second < 604_800
}

impl GpsTime {
    // The time of a week and a second of it, whatever the two numbers are.
    pub fn new(week: u64, second: u64) -> Result<Self, Refusal>
        ensures { result ≡ gps_of week second }
    {
        if !is_gps(week, second) {
            return Err(Refusal::NotAKey);
        }
        // Each fits, by the test.
        Ok(GpsTime {
            week: week as u16,
            second: second as u32,
        })
    }
}

impl Key for GpsTime {
    ghost kind = { gps_kind };

    ghost ordered = { GpsLaws.ordered };

    ghost formed = { GpsLaws.formed };

    fn code() -> u64 {
        3
    }

    fn pack(&self) -> (u64, u64) {
        (self.week(), self.second())
    }

    fn unpack(words: (u64, u64)) -> Result<GpsTime, Refusal> {
        GpsTime::new(words.0, words.1)
    }

    fn before(&self, other: &GpsTime) -> bool {
        self.instant() < other.instant()
    }
}
