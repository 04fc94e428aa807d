// A port of a clock that has an identity of eight octets.
ghost use Rattle.std.specs.Prelude.{◌≡◌, T};
ghost use Rattle.keys.specs.Identities.{valid_port};

pub mod make;

#[derive(Clone, Copy, PartialEq, Eq, PartialOrd, Ord)]
pub struct Port {
    identity: u64,
    number: u16,
    ghost ok: { T (valid_port identity number) },
}

impl Port {
    pub fn identity(&self) -> u64
        ensures { result ≡ self.now.identity }
    {
        self.identity
    }

    pub fn number(&self) -> u64
        ensures { result ≡ self.now.number }
    {
        u64::from(self.number)
    }
}
