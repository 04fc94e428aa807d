// Making ports, and ports as keys.
ghost use Rattle.std.specs.Prelude.{◌≡◌};
ghost use Rattle.keys.specs.Identities.{valid_port};
ghost use Rattle.keys.specs.Ports.{port_of, port_kind};
ghost use Rattle.std.specs.Int.Digits.{number_from_digits as number_in_base};
ghost use Rattle.keys.specs.PortLaws;

use super::Port;
use crate::Key;
use refusal::Refusal;

fn is_port(identity: u64, number: u64) -> bool
    ensures { result ≡ valid_port identity number }
{
    identity < u64::MAX && number >= 1 && number <= 65_534
}

impl Port {
    // The port of a clock's identity and a port number, whatever the two numbers are.
    pub fn new(identity: u64, number: u64) -> Result<Self, Refusal>
        ensures { result ≡ port_of identity number }
    {
        if !is_port(identity, number) {
            return Err(Refusal::NotAKey);
        }
        // The number fits, by the test.
        Ok(Port {
            identity,
            number: number as u16,
        })
    }

    // The same from the octets of the identity, the most significant first.
    pub fn from_octets(octets: [u8; 8], number: u64) -> Result<Self, Refusal>
        ensures { result ≡ port_of (number_in_base 256 octets) number }
    {
        Port::new(u64::from_be_bytes(octets), number)
    }
}

impl Key for Port {
    ghost kind = { port_kind };

    ghost ordered = { PortLaws.ordered };

    ghost formed = { PortLaws.formed };

    fn code() -> u64 {
        2
    }

    fn pack(&self) -> (u64, u64) {
        (self.identity(), self.number())
    }

    fn unpack(words: (u64, u64)) -> Result<Port, Refusal> {
        Port::new(words.0, words.1)
    }

    fn before(&self, other: &Port) -> bool {
        self < other
    }
}
