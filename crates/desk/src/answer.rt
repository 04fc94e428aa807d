// What a line is answered.
ghost use Rattle.std.specs.Prelude.{◌≡◌};
ghost use Rattle.leaves.specs.Opening.{plain};
ghost use Rattle.desk.specs.declared.answer.Trouble.TheVariants.{Refused, Halted, Wrong as IsWrong};

use index::record::NodeRecord;
use leaves::leaf::Pair;
use leaves::open::Fault;
use refusal::Refusal;
use script::wrong::Wrong;
use tree::logbook::carry::Halt;
use tree::logbook::turn::Removed;

// How a logbook stands.
#[derive(Clone, Copy)]
pub enum Standing {
    Blank,
    Open,
    Dark,
}

// What a granted call tells.
#[derive(Clone, Copy)]
pub enum Told {
    Nothing,
    Number(u64),
    Steps(u64),
    Removed(Removed),
    Endless,
    State(Standing),
    Pair(Pair),
    Node(NodeRecord),
}

// Why there is no such answer.
#[derive(Clone, Copy)]
pub enum Trouble {
    Refused(Fault),
    // a put, change or remove that was not granted
    Halted(Halt),
    Wrong(Wrong),
}

impl From<Fault> for Trouble {
    ghost from_gives = { λ fault t. t ≡ Refused fault };

    fn from(fault: Fault) -> Self {
        Trouble::Refused(fault)
    }
}

impl From<Refusal> for Trouble {
    ghost from_gives = { λ refusal t. t ≡ Refused (plain refusal) };

    fn from(refusal: Refusal) -> Self {
        Trouble::Refused(refusal.into())
    }
}

impl From<Halt> for Trouble {
    ghost from_gives = { λ halt t. t ≡ Halted halt };

    fn from(halt: Halt) -> Self {
        Trouble::Halted(halt)
    }
}

impl From<Wrong> for Trouble {
    ghost from_gives = { λ wrong t. t ≡ IsWrong wrong };

    fn from(wrong: Wrong) -> Self {
        Trouble::Wrong(wrong)
    }
}
