// The calls that change a book.
ghost use Rattle.std.specs.Prelude.{◌≡◌};
ghost use Rattle.plans.specs.Deeds.{call_of, key_of, may_split};

// A call with its key, as the key's two words, and its reading.
#[derive(Clone, Copy, PartialEq, Eq, Debug)]
pub enum Deed {
    Put { key: (u64, u64), reading: u64 },
    Change { key: (u64, u64), reading: u64 },
    Remove { key: (u64, u64) },
}

// Which of the three calls it is.
#[derive(Clone, Copy, PartialEq, Eq, Debug)]
pub enum Call {
    Put,
    Change,
    Remove,
}

impl Deed {
    pub fn key(self) -> (u64, u64)
        ensures { result ≡ key_of self }
    {
        match self {
            Deed::Put { key, .. } | Deed::Change { key, .. } | Deed::Remove { key } => key,
        }
    }

    pub fn call(self) -> Call
        ensures { result ≡ call_of self }
    {
        match self {
            Deed::Put { .. } => Call::Put,
            Deed::Change { .. } => Call::Change,
            Deed::Remove { .. } => Call::Remove,
        }
    }
}

impl Call {
    // A remove never splits a leaf.
    pub fn may_split(self) -> bool
        ensures { result ≡ may_split self }
    {
        self != Call::Remove
    }
}
