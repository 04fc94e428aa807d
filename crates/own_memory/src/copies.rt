// One word in two copies.
ghost use Rattle.std.specs.Prelude.{◌≡◌, if◌then◌else◌};
ghost use Rattle.own_memory.specs.Words.{copy_at, firm_of, live_of};

#[derive(Clone, Copy)]
pub enum Side {
    First,
    Second,
}

// Two copies of a word: one is live and one is firm, which may be the same.
#[derive(Clone, Copy)]
pub struct Copies {
    first: u64,
    second: u64,
    live: Side,
    firm: Side,
}

impl Copies {
    // A word that is live and firm.
    pub fn new(word: u64) -> Self
        ensures live { live_of result ≡ word }
        ensures firm { firm_of result ≡ word }
    {
        Copies {
            first: word,
            second: 0,
            live: Side::First,
            firm: Side::First,
        }
    }

    fn copy(&self, side: Side) -> u64
        ensures { result ≡ copy_at self.now side }
    {
        match side {
            Side::First => self.first,
            Side::Second => self.second,
        }
    }

    pub fn live(&self) -> u64
        ensures { result ≡ live_of self.now }
    {
        self.copy(self.live)
    }

    pub fn firm(&self) -> u64
        ensures { result ≡ firm_of self.now }
    {
        self.copy(self.firm)
    }

    // Another live word: it goes to the copy that is not firm.
    pub fn stored(self, word: u64) -> Self
        ensures live { live_of result ≡ word }
        ensures firm { firm_of result ≡ firm_of self }
    {
        match self.firm {
            Side::First => Copies {
                second: word,
                live: Side::Second,
                ..self
            },
            Side::Second => Copies {
                first: word,
                live: Side::First,
                ..self
            },
        }
    }

    // The live copy is firm from here on.
    pub fn flushed(self) -> Self
        ensures live { live_of result ≡ live_of self }
        ensures firm { firm_of result ≡ live_of self }
    {
        Copies {
            firm: self.live,
            ..self
        }
    }

    // One of the two stands for both: the live copy, or the firm one.
    pub fn settled(self, keeps_live: bool) -> Self
        ensures live { live_of result ≡ (if keeps_live then live_of self else firm_of self) }
        ensures firm { firm_of result ≡ (if keeps_live then live_of self else firm_of self) }
    {
        let side = if keeps_live { self.live } else { self.firm };
        Copies {
            live: side,
            firm: side,
            ..self
        }
    }
}
