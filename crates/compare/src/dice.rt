// Numbers that look random, the same ones from the same start.
ghost use Rattle.std.specs.Prelude.{◌<◌};

#[derive(Clone, Copy)]
pub struct Dice {
    state: u64,
}

impl Dice {
    pub fn new(start: u64) -> Self {
        Dice { state: start }
    }

    // The next number, by SplitMix64.
    pub fn roll(&mut self) -> u64 {
        self.state = self.state.wrapping_add(0x9e37_79b9_7f4a_7c15);
        let z = (self.state ^ (self.state >> 30)).wrapping_mul(0xbf58_476d_1ce4_e5b9);
        let z = (z ^ (z >> 27)).wrapping_mul(0x94d0_49bb_1331_11eb);
        z ^ (z >> 31)
    }

    // A number below the bound; 0 where there is none.
    pub fn below(&mut self, bound: u64) -> u64
        ensures { 0 < bound → result < bound }
    {
        self.roll() % bound.max(1)
    }

    // The same for an index.
    pub fn index(&mut self, bound: usize) -> usize
        ensures { 0 < bound → result < bound }
    {
        self.below(bound as u64) as usize
    }

    // True once in so many times.
    pub fn once_in(&mut self, times: u64) -> bool {
        self.below(times) == 0
    }
}
