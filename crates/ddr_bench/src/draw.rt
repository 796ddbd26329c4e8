//! Numbers by chance, the same ones for each seed: the generator splitmix64 (Steele, Lea and Flood, 2014).
//!
//! Nothing stands below; `scripts` and `traces` draw from it.
ghost use Rattle.std.specs.Prelude.{◌<◌};

/// Where the numbers are.
#[derive(Drop)]
pub(crate) struct Draw {
    state: u64,
}

impl Draw {
    /// The numbers of a seed.
    pub fn of_seed(seed: u64) -> Draw {
        Draw { state: seed }
    }

    /// The next number.
    pub fn next(&mut self) -> u64 {
        self.state = self.state.wrapping_add(0x9e37_79b9_7f4a_7c15);
        let mut mixed = self.state;
        mixed = (mixed ^ (mixed >> 30)).wrapping_mul(0xbf58_476d_1ce4_e5b9);
        mixed = (mixed ^ (mixed >> 27)).wrapping_mul(0x94d0_49bb_1331_11eb);
        mixed ^ (mixed >> 31)
    }

    /// The next number, below `end`.
    pub fn below(&mut self, end: u64) -> u64
        requires { 0 < end }
        ensures { result < end }
    {
        self.next() % end
    }
}
