//! Numbers that look like chance, the same ones in every run.
ghost use Rattle.std.specs.Prelude.{◌<◌};

use ddr_timing::units::LINE_BYTES;

/// A linear congruential generator of 64 bits, with the constants of Knuth's MMIX.
#[derive(Drop)]
pub struct Chance(u64);

impl Chance {
    pub fn new(seed: u64) -> Chance {
        Chance(seed)
    }

    pub fn next(&mut self) -> u64 {
        self.0 = self
            .0
            .wrapping_mul(6364136223846793005)
            .wrapping_add(1442695040888963407);
        self.0 ^ (self.0 >> 32)
    }

    /// A number below this one.
    pub fn below(&mut self, bound: u64) -> u64
        requires { 0 < bound }
        ensures { result < bound }
    {
        (self.next() >> 16) % bound
    }

    /// A number of 32 bits below this one.
    pub fn pick(&mut self, bound: u32) -> u32
        requires { 0 < bound }
        ensures { result < bound }
    {
        self.below(u64::from(bound)) as u32
    }

    /// One of two truths.
    pub fn coin(&mut self) -> bool {
        self.below(2) == 0
    }

    /// The bytes of a line.
    pub fn line(&mut self) -> [u8; LINE_BYTES] {
        let mut line = [0; LINE_BYTES];
        for byte in line.iter_mut() {
            *byte = self.below(256) as u8;
        }
        line
    }
}
