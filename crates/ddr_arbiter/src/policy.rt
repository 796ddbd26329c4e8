//! The marks by which the scheduler goes.
ghost use Rattle.std.specs.Prelude.{◌≡◌};
ghost use Rattle.ddr_arbiter.specs.Mode.{next_mode};

/// The age cap and the marks of the write drain: this project's choice.
#[derive(Clone, Copy, Debug)]
pub struct Policy {
    /// The age, in clocks, from which the oldest request is served alone.
    pub cap: u32,
    /// The write drain ends where no more than this many writes are pending.
    pub low: u32,
    /// The write drain begins where at least this many writes are pending.
    pub high: u32,
    /// Whether a row is closed behind the last column command that wants it.
    pub closed: bool,
}

impl Policy {
    /// Whether writes are drained in a cycle, where `drain` says whether they were in the one before, and
    /// `writes` of them are pending.
    pub fn next_mode(&self, drain: bool, writes: u32) -> bool
        ensures { result ≡ next_mode self.now drain writes }
    {
        if drain {
            writes > self.low
        } else {
            writes >= self.high
        }
    }
}
