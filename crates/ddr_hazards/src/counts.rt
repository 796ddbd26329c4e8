//! A number for each kind of request.
ghost use Rattle.std.specs.Prelude.{◌≡◌, ◌+◌, ◌<◌, ◌≤◌, ◌^◌};
ghost use Rattle.ddr_address_map.specs.declared.request.Kind.{Kind};
ghost use Rattle.ddr_hazards.specs.Counts.{count_of, one_of};

use ddr_address_map::request::Kind;

/// A number of reads and a number of writes.
#[derive(Clone, Copy)]
pub(crate) struct KindCounts {
    pub reads: u32,
    pub writes: u32,
}

impl KindCounts {
    /// The number of one kind.
    pub fn of(self, kind: Kind) -> u32
        ensures { result ≡ count_of self kind }
    {
        match kind {
            Kind::Read => self.reads,
            Kind::Write => self.writes,
        }
    }

    /// Counts one more of the kind.
    pub fn add(&mut self, kind: Kind)
        requires { count_of self.old kind + 1 < 2 ^ 32 }
        ensures { (k : Kind) → count_of self.new k ≡ count_of self.old k + one_of k kind }
    {
        match kind {
            Kind::Read => self.reads += 1,
            Kind::Write => self.writes += 1,
        }
    }

    /// Counts one less of the kind.
    pub fn subtract(&mut self, kind: Kind)
        requires { 1 ≤ count_of self.old kind }
        ensures { (k : Kind) → count_of self.new k + one_of k kind ≡ count_of self.old k }
    {
        match kind {
            Kind::Read => self.reads -= 1,
            Kind::Write => self.writes -= 1,
        }
    }
}
