//! In how many clocks of a channel requests were pending and no command went out, by what the next command waited for.
//!
//! `ddr_trace` stands below, which names the rules, and `stalls` and `causes_text` above.
ghost use Rattle.std.specs.Prelude.{◌≡◌};
ghost use Rattle.ddr_ledger.specs.Causes.{and_clocks, capped, charged, clocks_of, place_of};

use ddr_trace::rule::Rule;

/// How many rules there are.
pub(crate) const RULES: usize = Rule::ALL.len();

/// So many clocks for each cause. Each number stops at the last one that a `u64` holds.
#[derive(Clone, Copy)]
pub struct Causes {
    /// The oldest request had reached the cap, so that no other was a candidate.
    pub cap: u64,
    /// No rule held the command one clock earlier: its request came just then, or wasn't one of those that the scheduler served.
    pub choice: u64,
    /// Of each rule, in the order of `Rule::ALL`: it held the command one clock earlier.
    pub rules: [u64; RULES],
}

impl Causes {
    /// Before the first clock.
    pub const NONE: Causes = Causes {
        cap: 0,
        choice: 0,
        rules: [0; RULES],
    };

    /// Counts so many clocks more, for which this rule held the command, or none did.
    pub(crate) fn charge(&mut self, held: Option<Rule>, clocks: u64)
        ensures { self.new ≡ charged held clocks self.old }
    {
        match held {
            Some(rule) => {
                let place = place_of(rule);
                self.rules[place] = self.rules[place].saturating_add(clocks);
            }
            None => self.choice = self.choice.saturating_add(clocks),
        }
    }

    /// Counts so many clocks more, in which the oldest request had reached the cap.
    pub(crate) fn cap(&mut self, clocks: u64)
        ensures { self.new ≡ capped clocks self.old }
    {
        self.cap = self.cap.saturating_add(clocks);
    }

    /// The clocks of all causes together.
    pub fn clocks(&self) -> u64
        ensures { result ≡ clocks_of self.now }
    {
        let mut all = self.cap.saturating_add(self.choice);
        for clocks in self.rules {
            all = and_clocks(all, clocks);
        }
        all
    }
}

fn and_clocks(all: u64, clocks: u64) -> u64
    ensures { result ≡ and_clocks all clocks }
{
    all.saturating_add(clocks)
}

/// Where a rule stands among all, from 0.
fn place_of(rule: Rule) -> usize
    ensures { result ≡ place_of rule }
{
    rule as usize
}
