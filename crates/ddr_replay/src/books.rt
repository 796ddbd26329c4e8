//! What is noted of a replay: the statistics of its commands, and the ledger of its requests.
//!
//! `ledger`, `ddr_counting` and `ddr_rounds` stand below, and `replaying` above.
ghost use Rattle.std.specs.Prelude.{◌≡◌};
ghost use Rattle.ddr_replay.specs.Books.{with_issued, with_newest};

use ddr_channel::issued::Issued;
use ddr_counting::noting::Noting;
use ddr_ledger::ledger::Ledger;
use ddr_rounds::told::Told;
use ddr_rounds::watcher::Watcher;
use ddr_trace::command::Entry;

/// The books of a replay. It watches the core's rounds: of each read or write that is issued it notes how it found its bank, of each
/// command what it comes to and what it waited for, and of the channel that is asked for it keeps the newest command.
#[derive(Drop)]
pub(crate) struct Books {
    pub noting: Noting,
    pub ledger: Ledger,
    /// The channel whose commands are asked for, if they are, and its newest one, if that was not told yet.
    pub watched: Option<u32>,
    pub newest: Option<Entry>,
}

impl Watcher for Books {
    ghost use Rattle.ddr_replay.specs.Books.{heard};

    ghost hears = { heard };

    #[inline]
    fn hear(&mut self, told: Told) {
        if let Told::Issued { channel, issued } = told {
            self.find(channel, &issued);
            self.ledger.issue(channel, &issued.entry);
            self.watch(channel, &issued.entry);
        }
        self.noting.hear(told);
    }
}

impl Books {
    /// Notes how the request that a command serves, if it serves one, finds its bank.
    #[inline]
    fn find(&mut self, channel: u32, issued: &Issued)
        ensures { self.new ≡ with_issued channel issued.now self.old }
    {
        if let Some(served) = issued.served {
            let command = &issued.entry.command;
            let found = self.noting.finding_at(channel, command);
            self.ledger.find(served.port, served.number, command, found);
        }
    }

    /// Keeps a command, if it is one of the channel that is asked for.
    #[inline]
    fn watch(&mut self, channel: u32, entry: &Entry)
        ensures { self.new ≡ with_newest channel entry.now self.old }
    {
        if let Some(watched) = self.watched {
            if watched == channel {
                self.newest = Some(*entry);
            }
        }
    }
}
