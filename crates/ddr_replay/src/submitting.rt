//! What a port submits before a round.
//!
//! `ddr_stream`, `ledger` and `ddr_world` stand below, and `replaying` above.
ghost use Rattle.std.specs.Prelude.{◌≡◌, ◌≢◌, ◌+◌, ◌<◌, ℕ, OnOk, IfErr, IfOk, IsErrOf, IsTrue};
ghost use Rattle.ddr_rounds.specs.Rounds.{outstanding};
ghost use Rattle.ddr_world.specs.Kept.{state_of};
ghost use Rattle.ddr_world.specs.Promise.{trace_at};
ghost use Rattle.ddr_stream.specs.Waiting.{IsSaidFault, IsSized, IsStreamFault, Knows, all_in};
ghost use Rattle.ddr_replay.specs.Ahead.{Carries, IsSubmitted};

use ddr_ledger::ledger::Ledger;
use ddr_ledger::times::Accepted;
use ddr_stream::stream::Stream;
use ddr_text::fault::Fault;
use ddr_text::source::Source;
use ddr_world::event::{Event, Refusal};
use ddr_world::world::World;

/// Lets a port submit its next requests, until one of them has to wait. Its lines are read as far as that takes.
///
/// Tells the cycle until which the port surely waits, as long as only quiet cycles come: 0 where it may have to wait for
/// less, as for a channel's queue. Fails as `first` of `Stream` does.
pub fn submit_from<R: Source>(
    world: &mut World,
    stream: &mut Stream,
    ledger: &mut Ledger,
    reader: &mut R,
    port: u32,
    round: u32,
) -> Result<u64, Fault>
    requires port { port < stream.old.config.limits.ports }
    requires sized { IsSized stream.old }
    ensures submitted { IfOk result (λ until. Carries (λ all next. IsSubmitted port round until (state_of world.old) ledger.old (state_of world.new) ledger.new all next) (all_in stream.old (R.remaining reader.old)) (all_in stream.new (R.remaining reader.new))) }
    ensures knows { OnOk result (Knows stream.new port) }
    ensures others { (q : ℕ) → q ≢ port → Knows stream.old q → Knows stream.new q }
    ensures stream { stream.new.config ≡ stream.old.config }
    ensures sized { IsSized stream.new }
    ensures config { world.new.config ≡ world.old.config }
    ensures keeps { world.new.keeps ≡ world.old.keeps }
    ensures served { ledger.new.served ≡ ledger.old.served }
    ensures traces { (c : ℕ) → trace_at (state_of world.new) c ≡ trace_at (state_of world.old) c }
    ensures count { stream.old.taken + outstanding (state_of world.new) ≡ stream.new.taken + outstanding (state_of world.old) }
    ensures kind { IfErr result IsStreamFault }
    ensures fault { IfErr result (λ fault. IsSaidFault fault (all_in stream.old (R.remaining reader.old))) }
    ensures sure { IsErrOf result Fault.Read → IsTrue R.may_fail }
{
    'asks: while let Some(ask) = stream.first(reader, port)? {
        if ask.at > u64::from(round) {
            return Ok(ask.at);
        }
        match world.step(Event::Submit(port, ask.request())) {
            Ok(_) => {
                stream.pop(port);
                ledger.accept(port, Accepted { ask, round })?;
            }
            Err(Refusal::WindowFull) => {
                ledger.wait(port, Refusal::WindowFull);
                return Ok(u64::MAX);
            }
            Err(cause) => {
                ledger.wait(port, cause);
                return Ok(0);
            }
        }
    }
    Ok(u64::MAX)
}
