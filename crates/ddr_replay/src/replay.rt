//! A replay of a stream of requests: bytes in, statistics, requests or a trace out.
//!
//! `ddr_stream`, `replaying`, `watch`, `telling` and `ddr_text` stand below, and `ddr_tool` above.
ghost use Rattle.std.specs.Prelude.{◌≡◌, ◌⊎◌, [], false, IfErr, IfSome, IsErrOf, IsTrue, OnOk, true};
ghost use Rattle.ddr_capture.specs.Feed.{IsWell, left};
ghost use Rattle.ddr_capture.specs.Front.{ComesFirst};
ghost use Rattle.ddr_replay.specs.Finished.{IsEndFault, IsFinished, IsPartly, IsUnfinished};
ghost use Rattle.ddr_replay.specs.Replays.{HasReplayFault, HasWritten, IsReplayed, IsReported, IsWritten, is_before_rounds, names_no_channel};
ghost use Rattle.ddr_replay.specs.Told.{comes_at_end};
ghost use Rattle.ddr_text.specs.Fault.{is_before_output};
ghost use Rattle.ddr_text.specs.Sink.{write_fault};

use crate::replaying::Replaying;
use crate::taken::{Taking, taken_of};
use crate::telling::ending_of;
use crate::wanted::Wanted;
use crate::watch::Watch;
use ddr_capture::feed::Feed;
use ddr_capture::front::read_config;
use ddr_text::fault::Fault;
use ddr_text::sink::Sink;
use ddr_text::source::Source;
use ddr_text::writing::write_bytes;
use ddr_timing::config::Config;
use ddr_timing::profile::PROFILE_S;
use std::alloc::Global;

/// Reads a stream of requests, replays it, and writes what is to be told of it.
///
/// With `sample` the whole input is the stream, on the sample configuration; else the input is a configuration of either
/// version, a line `---` and the stream. `taking` says how its lines are read, each of which asks for the whole line of the memory that
/// holds an address, whether their cycles count from the first one's, and in which order the ports submit. Before each round every port, in
/// that order, submits its next requests in order while their cycle is at most the rounds made so far and they aren't refused; then comes
/// the round of `sim`; until every request was submitted and its reply released. Then `told` says what is written: statistics as TOML, the
/// requests as CSV, a channel's trace in one of two forms, numbers of the requests as TOML, or those of each interval as CSV.
///
/// The input is read as the replay goes on, and requests and commands are written as they come: a request when its reply is released, a
/// command in its cycle. So memory doesn't grow with how many requests there are. It does by how far one port lags behind another, since of
/// the lines that were read the requests are kept that their ports have not submitted; where cycles count from the first one's; and where
/// the numbers of intervals are asked for.
///
/// Fails as `read_config` of `ddr_capture` does, then as `TraceNoSuch` where there is no channel of that number, then as `ReplayLine` or
/// `ReplayRange` at the first line of the stream that is at fault, or as `InputTooLong` at one behind `MOST_LINES`, then as `ReplayLimit`
/// where more than `MOST_ROUNDS` rounds are needed, or as `ClockSpent`; and as `ReplayStuck` where a refresh interval leaves no time to
/// serve a request, requests wait, and for `STUCK_INTERVALS` of them none was accepted or served. Where the run ends so, what is left of
/// the input is read first, since the fault of a line is told before. `watch` is told now and then how far the rounds have come.
///
/// Where requests or commands are asked for, what was written before a fault stands: it is the beginning of what is told of the run, as far
/// as the rounds came. Else nothing is written before all of it is there, so only `Write` may leave a part of it. Over bytes in memory it
/// never fails as `Read` or as `Write`.
pub fn replay<R: Source, W: Sink, V: Watch>(
    alloc: Global,
    sample: bool,
    taking: Taking,
    told: Wanted,
    reader: &mut R,
    writer: &mut W,
    watch: &mut V,
) -> Result<(), Fault>
    ensures untouched { IfErr result (λ fault. comes_at_end told ≡ true → IsTrue (is_before_output fault) → writer.new ≡ writer.old) }
    ensures unopened { IfErr result (λ fault. IsTrue (is_before_rounds fault) → writer.new ≡ writer.old) }
    ensures stopped { comes_at_end told ≡ true → IsErrOf result Fault.ClockSpent → writer.new ≡ writer.old }
    ensures sure { IsErrOf result Fault.Read → IsTrue R.may_fail }
    ensures taken { IsErrOf result Fault.Write → IsTrue W.may_fail }
    ensures spared { comes_at_end told ≡ true → IsErrOf result Fault.OutOfMemory → W.contents writer.new ≡ W.contents writer.old }
    ensures unmoved { comes_at_end told ≡ true → IsErrOf result Fault.OutOfMemory → IsTrue W.may_fail → writer.new ≡ writer.old }
    ensures begun { IfErr result (λ fault. IfSome (R.remaining reader.old) (λ input.
        HasWritten sample PROFILE_S.now taking told input fault (W.contents writer.old) (W.contents writer.new))) }
    ensures fault { IfErr result (λ fault. IfSome (R.remaining reader.old) (λ input.
        HasReplayFault sample PROFILE_S.now taking told input fault)) }
    ensures first { IfErr result (λ fault. IfSome (R.remaining reader.old) (λ input. ComesFirst sample input fault)) }
    ensures written { OnOk result (IfSome (R.remaining reader.old) (λ input.
        IsReplayed sample PROFILE_S.now taking told input (W.contents writer.old) (W.contents writer.new))) }
{
    let mut feed = Feed::new(alloc);
    let config = read_config(alloc, sample, &mut feed, reader)?;
    replay_body(alloc, &config, taking, told, feed, reader, writer, watch)
}

/// Replays a body, which begins in this feed, and writes what is to be told of it. Fails where the channel isn't there, the body is at
/// fault, or its replay comes to no end or can go on no more.
fn replay_body<R: Source, W: Sink, V: Watch>(
    alloc: Global,
    config: &Config,
    taking: Taking,
    told: Wanted,
    feed: Feed,
    reader: &mut R,
    writer: &mut W,
    watch: &mut V,
) -> Result<(), Fault>
    requires { IsWell feed }
    ensures said { IfSome (left feed (R.remaining reader.old)) (λ body. IsReported config.now taking told body (W.contents writer.old) (W.contents writer.new) result) }
    ensures begun { IfErr result (λ fault. IfSome (left feed (R.remaining reader.old)) (λ body. IsWritten config.now taking told body fault (W.contents writer.old) (W.contents writer.new))) }
    ensures sure { IsErrOf result Fault.Read → IsTrue R.may_fail }
    ensures taken { IsErrOf result Fault.Write → IsTrue W.may_fail }
    ensures idle { IfErr result (λ fault. comes_at_end told ≡ true → (writer.new ≡ writer.old) ⊎ (fault ≡ write_fault W.may_fail)) }
    ensures unopened { IfErr result (λ fault. IsTrue (is_before_rounds fault) → writer.new ≡ writer.old) }
    ensures spared { comes_at_end told ≡ true → IsErrOf result Fault.OutOfMemory → W.contents writer.new ≡ W.contents writer.old }
{
    if names_no_channel(config, told) {
        return Err(Fault::TraceNoSuch);
    }
    let stream = taken_of(alloc, config, taking, feed, reader)?;
    let mut replaying = Replaying::open(alloc, config, told, taking.order, stream)?;
    let result = match replaying.run(reader, writer, watch) {
        Ok(()) => finish(alloc, config, &mut replaying, writer),
        Err(fault) => Err(fault),
    };
    drop(replaying);
    result
}

/// Writes what is left to be told of a replay that has come to its end. Fails as `ending_of`, and as `Sink` does.
fn finish<W: Sink>(
    alloc: Global,
    config: &Config,
    replaying: &mut Replaying,
    writer: &mut W,
) -> Result<(), Fault>
    requires config { replaying.old.config ≡ config.now }
    requires channel { names_no_channel config.now replaying.old.wanted ≡ false }
    ensures finished { OnOk result (IsFinished config.now replaying.old (W.contents writer.old) (W.contents writer.new)) }
    ensures fault { IfErr result (λ fault. IsUnfinished config.now replaying.old (write_fault W.may_fail) fault) }
    ensures begun { IfErr result (λ fault. IsPartly replaying.old.text fault (W.contents writer.old) (W.contents writer.new)) }
    ensures kind { IfErr result IsEndFault }
    ensures idle { IfErr result (λ fault. (writer.new ≡ writer.old) ⊎ (fault ≡ write_fault W.may_fail)) }
    ensures spared { replaying.old.text ≡ [] → IsErrOf result Fault.OutOfMemory → W.contents writer.new ≡ W.contents writer.old }
{
    let ending = ending_of(alloc, config, replaying.requests(), replaying)?;
    replaying.write(writer)?;
    write_bytes(writer, ending.as_slice())
}

/// Whether the commands are asked for of a channel that isn't there.
fn names_no_channel(config: &Config, told: Wanted) -> bool
    ensures { result ≡ names_no_channel config.now told }
{
    match told {
        Wanted::Trace { channel } | Wanted::Drampower { channel } => {
            channel >= config.geometry.channels
        }
        _ => false,
    }
}
