//! The requests of a stream as a replay takes them: by their cycles as they stand, or counted from the first one's.
//!
//! `ddr_stream` stands below, and `replay` above.
ghost use Rattle.std.specs.Prelude.{◌≡◌, IfErr, IfOk, IfSome, IsErrOf, IsTrue, OnOk, map};
ghost use Rattle.ddr_capture.specs.Feed.{IsWell, left};
ghost use Rattle.ddr_stream.specs.Waiting.{IsAhead, IsSized, IsStreamFault, all_in};
ghost use Rattle.ddr_replay.specs.Taken.{IsTaken, IsTakenFault, first_from, first_of, shifted, shifted_ask};

use crate::order::Order;
use ddr_capture::feed::Feed;
use ddr_stream::ask::Ask;
use ddr_stream::queue::Queue;
use ddr_stream::stream::Stream;
use ddr_text::command::Reading;
use ddr_text::fault::Fault;
use ddr_text::source::Source;
use ddr_timing::config::Config;
use std::alloc::{AllocError, Global};

/// How a stream is taken.
#[derive(Clone, Copy, Debug, PartialEq, Eq)]
pub struct Taking {
    /// How its lines are read.
    pub reading: Reading,
    /// Whether its first cycle, the least of all requests, is taken as cycle 0.
    pub from_first: bool,
    /// In which order the ports submit its requests.
    pub order: Order,
}

/// The requests of a stream, whose lines begin in this feed, as far as of each port the next is known; where they count from the first one,
/// all of them, since any line may have the least cycle. Fails as `first` of `Stream` does.
pub(crate) fn taken_of<R: Source>(
    alloc: Global,
    config: &Config,
    taking: Taking,
    feed: Feed,
    reader: &mut R,
) -> Result<Stream, Fault>
    requires { IsWell feed }
    ensures said { IfOk result (λ stream. IfSome (left feed (R.remaining reader.old)) (λ body. IsTaken config.now taking body (all_in stream (R.remaining reader.new)))) }
    ensures ahead { IfOk result IsAhead }
    ensures sized { IfOk result IsSized }
    ensures config { IfOk result (λ stream. stream.config ≡ config.now) }
    ensures new { IfOk result (λ stream. stream.taken ≡ 0) }
    ensures fault { IfErr result (λ fault. IfSome (left feed (R.remaining reader.old)) (IsTakenFault config.now taking fault)) }
    ensures kind { IfErr result IsStreamFault }
    ensures sure { IsErrOf result Fault.Read → IsTrue R.may_fail }
{
    let mut stream = Stream::open(alloc, config, taking.reading, feed)?;
    if !taking.from_first {
        stream.read_ahead(reader)?;
        return Ok(stream);
    }
    stream.read_all(reader)?;
    shift(alloc, &mut stream)?;
    Ok(stream)
}

/// Counts the cycles of the requests that wait from the first one's.
fn shift(alloc: Global, stream: &mut Stream) -> Result<(), AllocError>
    ensures shifted { OnOk result (stream.new ≡ record stream.old { queues = shifted (first_of stream.old.queues) stream.old.queues }) }
    ensures sized { OnOk result (IsSized stream.new) }
{
    let first = first_of(stream.queues());
    let queues = shifted(alloc, stream.queues(), first)?;
    stream.put(queues);
    Ok(())
}

/// The least cycle of a request, the greatest that there is where there is none.
fn first_of(queues: &[Queue]) -> u64
    ensures { result ≡ first_of queues.now }
{
    let mut first = u64::MAX;
    for queue in queues {
        first = first_from(first, queue.asks());
    }
    first
}

/// The least of this cycle and of those of these requests.
fn first_from(first: u64, asks: &[Ask]) -> u64
    ensures { result ≡ first_from first asks.now }
{
    let mut least = first;
    for ask in asks {
        least = least.min(ask.at);
    }
    least
}

/// The same requests, each so many cycles earlier.
fn shifted(alloc: Global, queues: &[Queue], by: u64) -> Result<Vec<Queue>, AllocError>
    ensures { IfOk result (λ v. v.items ≡ shifted by queues.now) }
{
    let mut all = Vec::new(alloc);
    for queue in queues {
        all.push(shifted_queue(alloc, queue.asks(), by)?)?;
    }
    Ok(all)
}

/// Those of a port.
fn shifted_queue(alloc: Global, asks: &[Ask], by: u64) -> Result<Queue, AllocError>
    ensures { IfOk result (λ queue. queue ≡ map (shifted_ask by) asks.now) }
{
    let mut queue = Queue::new(alloc);
    for ask in asks {
        queue.push(shifted_ask(*ask, by))?;
    }
    Ok(queue)
}

fn shifted_ask(ask: Ask, by: u64) -> Ask
    ensures { result ≡ shifted_ask by ask }
{
    Ask {
        at: ask.at.saturating_sub(by),
        ..ask
    }
}
