//! Opens the queues of a configuration, and the ports and workers at their ends.
ghost use Rattle.std.specs.Prelude.{◌≡◌, ◌≤◌, length, [], true, false, All, IfOk};
ghost use Rattle.ddr_timing.specs.declared.units.TheConstants.{CLOCK_STOP};
ghost use Rattle.ddr_workers.specs.Lanes.{AreLanes, AreEach, AreFrom, lists};
ghost use Rattle.ddr_workers.specs.Open.{IsOpened, IsOpenedAt, IsNewWorker, KeepTraces, IsPortRow, IsPortOf, IsWorkerRow, IsWorkerTake};

use crate::completions::{DonePut, DoneTake};
use crate::error::OpenError;
use crate::port::Port;
use crate::requests::{RequestPut, RequestTake};
use crate::rows::{add_to_each, rows_with_room};
use crate::worker::Worker;
use crate::{completions, requests};
use ddr_ports::port::PortCore;
use ddr_timing::config::Config;
use std::alloc::Global;

/// The sides of the request queues: of each port its put sides, and of each channel its take side.
fn request_lanes(
    alloc: Global,
    config: &Config,
) -> Result<(Vec<Vec<RequestPut>>, Vec<RequestTake>), OpenError>
    ensures { IfOk result (λ lanes. AreLanes (λ channel. record { geometry = config.now.geometry; channel = channel }) config.now.limits.intake config.now.limits.ports config.now.geometry.channels (lists lanes.0.items) lanes.1.items) }
{
    let mut rows = rows_with_room(
        alloc,
        config.limits.ports as usize,
        config.geometry.channels as usize,
    )?;
    let mut takes = Vec::new(alloc);
    for channel in 0..config.geometry.channels {
        let (puts, take) = requests::open(alloc, config, channel)?;
        add_to_each(&mut rows, puts);
        takes.push(take)?;
    }
    Ok((rows, takes))
}

/// The sides of the completion queues: of each channel its put sides, and of each port its take side.
fn completion_lanes(
    alloc: Global,
    config: &Config,
) -> Result<(Vec<Vec<DonePut>>, Vec<DoneTake>), OpenError>
    ensures { IfOk result (λ lanes. AreLanes (λ port. record { geometry = config.now.geometry; port = port }) config.now.limits.window config.now.geometry.channels config.now.limits.ports (lists lanes.0.items) lanes.1.items) }
{
    let mut rows = rows_with_room(
        alloc,
        config.geometry.channels as usize,
        config.limits.ports as usize,
    )?;
    let mut takes = Vec::new(alloc);
    for port in 0..config.limits.ports {
        let (puts, take) = completions::open(alloc, config, port)?;
        add_to_each(&mut rows, puts);
        takes.push(take)?;
    }
    Ok((rows, takes))
}

/// The ports, each over its row of put sides and its take side.
fn open_ports(
    alloc: Global,
    config: &Config,
    id: u64,
    mut rows: Vec<Vec<RequestPut>>,
    mut takes: Vec<DoneTake>,
) -> Result<Vec<Port>, OpenError>
    requires rows { length rows.items ≡ config.now.limits.ports }
    requires takes { length takes.items ≡ config.now.limits.ports }
    requires row { AreFrom (IsPortRow config.now.geometry) 0 (lists rows.items) }
    requires take { All (λ take. take.took ≡ []) takes.items }
    ensures { IfOk result (λ ports. AreEach (IsPortOf config.now id) 0 (lists rows.items) takes.items ports.items) }
{
    let mut ports = Vec::new(alloc);
    for number in 0..config.limits.ports {
        let row = rows.remove(0);
        let take = takes.remove(0);
        let core = PortCore::open(alloc, config, number, 0)?;
        ports.push(Port::new(config, id, number, core, row, take))?;
    }
    Ok(ports)
}

/// The workers, each over its row of put sides and its take side. Their channels' clocks begin with this cycle, and `traces` says whether
/// their traces are kept.
fn open_workers(
    alloc: Global,
    config: &Config,
    first: u64,
    traces: bool,
    id: u64,
    mut rows: Vec<Vec<DonePut>>,
    mut takes: Vec<RequestTake>,
) -> Result<Vec<Worker>, OpenError>
    requires rows { length rows.items ≡ config.now.geometry.channels }
    requires takes { length takes.items ≡ config.now.geometry.channels }
    requires first { first ≤ CLOCK_STOP }
    requires row { AreFrom (IsWorkerRow config.now.geometry config.now.limits.ports) 0 (lists rows.items) }
    requires take { AreFrom (IsWorkerTake config.now.geometry config.now.limits.ports) 0 takes.items }
    ensures new { IfOk result (λ workers. AreEach (IsNewWorker config.now first id) 0 (lists rows.items) takes.items workers.items) }
    ensures traces { IfOk result (λ workers. KeepTraces traces workers.items) }
{
    let mut workers = Vec::new(alloc);
    for number in 0..config.geometry.channels {
        let row = rows.remove(0);
        let take = takes.remove(0);
        let worker = Worker::open(alloc, config, first, traces, id, number, take, row)?;
        workers.push(worker)?;
    }
    Ok(workers)
}

/// Opens the ports and the workers of a configuration, with a queue from every port to each channel and one from every
/// channel to each port. No thread is started: the caller moves them into threads. What was opened by one call can be
/// told by `id`. The numbers and the clocks begin at 0.
pub fn open(alloc: Global, config: &Config, id: u64) -> Result<(Vec<Port>, Vec<Worker>), OpenError>
    ensures opened { IfOk result (λ both. IsOpened config.now id both.0.items both.1.items) }
    ensures traces { IfOk result (λ both. KeepTraces true both.1.items) }
{
    open_as(alloc, config, id, 0, true)
}

/// Opens ports and workers as `open` does, and the channels keep no traces, so that a run of any length takes no more memory
/// than their rows. All that is promised of a system is promised of this one; `close` has no traces to give then, and tells the first
/// fault of each, as a judge has it that was told each command.
pub fn open_without_traces(
    alloc: Global,
    config: &Config,
    id: u64,
) -> Result<(Vec<Port>, Vec<Worker>), OpenError>
    ensures opened { IfOk result (λ both. IsOpened config.now id both.0.items both.1.items) }
    ensures traces { IfOk result (λ both. KeepTraces false both.1.items) }
{
    open_as(alloc, config, id, 0, false)
}

/// Opens ports and workers as `open` does, and the clocks begin with this cycle.
pub fn open_at(
    alloc: Global,
    config: &Config,
    id: u64,
    first_cycle: u64,
) -> Result<(Vec<Port>, Vec<Worker>), OpenError>
    requires { first_cycle ≤ CLOCK_STOP }
    ensures opened { IfOk result (λ both. IsOpenedAt config.now first_cycle id both.0.items both.1.items) }
    ensures traces { IfOk result (λ both. KeepTraces true both.1.items) }
{
    open_as(alloc, config, id, first_cycle, true)
}

/// Opens ports and workers as `open_at` does, with the traces of the channels or without.
fn open_as(
    alloc: Global,
    config: &Config,
    id: u64,
    first_cycle: u64,
    traces: bool,
) -> Result<(Vec<Port>, Vec<Worker>), OpenError>
    requires { first_cycle ≤ CLOCK_STOP }
    ensures opened { IfOk result (λ both. IsOpenedAt config.now first_cycle id both.0.items both.1.items) }
    ensures traces { IfOk result (λ both. KeepTraces traces both.1.items) }
{
    let (port_rows, worker_takes) = request_lanes(alloc, config)?;
    let (worker_rows, port_takes) = completion_lanes(alloc, config)?;
    let ports = open_ports(alloc, config, id, port_rows, port_takes)?;
    let workers = open_workers(
        alloc,
        config,
        first_cycle,
        traces,
        id,
        worker_rows,
        worker_takes,
    )?;
    Ok((ports, workers))
}

#[cfg(test)]
mod tests;
