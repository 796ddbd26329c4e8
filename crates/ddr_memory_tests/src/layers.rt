//! The calls below the core, and each call that opens something.
ghost use Rattle.std.specs.Prelude.{◌≡◌, ◌<◌, IfOk, IsTrue, None, OnOk};
ghost use Rattle.ddr_row_array.specs.Changes.{SameShape};
ghost use Rattle.ddr_row_array.specs.Rows.{bank_count, is_stored, open_row, row_count};

use super::Met;
use crate::entries::refresh;
use ddr_channel::channel::{Channel, CycleError};
use ddr_legality::legality::Legality;
use ddr_ports::port::PortCore;
use ddr_rank::rank::Rank;
use ddr_reorder::reorder::Reorder;
use ddr_row_array::row_array::RowArray;
use ddr_samples::sample::{sample, two_ranks};
use ddr_timing::config::Config;
use ddr_timing::error::ConfigError;
use ddr_timing::profile::PROFILE_S;
use ddr_timing::units::LINE_BYTES;
use ddr_trace::command::Entry;
use ddr_workers::completions::{DonePut, DoneTake};
use ddr_workers::requests::{RequestPut, RequestTake};
use ddr_workers::{OpenError, completions, requests};
use ddr_world::world::World;
use std::alloc::{AllocError, Global};

/// Makes a call, and once more where memory was refused; gives its answer, and says whether it was.
pub fn again<T: Drop, E: Drop, F: Fn() -> Result<T, E>>(call: F) -> Result<(T, bool), &'static str>
    requires { F.IsAlwaysCallable call }
{
    match call() {
        Ok(answer) => Ok((answer, false)),
        Err(_) => match call() {
            Ok(answer) => Ok((answer, true)),
            Err(_) => Err("a call made again"),
        },
    }
}

/// Makes a call, and once more where memory was refused, which it says.
fn is_refused<T: Drop, E: Drop, F: Fn() -> Result<T, E>>(call: F) -> Met
    requires { F.IsAlwaysCallable call }
{
    let (_, refused) = again(call)?;
    Ok(refused)
}

/// Reads profile S, and gives its last value; anything but want of memory is answered as no value.
fn read_config(alloc: Global) -> Result<Option<u32>, AllocError> {
    match Config::read(alloc, PROFILE_S) {
        Ok(config) => Ok(Some(config.timing.postpone)),
        Err(ConfigError::OutOfMemory) => Err(AllocError),
        Err(_) => Ok(None),
    }
}

/// `Config::read` of profile S.
pub fn config(alloc: Global) -> Met {
    let (read, refused) = match read_config(alloc) {
        Ok(read) => (Ok(read), false),
        Err(_) => (read_config(alloc), true),
    };
    if read == Ok(Some(2)) {
        Ok(refused)
    } else {
        Err("profile S")
    }
}

/// What is opened below the channel.
pub fn open(alloc: Global) -> Met {
    let rank = is_refused(|| Rank::open(alloc, &sample()))?;
    let legality = is_refused(|| Legality::open(alloc, &sample(), 0))?;
    let rows = is_refused(|| RowArray::open(alloc, &sample()))?;
    let reorder = is_refused(|| Reorder::open(alloc, 4, 0))?;
    let port = is_refused(|| PortCore::open(alloc, &sample(), 0, 0))?;
    Ok(rank || legality || rows || reorder || port)
}

/// What is opened of a configuration with two ranks.
pub fn open_ranks(alloc: Global) -> Met {
    let legality = is_refused(|| Legality::open(alloc, &two_ranks(), 0))?;
    let rows = is_refused(|| RowArray::open(alloc, &two_ranks()))?;
    let channel = is_refused(|| Channel::open(alloc, &two_ranks(), 0))?;
    let core = is_refused(|| World::open_at(alloc, &two_ranks(), 7, 9))?;
    let system = is_refused(|| ddr_workers::open_at(alloc, &two_ranks(), 7, 7))?;
    Ok(legality || rows || channel || core || system)
}

/// `Legality::reserve_entry` of a trace that has no room yet.
pub fn entry(alloc: Global) -> Met {
    let (mut legality, opened) = again(|| Legality::open(alloc, &sample(), 0))?;
    if legality.reserve_entry().is_ok() {
        return Ok(opened);
    }
    if !legality.entries().is_empty() || legality.now() != 0 {
        return Err("what a refused entry leaves");
    }
    match legality.reserve_entry() {
        Ok(()) => Ok(true),
        Err(_) => Err("an entry reserved again"),
    }
}

/// The queue to channel 0.
fn open_requests(alloc: Global) -> Result<(Vec<RequestPut>, RequestTake), OpenError> {
    requests::open(alloc, &sample(), 0)
}

/// The queue to port 0.
fn open_completions(alloc: Global) -> Result<(Vec<DonePut>, DoneTake), OpenError> {
    completions::open(alloc, &sample(), 0)
}

/// What is opened above: a channel, a core, queues, and ports with their workers.
pub fn open_above(alloc: Global) -> Met {
    let channel = is_refused(|| Channel::open(alloc, &sample(), 0))?;
    let core = is_refused(|| World::open(alloc, &sample()))?;
    let intake = is_refused(|| open_requests(alloc))?;
    let window = is_refused(|| open_completions(alloc))?;
    let system = is_refused(|| ddr_workers::open(alloc, &sample(), 7))?;
    Ok(channel || core || intake || window || system)
}

/// The line that is written.
const LINE: [u8; LINE_BYTES] = [0x5a; LINE_BYTES];

/// All lines of bank 0 and of bank 5, as far as they are open.
fn lines_of(rows: &RowArray) -> [[u8; LINE_BYTES]; 16] {
    let mut lines = [[0xee; LINE_BYTES]; 16];
    for (place, line) in lines.iter_mut().enumerate() {
        let place = place as u32;
        rows.read(5 * (place / 8), place % 8, line);
    }
    lines
}

/// Ensures a row, and once more where memory was refused and no line changed.
fn ensure_again(rows: &mut RowArray, bank: u32, row: u32) -> Met
    requires bank_in { bank < bank_count rows.old }
    requires row_in { row < row_count rows.old }
    ensures stored { OnOk result (IsTrue (is_stored rows.new bank row)) }
    ensures opened { (b : _) → open_row rows.new b ≡ open_row rows.old b }
    ensures shape { SameShape rows.old rows.new }
{
    let before = lines_of(rows);
    if rows.ensure(bank, row).is_ok() {
        return Ok(false);
    }
    if lines_of(rows) != before {
        return Err("no line changes");
    }
    match rows.ensure(bank, row) {
        Ok(()) => Ok(true),
        Err(_) => Err("a row ensured again"),
    }
}

/// Opens a row array, once more where memory is refused.
fn open_rows(alloc: Global) -> Result<RowArray, &'static str>
    ensures banks { IfOk result (λ rows. bank_count rows ≡ 16) }
    ensures rows { IfOk result (λ rows. row_count rows ≡ 16) }
    ensures idle { IfOk result (λ rows. (b : _) → open_row rows b ≡ None) }
{
    match RowArray::open(alloc, &sample()) {
        Ok(rows) => Ok(rows),
        Err(_) => match RowArray::open(alloc, &sample()) {
            Ok(rows) => Ok(rows),
            Err(_) => Err("a row array opened again"),
        },
    }
}

/// Writes a line, where it is open.
fn write_line(rows: &mut RowArray, bank: u32, line: u32) -> bool
    ensures { SameShape rows.old rows.new }
{
    rows.write(bank, line, u64::MAX, &LINE)
}

/// `RowArray::ensure` of four rows, while two others are open and written.
pub fn ensure(alloc: Global) -> Met {
    let mut rows = open_rows(alloc)?;
    let first = ensure_again(&mut rows, 0, 0)?;
    rows.activate(0, 0);
    let second = ensure_again(&mut rows, 5, 3)?;
    rows.activate(5, 3);
    let is_written = write_line(&mut rows, 0, 1);
    let is_other_written = write_line(&mut rows, 5, 7);
    let third = ensure_again(&mut rows, 0, 1)?;
    let fourth = ensure_again(&mut rows, 15, 15)?;
    let lines = lines_of(&rows);
    let are_there = lines[1] == LINE && lines[15] == LINE && lines[2] == [0; LINE_BYTES];
    if is_written && is_other_written && are_there {
        Ok(first || second || third || fourth)
    } else {
        Err("the lines that were written")
    }
}

/// Makes a cycle, and once more where memory was refused and nothing changed.
fn cycle_again(channel: &mut Channel) -> Met {
    let before = (channel.now(), channel.trace().len());
    match channel.cycle() {
        Ok(()) => Ok(false),
        Err(CycleError::OutOfMemory) => {
            if (channel.now(), channel.trace().len()) == before && channel.cycle().is_ok() {
                Ok(true)
            } else {
                Err("a cycle made again")
            }
        }
        Err(CycleError::ClockSpent) => Err("a clock that is spent"),
    }
}

/// Makes so many cycles.
fn make_cycles(channel: &mut Channel, count: u32) -> Met {
    let mut refused = false;
    for _ in 0..count {
        if cycle_again(channel)? {
            refused = true;
        }
    }
    Ok(refused)
}

/// The trace of an idle channel with one rank: a refresh falls due at each multiple of REFI, which is 200.
fn refreshed() -> [Entry; 4] {
    [
        refresh(200, 0),
        refresh(400, 0),
        refresh(600, 0),
        refresh(800, 0),
    ]
}

/// That of one with two ranks: there is one command in a cycle, and rank 0 is first.
fn both_refreshed() -> [Entry; 8] {
    [
        refresh(200, 0),
        refresh(201, 1),
        refresh(400, 0),
        refresh(401, 1),
        refresh(600, 0),
        refresh(601, 1),
        refresh(800, 0),
        refresh(801, 1),
    ]
}

/// Makes the cycles of an idle channel until each rank was refreshed four times. Memory is wanted for the first entry and for
/// the fifth: a debt that a refused cycle leaves too great or too small moves the refreshes behind it.
fn refreshes(mut channel: Channel, trace: &[Entry]) -> Met {
    let refused = make_cycles(&mut channel, 803)?;
    if channel.now() == 803 && channel.trace() == trace {
        Ok(refused)
    } else {
        Err("a refresh")
    }
}

/// `Channel::cycle` of an idle channel with one rank, and of one with two.
pub fn cycle(alloc: Global) -> Met {
    let (one, _) = again(|| Channel::open(alloc, &sample(), 0))?;
    let first = refreshes(one, &refreshed())?;
    let (two, _) = again(|| Channel::open(alloc, &two_ranks(), 0))?;
    let second = refreshes(two, &both_refreshed())?;
    Ok(first || second)
}
