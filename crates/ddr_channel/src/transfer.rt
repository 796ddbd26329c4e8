//! How a column command moves its data between a request's line and the open row.
ghost use Rattle.std.specs.Prelude.{◌≡◌, ℕ, ◌<◌, length, IfSome};
ghost use Rattle.std.specs.Option.{option_map};
ghost use Rattle.ddr_timing.specs.declared.units.TheConstants.{CLOCK_STOP};
ghost use Rattle.ddr_row_array.specs.Changes.{SameShape};
ghost use Rattle.ddr_row_array.specs.Rows.{open_row, is_stored};
ghost use Rattle.ddr_arbiter.specs.Laws.{column_place_of};
ghost use Rattle.ddr_channel.specs.Cycle.{completion_at, cells_after, served_by};
ghost use Rattle.ddr_channel.specs.Kept.{line_cells};
ghost use Rattle.ddr_channel.specs.Memory.{LineAddress, line_of};
ghost use Rattle.ddr_channel.specs.Served.{Holds, IsOpenAt, MayServe};
ghost use Rattle.ddr_channel.specs.State.{State};
ghost use Rattle.ddr_channel.specs.Told.{column_request, served_as};

use crate::issued::Served;
use crate::queue::push;
use circular_buffer::HeapCircularBuffer;
use ddr_address_map::request::{Done, Kind, Req};
use ddr_arbiter::choice::Choice;
use ddr_hazards::pending::Pending;
use ddr_row_array::row_array::RowArray;
use ddr_timing::bank::BankId;
use ddr_timing::config::Config;
use ddr_timing::units::BURST_CLOCKS;

/// Serves the request, whose row is open, in this cycle: a read copies the burst into its line, a write puts
/// its enabled bytes over the burst's. Gives the completion, which is due once the data have passed.
fn transfer(rows: &mut RowArray, config: &Config, now: u64, request: Req) -> Done
    requires clock { now < CLOCK_STOP }
    requires opened { IsOpenAt config.now.geometry rows.old request.place }
    ensures done { result ≡ completion_at config.now now (line_cells config.now.geometry rows.old (line_of request.place)) request }
    ensures bytes { (address : LineAddress) → line_cells config.now.geometry rows.new address
        ≡ cells_after request (line_cells config.now.geometry rows.old) address }
    ensures opened { (b : ℕ) → open_row rows.new b ≡ open_row rows.old b }
    ensures stored { (b r : ℕ) → is_stored rows.new b r ≡ is_stored rows.old b r }
    ensures shape { SameShape rows.old rows.new }
{
    let Req {
        port,
        number,
        echo,
        place,
        mask,
        mut line,
    } = request;
    let id = BankId {
        rank: place.rank,
        group: place.group,
        bank: place.bank,
    };
    let bank = id.number(&config.geometry);
    let latency = match echo.kind {
        Kind::Read => {
            rows.read(bank, place.line, &mut *line);
            config.timing.cl
        }
        Kind::Write => {
            rows.write(bank, place.line, mask, &*line);
            config.timing.cwl
        }
    };
    Done {
        port,
        number,
        echo,
        issued: now,
        due: now + u64::from(latency + BURST_CLOCKS),
        line,
    }
}

/// Serves the request whose column command was chosen, if one was, and tells of it: it goes from the pending ones into
/// flight.
pub(crate) fn serve(
    config: &Config,
    now: u64,
    choice: Choice,
    pending: &mut Pending,
    rows: &mut RowArray,
    flight: &mut HeapCircularBuffer<Done>,
) -> Option<Served>
    requires clock { now < CLOCK_STOP }
    requires may { MayServe config.now.geometry choice pending.old.waiting rows.old }
    requires room { IfSome (column_place_of choice) (λ _. length flight.old.items < flight.old.capacity) }
    ensures holds { (s : State) → s.config ≡ config.now → s.now ≡ now → Holds s pending.old.waiting flight.old.items rows.old
        → Holds (served_by choice s) pending.new.waiting flight.new.items rows.new }
    ensures told { result ≡ option_map (served_as config.now now) (column_request pending.old.waiting choice) }
    ensures limits { (pending.new.read_limit ≡ pending.old.read_limit) × (pending.new.write_limit ≡ pending.old.write_limit) }
    ensures capacity { flight.new.capacity ≡ flight.old.capacity }
    ensures opened { (b : ℕ) → open_row rows.new b ≡ open_row rows.old b }
    ensures stored { (b r : ℕ) → is_stored rows.new b r ≡ is_stored rows.old b r }
    ensures shape { SameShape rows.old rows.new }
{
    let place = match choice {
        Choice::Column { place } | Choice::ColumnAuto { place } => place,
        _ => return None,
    };
    let (_, admitted) = pending.get(place)?;
    let request = pending.remove(place)?;
    let done = transfer(rows, config, now, request);
    let served = Served {
        port: done.port,
        number: done.number,
        echo: done.echo,
        admitted,
        due: done.due,
    };
    push(flight, done);
    Some(served)
}
