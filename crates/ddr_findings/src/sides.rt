//! The two sides of the comparison of each oddity.
//!
//! `table` and `oddity` stand below, and `warnings` compares the sides. A comparison is made where all keys that it speaks of
//! are there and in range.
ghost use Rattle.std.specs.Prelude.{◌≡◌, ◌≤◌, ◌+◌, ◌*◌, ◌∷◌, [], ℕ, IfSome, IsTrue, true};
ghost use Rattle.toml.specs.View.{table_view};
ghost use Rattle.ddr_latency.specs.Latency.{alone};
ghost use Rattle.ddr_timing.specs.Keys.{domain_of};
ghost use Rattle.ddr_timing.specs.Tables.{FitsIn, number_of, takes_number};
ghost use Rattle.ddr_findings.specs.Sound.{are_sound, is_sound};
ghost use Rattle.ddr_findings.specs.Warnings.{clock_keys, clocks_in, has_two_ranks, service_in, service_of, sides, sides_of};

use crate::oddity::Oddity;
use crate::table::{are_sound, number};
use crate::warning::Sides;
use ddr_latency::clocks::Clocks;
use ddr_timing::key::Key;
use ddr_timing::units::BURST_CLOCKS;
use toml::Table;

/// The two sides of an oddity's comparison, where all keys that it speaks of are there and in range.
pub(crate) fn sides(table: &Table, oddity: Oddity) -> Option<Sides>
    ensures { result ≡ sides_of (table_view table.now) oddity }
{
    match oddity {
        Oddity::RowCycle => row_cycle(table),
        Oddity::RowTime => row_time(table),
        Oddity::GroupOverCycle => group_over_cycle(table),
        Oddity::FourActivates => four_activates(table),
        Oddity::GroupWriteToRead => group_write_to_read(table),
        Oddity::ReadToWrite => read_to_write(table),
        Oddity::WriteLatency => write_latency(table),
        Oddity::WriteRecovery => write_recovery(table),
        Oddity::BurstGap => burst_gap(table),
        Oddity::RankGap => rank_gap(table),
        Oddity::RefreshCycle => refresh_cycle(table),
        Oddity::RefreshShare => refresh_share(table),
        Oddity::RefreshRow => refreshed_request(table),
        Oddity::CapMiss => cap_miss(table),
        Oddity::CapRefresh => cap_refresh(table),
        Oddity::CapService => cap_service(table),
        Oddity::MarkGap => mark_gap(table),
        Oddity::HighMark => high_mark(table),
        Oddity::IntakeSize => intake_size(table),
        Oddity::ReadsSize => reads_size(table),
        Oddity::WritesSize => writes_size(table),
        Oddity::DoneSize => done_size(table),
        Oddity::DoneShort => done_short(table),
        Oddity::WindowSize => window_size(table),
    }
}

fn row_cycle(table: &Table) -> Option<Sides>
    ensures { result ≡ sides_of (table_view table.now) Oddity.RowCycle }
{
    let rc = number(table, Key::Rc)?;
    let ras = number(table, Key::Ras)?;
    let rp = number(table, Key::Rp)?;
    Some(Sides {
        left: rc,
        right: ras + rp,
    })
}

fn row_time(table: &Table) -> Option<Sides>
    ensures { result ≡ sides_of (table_view table.now) Oddity.RowTime }
{
    let ras = number(table, Key::Ras)?;
    let rcd = number(table, Key::Rcd)?;
    let rtp = number(table, Key::Rtp)?;
    Some(Sides {
        left: ras,
        right: rcd + rtp,
    })
}

fn group_over_cycle(table: &Table) -> Option<Sides>
    ensures { result ≡ sides_of (table_view table.now) Oddity.GroupOverCycle }
{
    let rc = number(table, Key::Rc)?;
    let rrd_l = number(table, Key::RrdL)?;
    Some(Sides {
        left: rc,
        right: rrd_l,
    })
}

fn four_activates(table: &Table) -> Option<Sides>
    ensures { result ≡ sides_of (table_view table.now) Oddity.FourActivates }
{
    let faw = number(table, Key::Faw)?;
    let rrd_s = number(table, Key::RrdS)?;
    Some(Sides {
        left: faw,
        right: 4 * rrd_s,
    })
}

fn group_write_to_read(table: &Table) -> Option<Sides>
    ensures { result ≡ sides_of (table_view table.now) Oddity.GroupWriteToRead }
{
    let wtr_l = number(table, Key::WtrL)?;
    let wtr_s = number(table, Key::WtrS)?;
    Some(Sides {
        left: wtr_l,
        right: wtr_s,
    })
}

fn read_to_write(table: &Table) -> Option<Sides>
    ensures { result ≡ sides_of (table_view table.now) Oddity.ReadToWrite }
{
    let rtw = number(table, Key::Rtw)?;
    let cwl = number(table, Key::Cwl)?;
    let cl = number(table, Key::Cl)?;
    Some(Sides {
        left: rtw + cwl,
        right: cl + 6,
    })
}

fn write_latency(table: &Table) -> Option<Sides>
    ensures { result ≡ sides_of (table_view table.now) Oddity.WriteLatency }
{
    let cl = number(table, Key::Cl)?;
    let cwl = number(table, Key::Cwl)?;
    Some(Sides {
        left: cl + 1,
        right: cwl,
    })
}

fn write_recovery(table: &Table) -> Option<Sides>
    ensures { result ≡ sides_of (table_view table.now) Oddity.WriteRecovery }
{
    let wr = number(table, Key::Wr)?;
    let rtp = number(table, Key::Rtp)?;
    Some(Sides {
        left: wr,
        right: rtp,
    })
}

fn burst_gap(table: &Table) -> Option<Sides>
    ensures { result ≡ sides_of (table_view table.now) Oddity.BurstGap }
{
    let ccd_s = number(table, Key::CcdS)?;
    Some(Sides {
        left: BURST_CLOCKS,
        right: ccd_s,
    })
}

fn rank_gap(table: &Table) -> Option<Sides>
    ensures { result ≡ sides_of (table_view table.now) Oddity.RankGap }
{
    let rtrs = number(table, Key::Rtrs)?;
    Some(Sides {
        left: BURST_CLOCKS,
        right: rtrs,
    })
}

fn refresh_cycle(table: &Table) -> Option<Sides>
    ensures { result ≡ sides_of (table_view table.now) Oddity.RefreshCycle }
{
    let rfc = number(table, Key::Rfc)?;
    let rc = number(table, Key::Rc)?;
    Some(Sides {
        left: rfc,
        right: rc,
    })
}

fn refresh_share(table: &Table) -> Option<Sides>
    ensures { result ≡ sides_of (table_view table.now) Oddity.RefreshShare }
{
    let refi = number(table, Key::Refi)?;
    let rfc = number(table, Key::Rfc)?;
    Some(Sides {
        left: refi,
        right: 4 * rfc,
    })
}

fn refreshed_request(table: &Table) -> Option<Sides>
    ensures { result ≡ sides_of (table_view table.now) Oddity.RefreshRow }
{
    if !has_two_ranks(table) {
        return interval_sides(table, 1);
    }
    let rtrs = number(table, Key::Rtrs)?;
    interval_sides(table, rtrs as u16)
}

/// Whether the table says that there are two ranks.
fn has_two_ranks(table: &Table) -> bool
    ensures { result ≡ has_two_ranks (table_view table.now) }
{
    match number(table, Key::Ranks) {
        Some(ranks) => ranks == 2,
        None => false,
    }
}

/// The keys of the clocks of a request that meets a refresh, and of the refresh interval.
static CLOCK_KEYS: [Key; 16] = [
    Key::Refi,
    Key::Cl,
    Key::Cwl,
    Key::Rcd,
    Key::Rp,
    Key::Ras,
    Key::Rc,
    Key::RrdL,
    Key::Faw,
    Key::CcdL,
    Key::WtrS,
    Key::WtrL,
    Key::Wr,
    Key::Rtp,
    Key::Rtw,
    Key::Rfc,
];

/// The refresh interval and the clocks of a request that meets a refresh, with this switch between ranks.
fn interval_sides(table: &Table, switch: u16) -> Option<Sides>
    ensures { let t = table_view table.now in result ≡ sides t clock_keys (number_of t Key.Refi) (alone (clocks_in (number_of t) switch)) }
{
    if !are_sound(table, &CLOCK_KEYS) {
        return None;
    }
    Some(Sides {
        left: u32::from(clock(table, Key::Refi)),
        right: clocks(table, switch).alone(),
    })
}

/// The distances of the table, where all of them are sound.
fn clocks(table: &Table, switch: u16) -> Clocks
    ensures { are_sound (table_view table.now) clock_keys ≡ true → result ≡ clocks_in (number_of (table_view table.now)) switch }
{
    Clocks {
        cl: clock(table, Key::Cl),
        cwl: clock(table, Key::Cwl),
        rcd: clock(table, Key::Rcd),
        rp: clock(table, Key::Rp),
        ras: clock(table, Key::Ras),
        rc: clock(table, Key::Rc),
        rrd_l: clock(table, Key::RrdL),
        faw: clock(table, Key::Faw),
        ccd_l: clock(table, Key::CcdL),
        wtr_s: clock(table, Key::WtrS),
        wtr_l: clock(table, Key::WtrL),
        wr: clock(table, Key::Wr),
        rtp: clock(table, Key::Rtp),
        rtw: clock(table, Key::Rtw),
        rfc: clock(table, Key::Rfc),
        switch,
    }
}

/// The number of clocks at a key, where it is sound.
fn clock(table: &Table, key: Key) -> u16
    requires number { IsTrue (takes_number (domain_of key)) }
    requires range { (n : ℕ) → FitsIn (domain_of key) n → n ≤ 65535 }
    ensures { is_sound (table_view table.now) key ≡ true → result ≡ number_of (table_view table.now) key }
{
    match number(table, key) {
        Some(clocks) => clocks as u16,
        None => 1,
    }
}

fn cap_miss(table: &Table) -> Option<Sides>
    ensures { result ≡ sides_of (table_view table.now) Oddity.CapMiss }
{
    let cap = number(table, Key::Cap)?;
    let rp = number(table, Key::Rp)?;
    let rcd = number(table, Key::Rcd)?;
    Some(Sides {
        left: cap,
        right: rp + rcd + 1,
    })
}

fn cap_refresh(table: &Table) -> Option<Sides>
    ensures { result ≡ sides_of (table_view table.now) Oddity.CapRefresh }
{
    let cap = number(table, Key::Cap)?;
    let rfc = number(table, Key::Rfc)?;
    Some(Sides {
        left: cap,
        right: rfc + 1,
    })
}

fn cap_service(table: &Table) -> Option<Sides>
    ensures { result ≡ sides_of (table_view table.now) Oddity.CapService }
{
    match service_clocks(table) {
        Some(service) => cap_sides(table, service),
        None => None,
    }
}

/// The cap, and the clocks of all requests that may be pending, each of which is served alone in so many.
fn cap_sides(table: &Table, service: u32) -> Option<Sides>
    requires { service ≤ 262144 }
    ensures { let t = table_view table.now in
        result ≡ sides t (Key.Cap ∷ Key.Reads ∷ Key.Writes ∷ []) (number_of t Key.Cap) ((number_of t Key.Reads + number_of t Key.Writes) * service) }
{
    let cap = number(table, Key::Cap)?;
    let reads = number(table, Key::Reads)?;
    let writes = number(table, Key::Writes)?;
    Some(Sides {
        left: cap,
        right: (reads + writes) * service,
    })
}

/// The clocks of a request that is served alone.
fn service_clocks(table: &Table) -> Option<u32>
    ensures exact { result ≡ service_in (table_view table.now) }
    ensures bound { IfSome result (λ clocks. clocks ≤ 262144) }
{
    if has_two_ranks(table) {
        let rtrs = number(table, Key::Rtrs)?;
        return service_with(table, rtrs as u16);
    }
    service_with(table, 1)
}

/// The same with this switch between ranks.
fn service_with(table: &Table, switch: u16) -> Option<u32>
    ensures exact { result ≡ service_of (table_view table.now) clock_keys switch }
    ensures bound { IfSome result (λ clocks. clocks ≤ 262144) }
{
    if are_sound(table, &CLOCK_KEYS) {
        return Some(clocks(table, switch).service());
    }
    None
}

fn mark_gap(table: &Table) -> Option<Sides>
    ensures { result ≡ sides_of (table_view table.now) Oddity.MarkGap }
{
    let high = number(table, Key::High)?;
    let low = number(table, Key::Low)?;
    Some(Sides {
        left: high,
        right: low + 2,
    })
}

fn high_mark(table: &Table) -> Option<Sides>
    ensures { result ≡ sides_of (table_view table.now) Oddity.HighMark }
{
    let ports = number(table, Key::Ports)?;
    let window = number(table, Key::Window)?;
    let high = number(table, Key::High)?;
    Some(Sides {
        left: ports * window,
        right: high,
    })
}

fn intake_size(table: &Table) -> Option<Sides>
    ensures { result ≡ sides_of (table_view table.now) Oddity.IntakeSize }
{
    let ports = number(table, Key::Ports)?;
    let window = number(table, Key::Window)?;
    let intake = number(table, Key::Intake)?;
    Some(Sides {
        left: ports * window,
        right: intake,
    })
}

fn reads_size(table: &Table) -> Option<Sides>
    ensures { result ≡ sides_of (table_view table.now) Oddity.ReadsSize }
{
    let ports = number(table, Key::Ports)?;
    let window = number(table, Key::Window)?;
    let reads = number(table, Key::Reads)?;
    Some(Sides {
        left: ports * window,
        right: reads,
    })
}

fn writes_size(table: &Table) -> Option<Sides>
    ensures { result ≡ sides_of (table_view table.now) Oddity.WritesSize }
{
    let ports = number(table, Key::Ports)?;
    let window = number(table, Key::Window)?;
    let writes = number(table, Key::Writes)?;
    Some(Sides {
        left: ports * window,
        right: writes,
    })
}

fn done_size(table: &Table) -> Option<Sides>
    ensures { result ≡ sides_of (table_view table.now) Oddity.DoneSize }
{
    let ports = number(table, Key::Ports)?;
    let window = number(table, Key::Window)?;
    let done = number(table, Key::Done)?;
    Some(Sides {
        left: ports * window,
        right: done,
    })
}

fn done_short(table: &Table) -> Option<Sides>
    ensures { result ≡ sides_of (table_view table.now) Oddity.DoneShort }
{
    let done = number(table, Key::Done)?;
    let ccd_s = number(table, Key::CcdS)?;
    let cl = number(table, Key::Cl)?;
    Some(Sides {
        left: done * ccd_s,
        right: cl + BURST_CLOCKS,
    })
}

fn window_size(table: &Table) -> Option<Sides>
    ensures { result ≡ sides_of (table_view table.now) Oddity.WindowSize }
{
    let channels = number(table, Key::Channels)?;
    let intake = number(table, Key::Intake)?;
    let reads = number(table, Key::Reads)?;
    let writes = number(table, Key::Writes)?;
    let done = number(table, Key::Done)?;
    let window = number(table, Key::Window)?;
    Some(Sides {
        left: channels * (intake + reads + writes + done),
        right: window,
    })
}
