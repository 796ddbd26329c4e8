//! The clocks that a request takes which no older one stands before, and whether a refresh interval has so many.
ghost use Rattle.std.specs.Prelude.{◌≡◌, ◌≤◌};
ghost use Rattle.ddr_latency.specs.Latency.{alone, clocks_of, column, leaves_time, recovery, refresh, row, service};

use ddr_timing::config::Config;
use ddr_timing::units::BURST_CLOCKS;

/// The distances by which a request may have to wait, in DRAM clock cycles. Each is the key of its name.
#[derive(Clone, Copy, Debug, PartialEq, Eq)]
pub struct Clocks {
    pub cl: u16,
    pub cwl: u16,
    pub rcd: u16,
    pub rp: u16,
    pub ras: u16,
    pub rc: u16,
    pub rrd_l: u16,
    pub faw: u16,
    pub ccd_l: u16,
    pub wtr_s: u16,
    pub wtr_l: u16,
    pub wr: u16,
    pub rtp: u16,
    pub rtw: u16,
    pub rfc: u16,
    /// From the end of a burst to a read or write that waits for it: `rtrs`, and 1 where there is one rank.
    pub switch: u16,
}

impl Clocks {
    /// The distances of a configuration.
    pub fn of(config: &Config) -> Clocks
        ensures { result ≡ clocks_of config.now }
    {
        let timing = config.timing;
        Clocks {
            cl: timing.cl as u16,
            cwl: timing.cwl as u16,
            rcd: timing.rcd as u16,
            rp: timing.rp as u16,
            ras: timing.ras as u16,
            rc: timing.rc as u16,
            rrd_l: timing.rrd_l as u16,
            faw: timing.faw as u16,
            ccd_l: timing.ccd_l as u16,
            wtr_s: timing.wtr_s as u16,
            wtr_l: timing.wtr_l as u16,
            wr: timing.wr as u16,
            rtp: timing.rtp as u16,
            rtw: timing.rtw as u16,
            rfc: timing.rfc as u16,
            switch: if config.geometry.ranks == 2 {
                timing.rtrs as u16
            } else {
                1
            },
        }
    }

    /// Behind which an ACT, a read or a write of a bank lets it be precharged.
    fn recovery(&self) -> u32
        ensures exact { result ≡ recovery self.now }
        ensures bound { result ≤ 131074 }
    {
        let written = u32::from(self.cwl) + BURST_CLOCKS + u32::from(self.wr);
        u32::from(self.ras).max(written).max(u32::from(self.rtp))
    }

    /// Behind which a rank that has to be refreshed has its REF, its PREA included.
    fn refresh(&self) -> u32
        ensures exact { result ≡ refresh self.now }
        ensures bound { result ≤ 196610 }
    {
        let closed = self.recovery() + u32::from(self.rp);
        closed.max(u32::from(self.rfc)) + 1
    }

    /// Behind which a bank lets a row be opened, its PRE included.
    fn row(&self) -> u32
        ensures exact { result ≡ row self.now }
        ensures bound { result ≤ 196609 }
    {
        let closed = self.recovery() + u32::from(self.rp);
        let others = u32::from(self.rrd_l).max(u32::from(self.faw));
        closed.max(u32::from(self.rc)).max(others)
    }

    /// Behind which an open row lets a line be read or written.
    fn column(&self) -> u32
        ensures exact { result ≡ column self.now }
        ensures bound { result ≤ 131074 }
    {
        let kind = u32::from(self.ccd_l).max(u32::from(self.rtw));
        let turn = u32::from(self.wtr_s).max(u32::from(self.wtr_l));
        let written = u32::from(self.cwl) + BURST_CLOCKS + turn;
        let burst = u32::from(self.cl).max(u32::from(self.cwl)) + BURST_CLOCKS;
        kind.max(written.max(burst + u32::from(self.switch)))
    }

    /// The clocks from the last command for another request to the column command of one that is served alone, where no refresh comes
    /// between: its bank is precharged, its row is opened, and read or written.
    pub fn service(&self) -> u32
        ensures exact { result ≡ service self.now }
        ensures bound { result ≤ 262144 }
    {
        let opened = self.row() + u32::from(self.rcd);
        opened.max(self.column())
    }

    /// The clocks from the cycle in which a refresh makes its rank overdue to the column command of a request that meets it, where
    /// no older request is pending.
    pub fn alone(&self) -> u32
        ensures exact { result ≡ alone self.now }
        ensures bound { result ≤ 327680 }
    {
        let refreshed = self.refresh() + u32::from(self.rfc);
        let opened = refreshed.max(self.row()) + u32::from(self.rcd);
        opened.max(self.column())
    }
}

/// Whether each refresh interval leaves time to serve a request. Where it does, with one rank each request is served (a law of
/// `ddr_deadline`; with two its premise is `leaves_room` of `bound`, a few clocks more); where it doesn't, one may wait for ever, since
/// each refresh may close its row before it is read. (As a threshold on REFI it is exact: of the configurations one clock below it, some
/// starve a request. That is tried, and not proved.)
pub fn leaves_time(config: &Config) -> bool
    ensures { result ≡ leaves_time config.now }
{
    Clocks::of(config).alone() <= config.timing.refi
}
