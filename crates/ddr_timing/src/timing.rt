//! The clock counts of DDR4 timing.
ghost use Rattle.std.specs.Prelude.{◌≤◌, ◌+◌, max};
ghost use Rattle.ddr_timing.specs.declared.units.TheConstants.{BURST_CLOCKS};

/// The timing of a rank, in DRAM clock cycles (JESD79-4, "AC timing parameters"; RTW, and the least
/// value that it must have, are this project's choice).
///
/// Additive latency and parity latency are 0, so the read latency is CL and the write latency CWL.
#[derive(Clone, Copy, Debug)]
pub struct Timing {
    /// CAS latency: clocks from a read command to its first data.
    pub cl: u32,
    /// CAS write latency: clocks from a write command to its first data.
    pub cwl: u32,
    /// From ACT to a read or write of the same bank.
    pub rcd: u32,
    /// From a precharge to ACT of the same bank, or to REF.
    pub rp: u32,
    /// From ACT to a precharge of the same bank.
    pub ras: u32,
    /// From ACT to ACT of the same bank.
    pub rc: u32,
    /// From ACT to ACT of another bank group.
    pub rrd_s: u32,
    /// From ACT to ACT of another bank in the same group.
    pub rrd_l: u32,
    /// From ACT to the fourth ACT after it.
    pub faw: u32,
    /// From a column command to the next of its kind in another group.
    pub ccd_s: u32,
    /// From a column command to the next of its kind in the same group.
    pub ccd_l: u32,
    /// From the end of write data to a read in another group.
    pub wtr_s: u32,
    /// From the end of write data to a read in the same group.
    pub wtr_l: u32,
    /// Write recovery: from the end of write data to a precharge of the same bank.
    pub wr: u32,
    /// From a read to a precharge of the same bank.
    pub rtp: u32,
    /// From a read to a write.
    pub rtw: u32,
    /// From REF to any command.
    pub rfc: u32,
    /// The average interval at which REF falls due.
    pub refi: u32,
    /// How many REFs may stand postponed while requests are pending.
    pub postpone: u32,
    /// Between the bursts of two ranks on the data bus (this project's choice).
    pub rtrs: u32,
    ghost cl_range: { (1 ≤ cl) × (cl ≤ 65535) },
    ghost cwl_range: { (1 ≤ cwl) × (cwl ≤ 65535) },
    ghost rcd_range: { (1 ≤ rcd) × (rcd ≤ 65535) },
    ghost rp_range: { (1 ≤ rp) × (rp ≤ 65535) },
    ghost ras_range: { (1 ≤ ras) × (ras ≤ 65535) },
    ghost rc_range: { (1 ≤ rc) × (rc ≤ 65535) },
    ghost rrd_s_range: { (1 ≤ rrd_s) × (rrd_s ≤ 65535) },
    ghost rrd_l_range: { (1 ≤ rrd_l) × (rrd_l ≤ 65535) },
    ghost faw_range: { (1 ≤ faw) × (faw ≤ 65535) },
    ghost ccd_s_range: { (1 ≤ ccd_s) × (ccd_s ≤ 65535) },
    ghost ccd_l_range: { (1 ≤ ccd_l) × (ccd_l ≤ 65535) },
    ghost wtr_s_range: { (1 ≤ wtr_s) × (wtr_s ≤ 65535) },
    ghost wtr_l_range: { (1 ≤ wtr_l) × (wtr_l ≤ 65535) },
    ghost wr_range: { (1 ≤ wr) × (wr ≤ 65535) },
    ghost rtp_range: { (1 ≤ rtp) × (rtp ≤ 65535) },
    ghost rtw_range: { (1 ≤ rtw) × (rtw ≤ 65535) },
    ghost rfc_range: { (1 ≤ rfc) × (rfc ≤ 65535) },
    ghost refi_range: { (1 ≤ refi) × (refi ≤ 65535) },
    ghost postpone_range: { postpone ≤ 7 },
    ghost rtrs_range: { (1 ≤ rtrs) × (rtrs ≤ 65535) },
    ghost bursts_apart: { BURST_CLOCKS ≤ ccd_s },
    ghost same_group_slower: { ccd_s ≤ ccd_l },
    ghost same_group_activates_slower: { rrd_s ≤ rrd_l },
    ghost bus_turns: { (BURST_CLOCKS ≤ rtw) × (cl + BURST_CLOCKS ≤ rtw + cwl) },
    ghost refresh_fits: { max (max (max ras (cwl + BURST_CLOCKS + wr)) rtp + rp) rfc + 4 ≤ refi },
}
