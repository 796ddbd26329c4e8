//! The refreshes that a rank owes.
//!
//! One REF falls due per REFI (JESD79-4, average refresh interval), and the controller may put some of them
//! off. Below stands `ddr_timing`, which gives REFI and how many may be put off; above, the scheduler asks
//! whether a rank has to be refreshed now, and the channel ticks the debt in each cycle. `debt` is all of it.
#![tactic(auto)]

pub mod debt;
