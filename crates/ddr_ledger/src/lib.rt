//! What a replay counts of its requests and of its channels' commands, and the text of it.
//!
//! Below stand the stream's requests (`ddr_stream`), the core (`ddr_world`), the statistics of its channels (`ddr_counting`,
//! `ddr_statistics`) and the numbers of requests (`ddr_measure`). Above stands `ddr_replay`, which makes the rounds and tells here what
//! comes of them.
//!
//! `ledger` keeps when requests were accepted, how they found their banks (`found`), how long they took (`times`), how those of each port
//! found theirs (`rows`), how many were outstanding (`windows`), for how long ports waited (`waited`), what channels did in their cycles
//! (`activity`), and what their commands waited for while requests were pending (`stalls`, by `causes`; `sums` says that these add up).
//! `released` is a request whose reply was released, with its line of text, and `measured` hands it to `ddr_measure`. `numbers` counts what
//! a replay comes to, `places` is the text of ranks and banks, `causes_text` that of causes, and `times_report` that of how long requests
//! took. `drampower` has commands in DRAMPower's form.
#![tactic(auto)]

pub mod activity;
pub mod causes;
pub mod causes_text;
pub mod drampower;
mod found;
pub mod ledger;
pub mod measured;
pub mod numbers;
pub mod places;
pub mod released;
pub mod rows;
pub mod stalls;
pub mod sums;
pub mod times;
pub mod times_report;
pub mod waited;
pub mod windows;
