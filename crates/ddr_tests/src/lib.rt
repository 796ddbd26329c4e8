//! Tests that cross crates; nothing else is here, and nothing stands above.
//!
//! `world` runs the core by worked lists of events and by chance, `texts` takes inputs and command lines apart, and
//! `commands` runs whole commands, over inputs of bytes, and looks at every byte that comes out. All stand on public calls
//! alone; what several test crates share is in `ddr_samples`. The tests of one layer's own calls are in
//! `ddr_command_tests`, `ddr_controller_tests` and `ddr_channel_tests`, those in threads in `ddr_thread_tests`.
#![tactic(auto)]

#[cfg(test)]
mod commands;
#[cfg(test)]
mod texts;
#[cfg(test)]
mod world;
