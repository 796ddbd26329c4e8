//! What the commands of the program are told of the form of their input, and of what a replay tells.
//!
//! Nothing of the program stands below; the commands take these, and `ddr_words` reads them off the command line.

/// How a request stream is read.
#[derive(Clone, Copy, Debug, PartialEq, Eq)]
pub struct Reading {
    pub format: Format,
    /// Whether requests that name no port go round the ports, and not all to port 0.
    pub spread: bool,
    /// Whether an address is taken modulo the capacity.
    pub wrap: bool,
}

/// The form of a request stream's lines, or of those of captured commands.
#[derive(Clone, Copy, Debug, PartialEq, Eq)]
pub enum Format {
    /// This project's own: `AT PORT read ADDR` or `AT PORT write ADDR`; of commands its trace of comma-separated values.
    Own,
    /// That of DRAMSim3: `ADDR READ CYCLE` or `ADDR WRITE CYCLE`; of commands the command trace that it writes.
    Dramsim3,
    /// That of Ramulator 2's loads and stores: `LD ADDR` or `ST ADDR`, or `R` and `W` in their places; of commands that of its
    /// trace recorder.
    Ramulator2,
}

/// What a replay tells.
#[derive(Clone, Copy, Debug, PartialEq, Eq)]
pub enum Told {
    Statistics,
    /// Of each request, when it was accepted and served.
    Requests,
    /// The commands of a channel, in this project's own form.
    Trace { channel: u32 },
    /// The commands of a channel, in the form that DRAMPower reads.
    Drampower { channel: u32 },
}
