//! What a port lends its host.
use ddr_address_map::request::Echo;

/// When a request was served, in clocks of its channel.
#[derive(Clone, Copy, Debug, PartialEq, Eq)]
pub struct Service {
    /// The cycle of the column command.
    pub issued: u64,
    /// The cycle of completion.
    pub due: u64,
}

/// A reply, lent from the line that came back: no byte is copied.
#[derive(Clone, Copy, Debug)]
pub struct Reply<'a> {
    /// The request's number at its port.
    pub number: u64,
    /// What the request asked for.
    pub echo: Echo,
    /// The cycle of the column command, in clocks of the request's channel.
    pub issued: u64,
    /// The cycle of completion, in clocks of the request's channel.
    pub due: u64,
    /// For a read the bytes asked for, and no others; for a write none.
    pub bytes: &'a [u8],
}
