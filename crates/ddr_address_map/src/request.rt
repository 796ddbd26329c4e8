//! Requests and their completions.
ghost use Rattle.std.specs.Prelude.{◌≡◌, ℕ, List};

use crate::place::Place;
use ddr_timing::units::LINE_BYTES;
use std::marker::Model;

/// The bytes of one line: a burst of 8 beats on a 64-bit bus.
pub type Line = [u8; LINE_BYTES];

/// What a request does.
#[derive(Clone, Copy, Debug, PartialEq, Eq)]
pub enum Kind {
    Read,
    Write,
}

/// What a request asked for, repeated in its reply.
#[derive(Clone, Copy, Debug, PartialEq, Eq)]
pub struct Echo {
    pub kind: Kind,
    /// The first address.
    pub addr: u64,
    /// The length in bytes.
    pub len: u32,
}

/// A request on its way to a channel. Contracts see it as a `Request` of `specs/`.
#[derive(Debug, Drop)]
pub struct Req {
    pub port: u32,
    /// The request's number at its port.
    pub number: u64,
    pub echo: Echo,
    pub place: Place,
    /// The data mask: bit i set means that byte i of the line is written. A read has mask 0.
    pub mask: u64,
    pub line: Box<Line>,
}

impl Model for Req {
    ghost use Rattle.ddr_address_map.specs.Requests.{Request};

    ghost Value = { Request };

    ghost view = { λ r. record { port = r.port; number = r.number; echo = r.echo; place = r.place; mask = r.mask; line = r.line.value } };
}

/// A completed request. Contracts see it as a `Completion` of `specs/`.
#[derive(Debug, Drop)]
pub struct Done {
    pub port: u32,
    pub number: u64,
    pub echo: Echo,
    /// The cycle of the column command.
    pub issued: u64,
    /// The cycle of completion.
    pub due: u64,
    /// For a read the bytes of its line, for a write those that were written.
    pub line: Box<Line>,
}

impl Model for Done {
    ghost use Rattle.ddr_address_map.specs.Requests.{Completion};

    ghost Value = { Completion };

    ghost view = { λ d. record { port = d.port; number = d.number; echo = d.echo; issued = d.issued; due = d.due; line = d.line.value } };
}
