//! What ends a run of the program before its end.
//!
//! Every command of the program fails by one of these.
ghost use Rattle.std.specs.Prelude.{◌≡◌};
ghost use Rattle.ddr_text.specs.declared.fault.Fault.TheVariants.{OutOfMemory};
ghost use Rattle.ddr_text.specs.Fault.{status_of};

use ddr_timing::error::ConfigError;
use ddr_timing::key::Key;
use ddr_trace_text::text::TraceError;
use std::alloc::{AllocError, AllocFailed};
use thiserror::Error;

/// Why a run ended. The texts are what the program prints on standard error, behind `ddr: `.
#[derive(Clone, Copy, Debug, PartialEq, Eq, Error)]
pub enum Fault {
    #[error("config Syntax")]
    ConfigSyntax,
    #[error("config Missing {key}")]
    ConfigMissing { key: Key },
    #[error("config UnknownKey")]
    ConfigUnknownKey,
    #[error("config Range {key}")]
    ConfigRange { key: Key },
    #[error("config NotPowerOfTwo {key}")]
    ConfigNotPowerOfTwo { key: Key },
    #[error("config Relation {n}")]
    ConfigRelation { n: u32 },
    /// The input has more than 16,777,216 bytes.
    #[error("input too long")]
    InputTooLong,
    #[error("input not UTF-8")]
    InputNotUtf8,
    /// No line of the input is `---`, which ends the configuration.
    #[error("input has no ---")]
    InputHasNoMark,
    /// A line of the script is of no form that is read, or names a port that is not there. Lines count from 1,
    /// skipped ones too.
    #[error("script line {line}")]
    ScriptLine { line: u64 },
    /// No port takes the request of a line of the script. Lines count from 1, skipped ones too.
    #[error("request line {line} {cause}")]
    RequestLine { line: u64, cause: RequestError },
    /// A line of the addresses is no address. Lines count from 1, behind the line `---`, skipped ones too.
    #[error("map line {line}")]
    MapLine { line: u64 },
    /// A line of a request stream is of no form that is read, or names a port that is not there. Lines count from 1,
    /// behind the line `---`, skipped ones too.
    #[error("replay line {line} {cause}")]
    ReplayLine { line: u64, cause: LineFault },
    /// The address of a line of a request stream is not below the memory's capacity. Lines count as above.
    #[error("replay line {line} OutOfRange")]
    ReplayRange { line: u64 },
    /// The replay of a request stream needs more cycles than are made.
    #[error("replay limit")]
    ReplayLimit,
    /// From this cycle on nothing of a replay goes on, though requests are left.
    #[error("replay stuck at cycle {cycle}")]
    ReplayStuck { cycle: u64 },
    /// From this cycle on nothing of a run in threads goes on, though requests are left.
    #[error("run stuck at cycle {cycle}")]
    RunStuck { cycle: u64 },
    /// A line of captured commands is of no form that is read, or names a channel that is not there. Lines count from 1, behind
    /// the line `---`, skipped ones too.
    #[error("capture line {line} {cause}")]
    CaptureLine { line: u64, cause: LineFault },
    /// An END is not behind all captured commands, or a line stands behind END. Lines count as above.
    #[error("capture line {line} Order")]
    CaptureOrder { line: u64 },
    /// The trace's first record is not the header.
    #[error("trace Header")]
    TraceHeader,
    /// A record is of no form that a trace has. Lines count records from 1, the header being 1.
    #[error("trace Row {line}")]
    TraceRow { line: u64 },
    /// A record stands behind END.
    #[error("trace Order {line}")]
    TraceOrder { line: u64 },
    /// The trace has no END.
    #[error("trace Truncated")]
    TraceTruncated,
    /// The trace has more than 65,536 commands.
    #[error("trace TooLong")]
    TraceTooLong,
    /// A channel is asked for that is not there.
    #[error("trace NoSuch")]
    TraceNoSuch,
    /// A trace is too long to be drawn whole.
    #[error("trace TooLong, draw a part with --from and --to")]
    DrawTooLong,
    /// The script has more requests than are taken, or needs more rounds than are made.
    #[error("script limit")]
    ScriptLimit,
    #[error("read failed")]
    Read,
    #[error("write failed")]
    Write,
    #[error("out of memory")]
    OutOfMemory,
    /// A channel's clock has come to its last cycle.
    #[error("clock spent")]
    ClockSpent,
    /// A completion came that its port did not wait for.
    #[error("port broken")]
    PortBroken,
    /// The system gave too few threads.
    #[error("threads refused")]
    ThreadsRefused,
}

/// What is wrong with a line of a request stream or of captured commands. The first that applies is told.
#[derive(Clone, Copy, Debug, PartialEq, Eq, Error)]
pub enum LineFault {
    /// The line has more than 4,096 bytes.
    #[error("TooLong")]
    TooLong,
    /// The line is no text.
    #[error("NotUtf8")]
    NotUtf8,
    /// A space stands before the first field or behind the last, where the form has none.
    #[error("Spaces")]
    Spaces,
    /// There are not as many fields as the form has.
    #[error("Fields")]
    Fields,
    /// The word is neither a read nor a write, or names no command.
    #[error("Word")]
    Word,
    /// A field is not the number that the form wants there: it is of no form that is read, too great, left out where a number is
    /// needed, or filled where none is.
    #[error("Number")]
    Number,
    /// The port or the channel is not there.
    #[error("NoSuch")]
    NoSuch,
}

/// Why no port takes a request. The first that applies is told.
#[derive(Clone, Copy, Debug, PartialEq, Eq, Error)]
pub enum RequestError {
    /// The first address is not below the memory's capacity.
    #[error("OutOfRange")]
    OutOfRange,
    /// No byte is asked for.
    #[error("EmptyLength")]
    EmptyLength,
    /// The bytes are not all in the line of the first.
    #[error("CrossesLine")]
    CrossesLine,
}

impl Fault {
    /// The status that the program ends with: 2 where the input is at fault, 3 where the device, the memory,
    /// the clock, a port or the system's threads are.
    pub fn status(self) -> u8
        ensures { result ≡ status_of self }
    {
        match self {
            Fault::ConfigSyntax
            | Fault::ConfigMissing { .. }
            | Fault::ConfigUnknownKey
            | Fault::ConfigRange { .. }
            | Fault::ConfigNotPowerOfTwo { .. }
            | Fault::ConfigRelation { .. }
            | Fault::InputTooLong
            | Fault::InputNotUtf8
            | Fault::InputHasNoMark
            | Fault::MapLine { .. }
            | Fault::ScriptLine { .. }
            | Fault::RequestLine { .. }
            | Fault::ReplayLine { .. }
            | Fault::ReplayRange { .. }
            | Fault::ReplayLimit
            | Fault::CaptureLine { .. }
            | Fault::CaptureOrder { .. }
            | Fault::TraceHeader
            | Fault::TraceRow { .. }
            | Fault::TraceOrder { .. }
            | Fault::TraceTruncated
            | Fault::TraceTooLong
            | Fault::TraceNoSuch
            | Fault::DrawTooLong
            | Fault::ScriptLimit => 2,
            Fault::Read
            | Fault::Write
            | Fault::OutOfMemory
            | Fault::ReplayStuck { .. }
            | Fault::RunStuck { .. }
            | Fault::ClockSpent
            | Fault::PortBroken
            | Fault::ThreadsRefused => 3,
        }
    }
}

impl From<ConfigError> for Fault {
    ghost use Rattle.ddr_text.specs.Fault.{fault_of};

    ghost from_gives = { λ refusal fault. fault ≡ fault_of refusal };

    fn from(refusal: ConfigError) -> Fault {
        match refusal {
            ConfigError::Syntax => Fault::ConfigSyntax,
            ConfigError::Missing { key } => Fault::ConfigMissing { key },
            ConfigError::UnknownKey => Fault::ConfigUnknownKey,
            ConfigError::Range { key } => Fault::ConfigRange { key },
            ConfigError::NotPowerOfTwo { key } => Fault::ConfigNotPowerOfTwo { key },
            ConfigError::Relation { n } => Fault::ConfigRelation { n },
            ConfigError::OutOfMemory => Fault::OutOfMemory,
        }
    }
}

impl From<TraceError> for Fault {
    ghost use Rattle.ddr_text.specs.Fault.{trace_fault_of};

    ghost from_gives = { λ refusal fault. fault ≡ trace_fault_of refusal };

    fn from(refusal: TraceError) -> Fault {
        match refusal {
            TraceError::Read => Fault::Read,
            TraceError::Write => Fault::Write,
            TraceError::Header => Fault::TraceHeader,
            TraceError::Row { line } => Fault::TraceRow { line },
            TraceError::Order { line } => Fault::TraceOrder { line },
            TraceError::Truncated => Fault::TraceTruncated,
            TraceError::TooLong => Fault::TraceTooLong,
            TraceError::OutOfMemory => Fault::OutOfMemory,
        }
    }
}

impl From<AllocError> for Fault {
    ghost from_gives = { λ _ fault. fault ≡ OutOfMemory };

    fn from(_error: AllocError) -> Fault {
        Fault::OutOfMemory
    }
}

impl<T: Drop> From<AllocFailed<T>> for Fault {
    ghost from_gives = { λ _ fault. fault ≡ OutOfMemory };

    fn from(_error: AllocFailed<T>) -> Fault {
        Fault::OutOfMemory
    }
}
