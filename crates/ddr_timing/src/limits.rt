//! The sizes of queues and windows, and the marks of the scheduler.
ghost use Rattle.std.specs.Prelude.{◌≤◌, ◌<◌};

/// How much the controller holds at a time. All of them are this project's choice.
#[derive(Clone, Copy, Debug)]
pub struct Limits {
    /// Host ports.
    pub ports: u32,
    /// Outstanding requests of a port.
    pub window: u32,
    /// Requests that wait on their way to a channel.
    pub intake: u32,
    /// Pending reads of a channel.
    pub reads: u32,
    /// Pending writes of a channel.
    pub writes: u32,
    /// Requests of a channel in flight or done.
    pub done: u32,
    /// The write drain ends where no more than this many writes are pending.
    pub low: u32,
    /// The write drain begins where at least this many writes are pending.
    pub high: u32,
    /// The age, in clocks, from which the oldest request is served alone.
    pub cap: u32,
    /// Whether a row is closed behind the last column command that wants it.
    pub closed: bool,
    ghost ports_range: { (1 ≤ ports) × (ports ≤ 8) },
    ghost window_range: { (1 ≤ window) × (window ≤ 64) },
    ghost intake_range: { (1 ≤ intake) × (intake ≤ 64) },
    ghost reads_range: { (1 ≤ reads) × (reads ≤ 32) },
    ghost writes_range: { (1 ≤ writes) × (writes ≤ 32) },
    ghost done_range: { (1 ≤ done) × (done ≤ 64) },
    ghost low_range: { low ≤ 31 },
    ghost high_range: { (1 ≤ high) × (high ≤ 32) },
    ghost cap_range: { (1 ≤ cap) × (cap ≤ 65535) },
    ghost marks_apart: { low < high },
    ghost high_reachable: { high ≤ writes },
}
