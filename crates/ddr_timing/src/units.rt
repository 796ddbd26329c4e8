//! Numbers with a meaning, one name each, for every crate and every definition.

/// The bytes of a line: a burst of 8 beats on a bus of 64 bits (JESD79-4, burst length 8).
pub const LINE_BYTES: usize = 64;

/// The device columns of a line: one for each beat of a burst (JESD79-4, 8n prefetch).
pub const LINE_COLUMNS: u32 = 8;

/// The banks of a bank group (JESD79-4, addressing of x8 and x16 devices).
pub const GROUP_BANKS: u32 = 4;

/// The most bank groups of a rank (JESD79-4, addressing of x8 devices).
pub const MOST_GROUPS: u32 = 4;

/// The most ranks of a channel: this project's choice.
pub const MOST_RANKS: u32 = 2;

/// The most channels: this project's choice.
pub const MOST_CHANNELS: usize = 4;

/// The most host ports: this project's choice.
pub const MOST_PORTS: usize = 8;

/// The most requests of a port that may be outstanding at a time, and so its widest window: this project's choice.
pub const MOST_OUTSTANDING: usize = 64;

/// The clocks that a burst is on the data bus: 8 beats, two a clock.
pub const BURST_CLOCKS: u32 = 4;

/// The cycle at which a clock stops, and the first number that a port does not give: this project's choice.
pub const CLOCK_STOP: u64 = 1 << 62;

/// How many refresh intervals requests may wait without any being served, where an interval leaves no time to serve one: this project's
/// choice.
pub const STUCK_INTERVALS: u64 = 64;
