//! What the help of each command says behind its options: its input, its output, how it ends, and a line to paste.
//!
//! Nothing of the program stands below; `job` hands these texts to `clap`.

/// Behind the help of the program.
pub const PROGRAM: &str = "\
Each command reads standard input: a configuration, a line `---` and a body. With
--sample the input is the body alone. `ddr COMMAND --help` says what the body is.
A configuration is TOML, with a line `KEY = VALUE` for each key.
No words at all mean `ddr sim --sample`.";

/// Behind the help of `sim`.
pub const SIM: &str = "\
Input: a configuration, a line `---` and a script; with --sample the script alone.
  A script has one of these on each line: `read PORT ADDR LEN`, `write PORT ADDR HEX`
  with two digits for each byte, `mask PORT ADDR ENABLE HEX` with sixteen digits and the
  64 bytes of a line, or `cycle N`, which makes N rounds. Empty lines and lines that
  begin with # are skipped.
Output: a line for each reply, when it comes: `PORT NUMBER write ADDR`, or
  `PORT NUMBER read ADDR HEX`; and `refused PORT NAME` for a request that is not taken.
  With --trace the commands of that channel in their place.
Status: 0; 2 for a bad input or command line; 3 where the device, the memory or the
  clock fails.

To paste:
  printf 'write 0 0 0a0b0c0d\\nread 0 0 4\\n' | ./ddr sim --sample";

/// Behind the help of `run`.
pub const RUN: &str = "\
Input: a configuration, a line `---` and a script; with --sample the script alone. A
  script is that of `sim`, without `cycle` lines, and each of its requests is one that a
  port takes.
  Each port has a thread of its own, which asks for what the port's lines say, in order,
  and each channel has one. What comes of requests of different ports to one line depends
  on the threads.
Output: the replies of port 0, then those of port 1, and so on: `PORT NUMBER write ADDR`,
  or `PORT NUMBER read ADDR HEX`. Then for each channel `channel C legal`, or
  `channel C fault PLACE RULE`.
Status: 0; 1 where a channel's trace is not legal; 2 for a bad input or command line; 3
  where the device, the memory or the clock fails, or a port is broken.

To paste:
  printf 'write 0 0 0a0b0c0d\\nread 0 0 4\\n' | ./ddr run --sample";

/// Behind the help of `replay`.
pub const REPLAY: &str = "\
Input: a configuration, a line `---` and a stream of requests; with --sample the stream
  alone. A request is a line `AT PORT read ADDR` or `AT PORT write ADDR`, for the whole
  line of 64 bytes that holds ADDR, which is decimal, or hexadecimal behind 0x. AT is the
  cycle from which on the port may submit it, or `-` for as soon as possible. Empty lines
  and lines that begin with # are skipped.
  With --dramsim3 a request is a line `ADDR READ AT` or `ADDR WRITE AT`, with --ramulator2
  a line `LD ADDR` or `ST ADDR`, or `R ADDR` or `W ADDR`; there ADDR is hexadecimal behind
  0x, and AT a cycle. Such requests are for port 0, or with --spread for each port in turn.
  With --wrap an address is taken modulo the capacity, with --from-first the least AT of
  the stream as cycle 0.
  Each port submits its requests in order, and waits where one is not taken. Before each
  round port 0 submits first, then port 1 and so on; with --fair the first one is that behind
  the last port that submitted, so that none is behind all others where queues are full.
Output: statistics as TOML, once all requests are served: tables of all channels and of
  each, of each port, and of how long requests took, from all ports and from each.
  With --requests a line of comma-separated values for each request in their place, in the
  order in which replies are released; with --trace the commands of that channel, and
  with --drampower the same as DRAMPower reads them, `CYCLE,CMD,RANK,GROUP,BANK,ROW,COL`.
  With --numbers what an architect compares, as TOML: the part of the data bus that was
  used, and for reads, writes, row hits, misses and conflicts how long they took between
  any two steps, with a histogram of eight classes an octave and what 50, 90, 99 and 99.9
  in a hundred don't pass. --skip N leaves out the first N requests that are served;
  --tck P, the picoseconds of a clock, tells nanoseconds and bytes a second too. With
  --every N a line of comma-separated values for each interval of N cycles in their place:
  which requests were complete in it, and how long the data buses were busy.
  With --progress a line on standard error says about each second how far it is; the
  output stays the same.
Status: 0; 2 for a bad input or command line; 3 where the device, the memory or the
  clock fails.

To paste:
  printf -- '- 0 write 0\\n- 0 read 0\\n' | ./ddr replay --sample";

/// Behind the help of `check`.
pub const CHECK: &str = "\
Input: a configuration, a line `---` and a trace; with --sample the trace alone.
  A trace is the text that `ddr sim --trace` writes.
Output: `legal`, or `fault PLACE RULE`, where PLACE counts the commands from 0. With
  --explain a sentence behind it, with the earlier command that the fault is measured
  from, the distance, and the least distance with its formula. Its lines count the
  trace's records from 1, the header being 1.
  With --all a line of comma-separated values for each rule that is broken at each
  place, each command judged behind all before it, those at fault among them; then a
  line `# RULE COUNT` for each rule that is broken. --most N writes the first N lines
  alone, the counts stay those of all, and it asks for --all. Next to --all --explain
  adds nothing.
  With --stream the body is captured commands of all channels, of any number. They are
  read in one pass, and a verdict on each channel tells its first fault. Their lines are
  those of a trace; with --dramsim3 those of the command trace that DRAMSim3 writes, and
  with --ramulator2 those of Ramulator 2's trace recorder. The first cycle is 0, or that
  of --start. These two write a file for each channel: --channel C judges one as that of
  channel C. --dramsim3, --ramulator2, --start and --channel each ask for --stream; none
  of them goes with --explain, --all or --most, and --channel needs one of the two forms.
Status: 0 where the trace is legal; 1 where it is not; 2 for a bad input or command
  line; 3 where the device or the memory fails.

To paste:
  echo 'read 0 0 4' | ./ddr sim --sample --trace 0 | ./ddr check --sample";

/// Behind the help of `draw`.
pub const DRAW: &str = "\
Input: a configuration, a line `---` and a trace; with --sample the trace alone.
  A trace is the text that `ddr sim --trace` writes.
Output: a value change dump (IEEE 1364), which a wave viewer shows: what stands on the
  command bus and on the data bus, and which banks have a row open, cycle by cycle. Its
  values are strings, which IEEE 1364 doesn't know: they are GTKWave's extension of it.
  With --svg a timeline as SVG in its place, of the commands from the cycle of --from on
  and before that of --to; these two need --svg. With one of them a trace may have any
  length, and else 65,536 commands.
Status: 0; 2 for a bad input or command line; 3 where the device or the memory fails.

To paste:
  echo 'read 0 0 4' | ./ddr sim --sample --trace 0 | ./ddr draw --sample";

/// Behind the help of `map`.
pub const MAP: &str = "\
Input: a configuration, a line `---` and addresses; with --sample the addresses alone.
  An address is a decimal number of bytes, one on each line. Empty lines are skipped.
Output: a line for each address: `ADDR CHANNEL GROUP BANK ROW COL OFFSET`, or `ADDR out`
  from the capacity on. COL counts device columns, and OFFSET bytes.
Status: 0; 2 for a bad input or command line; 3 where the device or the memory fails.

To paste:
  echo 100000 | ./ddr map --sample";

/// Behind the help of `lint`.
pub const LINT: &str = "\
Input: a configuration; what stands behind a line `---` is not looked at. With --sample
  the sample configuration is looked through, and nothing is read.
Output: a line for each finding, the faults first: each key that is missing, each value
  out of its range, each unknown key with the nearest known one, and each broken relation
  with both of its sides; then warnings of values that are accepted, and yet strange.
  With --bound a TOML table in their place, unless there are faults: a request takes fewer
  than `clocks` clocks from its admission to its completion, and the other numbers are
  what they are made up of. Without a bound that is proved there is no line `clocks`.
Status: 0 where nothing is found; 1 where there are warnings alone, or with --bound no
  bound; 2 for a fault, or a bad input or command line; 3 where the device or the memory
  fails.

To paste:
  ./ddr lint < examples/spread.config";
