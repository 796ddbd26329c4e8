//! The command `draw`: a trace as a value change dump for a viewer of waveforms, or as a picture of lanes.
//!
//! Below stand `ddr_trace`, `ddr_text` with the program's inputs, outputs and faults, and `ddr_capture` with its reader of lines; above
//! stands `ddr_tool`, which performs the command. `draw` is the whole of it. `waves` makes the dump of the changes of a trace, which
//! `changes` finds and `order` puts in order; `change` says what one is. `lanes` makes the picture, over `ground` with its `legend`,
//! `bars` for open rows and bursts, and `boxes` for commands; `scale` says where cycles and banks lie in it, `view` which cycles it
//! shows, `shapes` how shapes are written, and `colours` which ones they have. `part` makes the picture of a part of a trace of any
//! length: `joined` reads what `check` would, `long` reads what is longer line by line, and `sketch` keeps of its commands what the
//! picture shows, over `kept_bars` and `kept_boxes`. `waited` says what a command waited for, which `held` is, over `pairs` by earlier
//! commands and `starts` by auto-precharges, and `told` puts it into words. Both stand on `period`, which says when a row is closed
//! and when data are on the bus, and on `names` for banks. `rows` has the law that the open rows are those that
//! the rules of traces speak of, and `waits` the one that what a command is told to have waited for is what allowed it last.
#![tactic(auto)]

mod bars;
mod boxes;
pub mod change;
mod changes;
pub mod colours;
pub mod draw;
mod ground;
pub mod held;
mod joined;
pub mod kept_bars;
pub mod kept_boxes;
mod lanes;
mod legend;
pub mod long;
mod names;
mod order;
mod pairs;
mod part;
mod period;
pub mod rows;
pub mod scale;
mod shapes;
mod sketch;
mod starts;
mod told;
pub mod view;
mod waited;
pub mod waits;
mod waves;
