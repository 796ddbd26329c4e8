//! What the programs `ddr` and `ddr_check` share: the words of their command line, the commands that need no scheduler, and how
//! they end.
//!
//! Below stand `ddr_words`, which says what the words ask for, `ddr_text` with the commands `check` and `map`, and `ddr_lint`,
//! `ddr_explain`, `ddr_capture` and `ddr_draw` with the others on configurations and traces; the two programs stand above. `words` takes
//! the words and tells of the program itself, `traces` performs the commands, and `ended` says what ended a program.
#![tactic(auto)]

pub mod ended;
pub mod traces;
pub mod words;
