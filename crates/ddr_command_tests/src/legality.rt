//! Traces worked out by hand, with the timing of the sample configuration.
mod check;
mod issue;
mod second;
mod traces;
