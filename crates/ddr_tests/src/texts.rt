//! Inputs in their two parts, command lines, lines of a script, and the texts of the faults.
mod body;
mod faults;
mod job;
mod script;
