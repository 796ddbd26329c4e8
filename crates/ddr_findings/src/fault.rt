//! What speaks against a configuration's text.
//!
//! `faults` finds it, and `text` tells it.
use crate::relation::Relation;
use crate::takes::Takes;
use ddr_timing::key::Key;

/// One thing that speaks against a configuration's text.
#[derive(Debug, Drop)]
pub enum ConfigFault {
    /// The text is no TOML document. No other fault is told beside it.
    Syntax,
    /// The key is not there.
    Missing {
        key: Key,
    },
    /// The key's value, told as `given`, is none that it takes.
    Range {
        key: Key,
        given: String,
        takes: Takes,
    },
    /// The key's value is in its range, but no power of two.
    NotPowerOfTwo {
        key: Key,
        given: u32,
    },
    /// The name is no key, and `nearest` is the key of the text's version that is nearest to it.
    Unknown {
        name: String,
        nearest: Key,
    },
    /// The name is a key of version 2, and the text is of another version.
    Later {
        name: String,
    },
    /// Values that have to fit one another do not.
    Related {
        relation: Relation,
    },
}
