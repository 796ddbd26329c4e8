//! What is strange about values that are accepted.
//!
//! `oddity` stands below; `warnings` finds it, and `text` tells it.
use crate::oddity::Oddity;

/// The two sides of a comparison. Some are clocks and some are requests.
#[derive(Clone, Copy, Debug, PartialEq, Eq)]
pub struct Sides {
    pub left: u32,
    pub right: u32,
}

/// Something strange, with both sides of its comparison: the left one is the lower.
#[derive(Clone, Copy, Debug, PartialEq, Eq)]
pub struct Warning {
    pub oddity: Oddity,
    pub left: u32,
    pub right: u32,
}
