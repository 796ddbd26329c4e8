//! What the libraries for C share: a box as its pointer, of which their handles are made, and a configuration's text as a host hands it
//! over.
//!
//! `ddr_c` and `ddr_judge_c` stand above. `Handle` and `Slot` stand in each of them, since no struct with type parameters crosses to C;
//! `proofs/Handles.antt` proves each `Handle`. No layout of either library depends on this crate.
#![tactic(auto)]

pub mod loose;
pub mod text;
