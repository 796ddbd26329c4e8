//! A request that waits for its column command.
use ddr_address_map::request::Req;

/// A pending request.
#[derive(Debug, Drop)]
pub struct Waiting {
    pub request: Req,
    /// The cycle that its channel was at when the request was admitted.
    pub admitted: u64,
}
