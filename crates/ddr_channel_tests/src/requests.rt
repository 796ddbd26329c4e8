//! Requests of port 0, as the tests of channels and those of bounds make them.
ghost use Rattle.std.specs.Prelude.{IfOk};
ghost use Rattle.ddr_channel.specs.Sound.{IsServed};

use ddr_address_map::map::Map;
use ddr_address_map::request::{Echo, Req};
use ddr_timing::config::Config;
use std::alloc::Global;
use std::test::Fail;

/// The request for a line, with its number, its mask, and the byte that is all over its line.
pub fn request_of(
    alloc: Global,
    config: &Config,
    number: u64,
    echo: Echo,
    written: (u64, u8),
) -> Result<Req, Fail>
    ensures { IfOk result (λ r. IsServed config.now r.place) }
{
    let (mask, byte) = written;
    let place = Map::new(config)
        .place(echo.addr)
        .ok_or("outside the memory")?;
    Ok(Req {
        port: 0,
        number,
        echo,
        place,
        mask,
        line: Box::new(alloc, [byte; 64])?,
    })
}
