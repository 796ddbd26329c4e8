//! The address map of channels with two ranks. Places and addresses are written out by hand.
use super::map_of;
use ddr_address_map::map::Map;
use ddr_address_map::place::Place;
use ddr_samples::sample::with_lines;
use ddr_timing::profile::PROFILE_S2;
use std::alloc::Global;
use std::process::Abort;
use std::test::Fail;

/// The parts of a place: channel, rank, group, bank, row, line, offset.
type Parts = [u32; 7];

fn at(parts: Parts) -> Place {
    let [channel, rank, group, bank, row, line, offset] = parts;
    Place {
        channel,
        rank,
        group,
        bank,
        row,
        line,
        offset,
    }
}

/// The map of profile S2 with other lines.
fn map_with(alloc: Global, lines: &[(&str, &str)]) -> Result<Map, Fail> {
    Ok(map_of(alloc, with_lines(alloc, PROFILE_S2, lines)).ok_or("refused")?)
}

/// That each address has its place, and each place its address.
fn check_pairs(rt: &impl Abort, map: &Map, pairs: &[(u64, Parts)]) {
    for (addr, parts) in pairs {
        assert!(rt; map.place(*addr) == Some(at(*parts)), "at {addr}");
        assert!(rt; map.address(at(*parts)) == Some(*addr), "at {parts:?}");
    }
}

/// That no address is in the memory.
fn check_beyond(rt: &impl Abort, map: &Map, addresses: &[u64]) {
    for addr in addresses {
        assert!(rt; map.place(*addr).is_none(), "at {addr}");
    }
}

/// That no place is in the memory.
fn check_outside(rt: &impl Abort, map: &Map, places: &[Parts]) {
    for parts in places {
        assert!(rt; map.address(at(*parts)).is_none(), "at {parts:?}");
    }
}

/// In profile S2 an address is 64 * line + 512 * group + 2048 * bank + 8192 * row + 131072 * channel
/// + 262144 * rank + offset.
const OF_S2: &[(u64, Parts)] = &[
    (0, [0, 0, 0, 0, 0, 0, 0]),
    (100_000, [0, 0, 3, 0, 12, 2, 32]),
    (262_143, [1, 0, 3, 3, 15, 7, 63]),
    (262_144, [0, 1, 0, 0, 0, 0, 0]),
    (362_144, [0, 1, 3, 0, 12, 2, 32]),
    (524_287, [1, 1, 3, 3, 15, 7, 63]),
];

#[test]
fn second_rank_is_behind_the_first(rt: HostRuntime) -> Result<(), Fail> {
    let map = map_with(rt.alloc(), &[])?;
    check_pairs(&rt, &map, OF_S2);
    check_beyond(&rt, &map, &[524_288, u64::MAX]);
    check_outside(&rt, &map, &[[0, 2, 0, 0, 0, 0, 0], [1, 2, 3, 3, 15, 7, 63]]);
    Ok(())
}

#[test]
fn one_rank_ends_where_the_first_ends(rt: HostRuntime) -> Result<(), Fail> {
    let map = map_with(rt.alloc(), &[("ranks", "ranks = 1")])?;
    check_pairs(&rt, &map, &[(262_143, [1, 0, 3, 3, 15, 7, 63])]);
    check_beyond(&rt, &map, &[262_144]);
    check_outside(&rt, &map, &[[0, 1, 0, 0, 0, 0, 0]]);
    Ok(())
}

/// The address of channel 1, rank 1, group 2, bank 3, row 5, line 6 and offset 7 by each order. The rank's weight is
/// 262144 where its word is last, 64 where it is first, and 8192 between bank and row.
const ORDERS: &[(&str, u64)] = &[
    ("map = \"column group bank row channel rank\"", 441_735),
    ("map = \"rank column group bank row channel\"", 359_239),
    ("map = \"column group bank rank row channel\"", 359_815),
];

#[test]
fn rank_stands_where_its_word_does(rt: HostRuntime) -> Result<(), Fail> {
    for (order, addr) in ORDERS {
        let map = map_with(rt.alloc(), &[("map", order)])?;
        check_pairs(&rt, &map, &[(*addr, [1, 1, 2, 3, 5, 6, 7])]);
    }
    Ok(())
}

/// Row 13 is 1 mod 4, so bank digit 0 is bank 1 in both ranks.
#[test]
fn row_is_mixed_into_the_banks_of_each_rank(rt: HostRuntime) -> Result<(), Fail> {
    let map = map_with(rt.alloc(), &[("bank_xor", "bank_xor = true")])?;
    let pairs = [
        (106_496, [0, 0, 0, 1, 13, 0, 0]),
        (368_640, [0, 1, 0, 1, 13, 0, 0]),
    ];
    check_pairs(&rt, &map, &pairs);
    Ok(())
}

/// 131072 rows of 128 lines, 4 banks, 4 groups, 2 ranks and 4 channels are 2^37 bytes.
const LARGEST: &[(&str, &str)] = &[
    ("channels", "channels = 4"),
    ("rows", "rows = 131072"),
    ("columns", "columns = 1024"),
];

#[test]
fn maps_the_largest_memory_of_two_ranks(rt: HostRuntime) -> Result<(), Fail> {
    let map = map_with(rt.alloc(), LARGEST)?;
    let last = [(137_438_953_471, [3, 1, 3, 3, 131_071, 127, 63])];
    check_pairs(&rt, &map, &last);
    check_beyond(&rt, &map, &[137_438_953_472]);
    Ok(())
}
