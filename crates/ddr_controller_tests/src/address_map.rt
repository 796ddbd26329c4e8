//! What the address map's definition means at worked addresses. Places and addresses are written out here
//! by hand, from the sizes and the order of the digits.
use ddr_address_map::map::Map;
use ddr_address_map::place::Place;
use ddr_samples::sample::changed;
use ddr_timing::config::Config;
use std::alloc::{AllocError, Global};
use std::process::Abort;
use std::test::Fail;

mod ranks;

/// The words of the address digits.
const WORDS: [&str; 5] = ["channel", "group", "bank", "column", "row"];

/// The map that a text gives, where it is accepted.
fn map_of(alloc: Global, text: Result<String, AllocError>) -> Option<Map> {
    match text {
        Ok(text) => match Config::read(alloc, text.as_str()) {
            Ok(config) => Some(Map::new(&config)),
            Err(_) => None,
        },
        Err(_) => None,
    }
}

/// The map of profile S with other lines.
fn map_with(alloc: Global, lines: &[(&str, &str)]) -> Result<Map, Fail> {
    Ok(map_of(alloc, changed(alloc, lines)).ok_or("refused")?)
}

/// The parts of a place in the order of the program's text: channel, group, bank, row, line, offset.
type Parts = [u32; 6];

fn at(parts: Parts) -> Place {
    let [channel, group, bank, row, line, offset] = parts;
    Place {
        channel,
        rank: 0,
        group,
        bank,
        row,
        line,
        offset,
    }
}

/// That each address has its place, or none, and is told to have one.
fn check_places(rt: &impl Abort, map: &Map, places: &[(u64, Option<Parts>)]) {
    for (addr, parts) in places {
        assert!(rt; map.place(*addr) == parts.map(at), "at {addr}");
        assert!(rt; map.holds(*addr) == parts.is_some(), "at {addr}");
    }
}

/// That each place has its address, or none.
fn check_addresses(rt: &impl Abort, map: &Map, addresses: &[(Parts, Option<u64>)]) {
    for (parts, addr) in addresses {
        assert!(rt; map.address(at(*parts)) == *addr, "at {parts:?}");
    }
}

/// The map of profile S with other lines gives these places and these addresses.
fn check_map(
    rt: &impl Abort,
    alloc: Global,
    lines: &[(&str, &str)],
    places: &[(u64, Option<Parts>)],
    addresses: &[(Parts, Option<u64>)],
) -> Result<(), Fail> {
    let map = map_with(alloc, lines)?;
    check_places(rt, &map, places);
    check_addresses(rt, &map, addresses);
    Ok(())
}

/// In profile S an address is 64 * line + 512 * group + 2048 * bank + 8192 * row + 131072 * channel + offset.
const PLACES_OF_S: &[(u64, Option<Parts>)] = &[
    (0, Some([0, 0, 0, 0, 0, 0])),
    (100_000, Some([0, 3, 0, 12, 2, 32])),
    (262_143, Some([1, 3, 3, 15, 7, 63])),
    (262_144, None),
    (u64::MAX, None),
];

const ADDRESSES_OF_S: &[(Parts, Option<u64>)] = &[
    ([0, 3, 0, 12, 2, 32], Some(100_000)),
    ([1, 3, 3, 15, 7, 63], Some(262_143)),
];

#[test]
fn maps_the_addresses_of_profile_s(rt: HostRuntime) -> Result<(), Fail> {
    check_map(&rt, rt.alloc(), &[], PLACES_OF_S, ADDRESSES_OF_S)
}

const SWAPPED: &[(&str, &str)] = &[("bank_xor", "bank_xor = true")];

/// The row is the one numbered 13, which is 1 mod 4, so bank digit 0 is bank 1, and bank digit 3 is bank 2.
const SWAPPED_PLACES: &[(u64, Option<Parts>)] = &[
    (106_496, Some([0, 0, 1, 13, 0, 0])),
    (112_640, Some([0, 0, 2, 13, 0, 0])),
];

const SWAPPED_ADDRESSES: &[(Parts, Option<u64>)] = &[
    ([0, 0, 1, 13, 0, 0], Some(106_496)),
    ([0, 0, 2, 13, 0, 0], Some(112_640)),
];

#[test]
fn swaps_the_banks_by_the_row(rt: HostRuntime) -> Result<(), Fail> {
    check_map(&rt, rt.alloc(), SWAPPED, SWAPPED_PLACES, SWAPPED_ADDRESSES)
}

/// Each part in turn is at its size.
const OUTSIDE: &[(Parts, Option<u64>)] = &[
    ([2, 3, 3, 15, 7, 63], None),
    ([1, 4, 3, 15, 7, 63], None),
    ([1, 3, 4, 15, 7, 63], None),
    ([1, 3, 3, 16, 7, 63], None),
    ([1, 3, 3, 15, 8, 63], None),
    ([1, 3, 3, 15, 7, 64], None),
];

#[test]
fn refuses_places_out_of_range(rt: HostRuntime) -> Result<(), Fail> {
    check_map(&rt, rt.alloc(), &[], &[], OUTSIDE)
}

/// The numbers 1 for the channel, 2 for the group, 3 for the bank, 5 for the row, 6 for the line and 7 for the
/// offset.
const COUNTED: Parts = [1, 2, 3, 5, 6, 7];

/// The address of that place by each order. By "channel group bank column row" the weights are 64 for the channel,
/// 128, 512, 2048 and 16384; by "row column bank group channel" 64 for the row, 1024, 8192, 32768 and 131072; by
/// "bank row channel column group" 64 for the bank, 256, 4096, 8192 and 65536.
const ORDERS: &[(&str, u64)] = &[
    ("map = \"column group bank row channel\"", 179_591),
    ("map = \"channel group bank column row\"", 96_071),
    ("map = \"row column bank group channel\"", 227_655),
    ("map = \"bank row channel column group\"", 185_799),
];

fn check_counted(rt: &impl Abort, alloc: Global, order: &str, addr: u64) -> Result<(), Fail> {
    let places = [(addr, Some(COUNTED))];
    let addresses = [(COUNTED, Some(addr))];
    check_map(rt, alloc, &[("map", order)], &places, &addresses)
}

#[test]
fn follows_the_order_of_the_words(rt: HostRuntime) -> Result<(), Fail> {
    for (order, addr) in ORDERS {
        check_counted(&rt, rt.alloc(), order, *addr)?;
    }
    Ok(())
}

/// 131072 rows of 128 lines, 4 banks, 4 groups and 4 channels are 2^36 bytes.
const LARGEST: &[(&str, &str)] = &[
    ("channels", "channels = 4"),
    ("rows", "rows = 131072"),
    ("columns", "columns = 1024"),
];

const LAST_PLACES: &[(u64, Option<Parts>)] = &[
    (68_719_476_735, Some([3, 3, 3, 131_071, 127, 63])),
    (68_719_476_736, None),
];

const LAST_ADDRESS: &[(Parts, Option<u64>)] = &[(
    [3, 3, 3, 131_071, 127, 63],
    Some(68_719_476_735),
)];

#[test]
fn maps_the_largest_memory(rt: HostRuntime) -> Result<(), Fail> {
    check_map(&rt, rt.alloc(), LARGEST, LAST_PLACES, LAST_ADDRESS)
}

/// Five of the words, the k-th by the k-th digit of a number to the base 5.
fn words_by(number: usize) -> [&'static str; 5] {
    let mut words = [""; 5];
    let mut rest = number;
    for word in &mut words {
        *word = WORDS[rest % 5];
        rest /= 5;
    }
    words
}

/// Whether addresses from all over the memory of profile S have places that give them back.
fn is_there_and_back(map: &Map) -> bool {
    for step in 0..269 {
        let addr = 977 * step;
        match map.place(addr) {
            Some(place) if map.address(place) == Some(addr) => {}
            _ => return false,
        }
    }
    true
}

/// Whether each of the words is among these.
fn is_an_order(words: &[&str; 5]) -> bool {
    WORDS.iter().all(|word| words.contains(word))
}

/// The line of a configuration that names an order.
fn line_of(alloc: Global, words: [&str; 5]) -> Result<String, AllocError> {
    let [first, second, third, fourth, fifth] = words;
    format!(in alloc; "map = \"{first} {second} {third} {fourth} {fifth}\"")
}

/// That the map of an order goes there and back, and ends where profile S does.
fn check_order(rt: &impl Abort, alloc: Global, line: &str) -> Result<(), Fail> {
    let map = map_with(alloc, &[("map", line)])?;
    assert!(rt; is_there_and_back(&map), "{line}");
    let last = Some(at([1, 3, 3, 15, 7, 63]));
    assert!(rt; map.place(262_143) == last, "{line}");
    assert!(rt; map.place(262_144).is_none(), "{line}");
    Ok(())
}

#[test]
fn goes_there_and_back_by_every_order(rt: HostRuntime) -> Result<(), Fail> {
    let mut orders = 0_u32;
    for number in 0..3125 {
        let words = words_by(number);
        if is_an_order(&words) {
            let line = line_of(rt.alloc(), words)?;
            check_order(&rt, rt.alloc(), line.as_str())?;
            assert!(rt; orders < 120);
            orders += 1;
        }
    }
    assert_eq!(rt; orders, 120);
    Ok(())
}
