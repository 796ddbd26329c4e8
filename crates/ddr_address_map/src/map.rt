//! The address map: from an address to its place in the memory, and back.
//!
//! An address is a line's number and an offset in the line. The line's number is written in mixed radix,
//! with the digits of the place in the order that the configuration names. Each way is one pass over
//! that order. Below stand `ddr_timing`'s geometry and `place`.
ghost use Rattle.std.specs.Prelude.{◌≡◌, ◌+◌, ◌<◌, ◌≤◌, ◌↔◌, if◌then◌else◌, IsTrue, IsSome, IfSome, is_some};
ghost use Rattle.ddr_timing.specs.declared.geometry.Digit.{Digit};
ghost use Rattle.ddr_timing.specs.Order.{same_digit};
ghost use Rattle.ddr_address_map.specs.Map.{size_of, capacity_of, digit_in, with_bank_xor, in_range, place_of, address_of};

use crate::place::Place;
use ddr_timing::config::Config;
use ddr_timing::geometry::{Digit, Geometry};
use ddr_timing::units::{GROUP_BANKS, LINE_BYTES, LINE_COLUMNS};

/// The address map of a configuration: this project's choice, the standard leaves it to the controller.
#[derive(Clone, Copy, Debug)]
pub struct Map {
    /// The sizes of the digits, their order, and whether the row is mixed into the bank.
    pub geometry: Geometry,
    // The bytes of the memory.
    capacity: u64,
    ghost capacity_is: { capacity ≡ capacity_of geometry },
}

impl Map {
    /// The map that the configuration's geometry describes.
    pub fn new(config: &Config) -> Map
        ensures { result.geometry ≡ config.now.geometry }
    {
        let geometry = config.geometry;
        let capacity = capacity(&geometry);
        Map { geometry, capacity }
    }

    /// Whether an address has a place: a comparison with the capacity, where `place` takes the address apart.
    pub fn holds(&self, addr: u64) -> bool
        ensures { result ≡ is_some (place_of self.now.geometry addr) }
    {
        addr < self.capacity
    }

    /// Where the byte of an address lies. `None` exactly where the address is not below the capacity.
    ///
    /// The way back leads to the same address, so no two addresses share a place.
    pub fn place(&self, addr: u64) -> Option<Place>
        ensures exact { result ≡ place_of self.now.geometry addr }
        ensures inside { IsSome result ↔ (addr < capacity_of self.now.geometry) }
        ensures within { IfSome result (λ place. IsTrue (in_range self.now.geometry place)) }
        ensures back { IfSome result (λ place. address_of self.now.geometry place ≡ Some addr) }
    {
        let mut rest = addr / LINE_BYTES as u64;
        let mut place = Place {
            channel: 0,
            rank: 0,
            group: 0,
            bank: 0,
            row: 0,
            line: 0,
            offset: (addr % LINE_BYTES as u64) as u32,
        };
        for digit in self.geometry.map {
            let size = self.size(digit);
            place = with_digit(place, digit, (rest % size) as u32);
            rest /= size;
        }
        if rest == 0 {
            Some(self.with_bank_xor(place))
        } else {
            None
        }
    }

    /// The address of the byte at a place. `None` exactly where a part of the place is not below its size.
    ///
    /// The way back leads to the same place, so no two places share an address.
    pub fn address(&self, place: Place) -> Option<u64>
        ensures exact { result ≡ address_of self.now.geometry place }
        ensures inside { IsSome result ↔ IsTrue (in_range self.now.geometry place) }
        ensures below { IfSome result (λ addr. addr < capacity_of self.now.geometry) }
        ensures back { IfSome result (λ addr. place_of self.now.geometry addr ≡ Some place) }
    {
        if !self.is_in_range(place) {
            return None;
        }
        let digits = self.with_bank_xor(place);
        let mut number = 0;
        let mut weight = 1;
        for digit in self.geometry.map {
            number += weight * u64::from(digit_of(digits, digit));
            weight *= self.size(digit);
        }
        Some(LINE_BYTES as u64 * number + u64::from(place.offset))
    }

    // How many values a digit has.
    fn size(&self, digit: Digit) -> u64
        ensures exact { result ≡ size_of self.now.geometry digit }
        ensures positive { 1 ≤ result }
        ensures bounded { result ≤ 131072 }
    {
        let size = match digit {
            Digit::Channel => self.geometry.channels,
            Digit::Rank => self.geometry.ranks,
            Digit::Group => self.geometry.groups,
            Digit::Bank => GROUP_BANKS,
            Digit::Column => self.geometry.columns / LINE_COLUMNS,
            Digit::Row => self.geometry.rows,
        };
        u64::from(size)
    }

    fn is_in_range(&self, place: Place) -> bool
        ensures { result ≡ in_range self.now.geometry place }
    {
        place.channel < self.geometry.channels
            && place.rank < self.geometry.ranks
            && place.group < self.geometry.groups
            && place.bank < GROUP_BANKS
            && place.row < self.geometry.rows
            && place.line < self.geometry.columns / LINE_COLUMNS
            && place.offset < LINE_BYTES as u32
    }

    // From the bank digit to the bank, and back: the bits of the row that are mixed in stay the same.
    fn with_bank_xor(&self, place: Place) -> Place
        ensures { result ≡ with_bank_xor self.now.geometry place }
    {
        if self.geometry.bank_xor {
            Place {
                bank: place.bank ^ (place.row % GROUP_BANKS),
                ..place
            }
        } else {
            place
        }
    }
}

// The bytes of the memory.
fn capacity(shape: &Geometry) -> u64
    ensures { result ≡ capacity_of shape.now }
{
    let groups = u64::from(shape.channels) * u64::from(shape.ranks) * u64::from(shape.groups);
    let banks = groups * u64::from(GROUP_BANKS);
    let lines = banks * u64::from(shape.columns / LINE_COLUMNS) * u64::from(shape.rows);
    LINE_BYTES as u64 * lines
}

// A part of a place, by the name of its digit.
fn digit_of(place: Place, digit: Digit) -> u32
    ensures { result ≡ digit_in place digit }
{
    match digit {
        Digit::Channel => place.channel,
        Digit::Rank => place.rank,
        Digit::Group => place.group,
        Digit::Bank => place.bank,
        Digit::Column => place.line,
        Digit::Row => place.row,
    }
}

// The place with another value of one digit.
fn with_digit(place: Place, digit: Digit, value: u32) -> Place
    ensures digits { (d : Digit) → digit_in result d ≡ (if same_digit d digit then value else digit_in place d) }
    ensures offset { result.offset ≡ place.offset }
{
    match digit {
        Digit::Channel => Place {
            channel: value,
            ..place
        },
        Digit::Rank => Place {
            rank: value,
            ..place
        },
        Digit::Group => Place {
            group: value,
            ..place
        },
        Digit::Bank => Place {
            bank: value,
            ..place
        },
        Digit::Column => Place {
            line: value,
            ..place
        },
        Digit::Row => Place {
            row: value,
            ..place
        },
    }
}
