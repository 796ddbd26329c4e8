//! What a host asks for.
ghost use Rattle.std.specs.Prelude.{◌≡◌, ◌+◌, ◌%◌, ◌≤◌, IsTrue, length};
ghost use Rattle.ddr_ports.specs.Asked.{Read, Write, Masked, asked_of, bits_from, first_address, kind_of, len_of, mask_of, line_of, line_with, is_within_line};

use ddr_address_map::request::{Kind, Line};
use ddr_timing::units::LINE_BYTES;

/// A read or a write of bytes of one line. It borrows the bytes that it writes.
#[derive(Clone, Copy, Debug)]
pub enum Request<'a> {
    /// Reads `len` bytes from an address on.
    Read {
        addr: u64,
        len: u32,
    },
    /// Writes these bytes from an address on.
    Write {
        addr: u64,
        bytes: &'a [u8],
    },
    /// Writes the bytes of the line that holds an address, as far as they are enabled: byte i where bit
    /// i of `enable` is set (JESD79-4, "Write Data Mask", with a set bit for a byte that is written).
    Masked {
        addr: u64,
        bytes: &'a Line,
        enable: u64,
    },
}

impl<'a> Request<'a> {
    /// A read of `len` bytes from an address on.
    pub fn read(addr: u64, len: u32) -> Request<'a>
        ensures { asked_of result ≡ Read addr len }
    {
        Request::Read { addr, len }
    }

    /// A write of these bytes from an address on.
    pub fn write(addr: u64, bytes: &'a [u8]) -> Request<'a>
        ensures { asked_of result ≡ Write addr bytes.now }
    {
        Request::Write { addr, bytes }
    }

    /// A write to the line that holds an address, of each byte whose bit of `enable` is set: bit i for
    /// byte i. With no bit set it changes nothing.
    pub fn masked(addr: u64, bytes: &'a Line, enable: u64) -> Request<'a>
        ensures { asked_of result ≡ Masked addr bytes.now enable }
    {
        Request::Masked {
            addr,
            bytes,
            enable,
        }
    }

    pub(crate) fn kind(&self) -> Kind
        ensures { result ≡ kind_of (asked_of self.now) }
    {
        match self {
            Request::Read { .. } => Kind::Read,
            Request::Write { .. } | Request::Masked { .. } => Kind::Write,
        }
    }

    /// The first address of what is read or written.
    pub(crate) fn first_address(&self) -> u64
        ensures { result ≡ first_address (asked_of self.now) }
    {
        match self {
            Request::Read { addr, .. } | Request::Write { addr, .. } => *addr,
            Request::Masked { addr, .. } => *addr - *addr % LINE_BYTES as u64,
        }
    }

    /// How many bytes are read or written.
    pub(crate) fn len(&self) -> usize
        ensures { result ≡ len_of (asked_of self.now) }
    {
        match self {
            Request::Read { len, .. } => *len as usize,
            Request::Write { bytes, .. } => bytes.len(),
            Request::Masked { .. } => LINE_BYTES,
        }
    }

    /// The data mask: bit i is set where byte i of the line is written.
    pub(crate) fn mask(&self) -> u64
        requires some { 1 ≤ len_of (asked_of self.now) }
        requires within { IsTrue (is_within_line (asked_of self.now)) }
        ensures { result ≡ mask_of (asked_of self.now) }
    {
        match self {
            Request::Read { .. } => 0,
            Request::Write { addr, bytes } => bits_from(offset(*addr), bytes.len()),
            Request::Masked { enable, .. } => *enable,
        }
    }

    /// The line of it: the bytes to be written in their places, and zeros in all others.
    pub(crate) fn line(&self) -> Line
        requires { IsTrue (is_within_line (asked_of self.now)) }
        ensures { result ≡ line_of (asked_of self.now) }
    {
        match self {
            Request::Read { .. } => [0; LINE_BYTES],
            Request::Write { addr, bytes } => line_with(offset(*addr), bytes),
            Request::Masked { bytes, .. } => **bytes,
        }
    }
}

/// The place of an address in its line.
fn offset(addr: u64) -> usize
    ensures { result ≡ addr % LINE_BYTES }
{
    (addr % LINE_BYTES as u64) as usize
}

/// So many set bits, from this place on.
fn bits_from(start: usize, count: usize) -> u64
    requires some { 1 ≤ count }
    requires within { start + count ≤ LINE_BYTES }
    ensures { result ≡ bits_from start count }
{
    (u64::MAX >> (LINE_BYTES - count)) << start
}

/// The line that has these bytes from this place on, and zeros elsewhere.
fn line_with(start: usize, bytes: &[u8]) -> Line
    requires { start + length bytes.now ≤ LINE_BYTES }
    ensures { result ≡ line_with start bytes.now }
{
    let mut line = [0; LINE_BYTES];
    line[start..start + bytes.len()].copy_from_slice(bytes);
    line
}
