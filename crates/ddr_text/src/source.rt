//! Where an input comes from: bytes in memory, or a reader that may fail.
//!
//! Nothing of the program stands below; `input` reads from it, and `sink` writes to a `Device`.
ghost use Rattle.std.specs.Prelude.{Bool, IsTrue, OnErr, false, true};
ghost use Rattle.std.specs.Io.{ReadsAtMost};
ghost use Rattle.std.specs.Io.KnownBytes.{ReadConsumes};

use std::io;
use std::io::Read;

/// A reader of which it is known whether it may fail.
pub trait Source: Read {
    /// Whether a call may fail. One on bytes in memory doesn't.
    ghost may_fail: { Bool };

    /// Reads as `Read::read` does.
    fn read_some(&mut self, buf: &mut [u8]) -> io::Result<usize>
        ensures bound { ReadsAtMost result buf.new }
        ensures bytes { ReadConsumes (Self.remaining self.old) (Self.remaining self.new) result buf.new }
        ensures sure { OnErr result (IsTrue may_fail) };
}

impl Source for &[u8] {
    ghost may_fail = { false };

    fn read_some(&mut self, buf: &mut [u8]) -> io::Result<usize> {
        self.read(buf)
    }
}

/// A file, a terminal or another reader or writer that may fail.
#[derive(Drop)]
pub struct Device<R>(pub R);

impl<R: Read> Read for Device<R> {
    ghost remaining = { λ device. R.remaining device.0 };

    fn read(&mut self, buf: &mut [u8]) -> io::Result<usize> {
        self.0.read(buf)
    }
}

impl<R: Read> Source for Device<R> {
    ghost may_fail = { true };

    fn read_some(&mut self, buf: &mut [u8]) -> io::Result<usize> {
        self.read(buf)
    }
}
