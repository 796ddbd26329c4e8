//! Where an output goes: bytes in memory, or a writer that may fail.
//!
//! `fault` and `source`, which has `Device`, stand below; `writing` writes to it.
ghost use Rattle.std.specs.Prelude.{◌≡◌, Bool, IfErr, IsErrOf, IsTrue, OnOk, false, true};
ghost use Rattle.std.specs.Io.KnownBytes.{Appends, Keeps};
ghost use Rattle.ddr_text.specs.Sink.{write_fault};

use crate::fault::Fault;
use crate::source::Device;
use std::io;
use std::io::Write;

/// A writer of which it is known whether it may fail.
pub trait Sink: Write {
    /// Whether a call may fail for another cause than want of memory. One to bytes in memory doesn't.
    ghost may_fail: { Bool };

    /// Writes all these bytes. A writer that may fail fails as `Write`, after which some of them may have been written;
    /// one over memory fails as `OutOfMemory`, and then none has.
    fn write_bytes(&mut self, bytes: &[u8]) -> Result<(), Fault>
        ensures written { OnOk result (Appends (Self.contents self.old) (Self.contents self.new) bytes.now) }
        ensures refused { IfErr result (λ fault. fault ≡ write_fault may_fail) }
        ensures spared { IsErrOf result Fault.OutOfMemory → Self.contents self.new ≡ Self.contents self.old };

    /// Gives on what was written. Fails as `Write`, and never where the writer doesn't fail.
    fn flush_bytes(&mut self) -> Result<(), Fault>
        ensures kept { OnOk result (Keeps (Self.contents self.old) (Self.contents self.new)) }
        ensures refused { IfErr result (λ fault. (fault ≡ Fault.Write) × IsTrue may_fail) };
}

impl Sink for Vec<u8> {
    ghost may_fail = { false };

    fn write_bytes(&mut self, bytes: &[u8]) -> Result<(), Fault> {
        self.extend_from_slice(bytes)?;
        Ok(())
    }

    fn flush_bytes(&mut self) -> Result<(), Fault> {
        Ok(())
    }
}

impl<W: Write> Write for Device<W> {
    ghost contents = { λ device. W.contents device.0 };

    fn write(&mut self, buf: &[u8]) -> io::Result<usize> {
        self.0.write(buf)
    }

    fn flush(&mut self) -> io::Result<()> {
        self.0.flush()
    }

    fn write_all(&mut self, buf: &[u8]) -> io::Result<()> {
        self.0.write_all(buf)
    }
}

impl<W: Write> Sink for Device<W> {
    ghost may_fail = { true };

    fn write_bytes(&mut self, bytes: &[u8]) -> Result<(), Fault> {
        match self.write_all(bytes) {
            Ok(()) => Ok(()),
            Err(_) => Err(Fault::Write),
        }
    }

    fn flush_bytes(&mut self) -> Result<(), Fault> {
        match self.flush() {
            Ok(()) => Ok(()),
            Err(_) => Err(Fault::Write),
        }
    }
}
