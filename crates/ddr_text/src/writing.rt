//! Text to a writer.
//!
//! `fault` and `sink` stand below; every command writes by this.
ghost use Rattle.std.specs.Prelude.{◌≡◌, IfErr, IsErrOf, IsTrue, OnOk};
ghost use Rattle.std.specs.Io.KnownBytes.{Appends, Keeps};
ghost use Rattle.ddr_text.specs.Sink.{write_fault};

use crate::fault::Fault;
use crate::sink::Sink;

/// Writes a part of what a command writes. Fails as `Write` where the writer may fail, after which some of it may have been
/// written, and else as `OutOfMemory`, and then none has.
pub fn write_text<W: Sink>(writer: &mut W, text: &str) -> Result<(), Fault>
    ensures written { OnOk result (Appends (W.contents writer.old) (W.contents writer.new) text.now) }
    ensures refused { IfErr result (λ fault. fault ≡ write_fault W.may_fail) }
    ensures spared { IsErrOf result Fault.OutOfMemory → W.contents writer.new ≡ W.contents writer.old }
{
    writer.write_bytes(text.as_bytes())
}

/// Gives on what was written. Fails as `Write`, where the writer may fail.
pub fn flush<W: Sink>(writer: &mut W) -> Result<(), Fault>
    ensures kept { OnOk result (Keeps (W.contents writer.old) (W.contents writer.new)) }
    ensures refused { IfErr result (λ fault. (fault ≡ Fault.Write) × IsTrue W.may_fail) }
{
    writer.flush_bytes()
}

/// Writes all that a command writes, as bytes, and flushes. Fails as `write_text` does.
pub fn write_bytes<W: Sink>(writer: &mut W, bytes: &[u8]) -> Result<(), Fault>
    ensures written { OnOk result (Appends (W.contents writer.old) (W.contents writer.new) bytes.now) }
    ensures refused { IfErr result (λ fault. fault ≡ write_fault W.may_fail) }
    ensures spared { IsErrOf result Fault.OutOfMemory → W.contents writer.new ≡ W.contents writer.old }
{
    writer.write_bytes(bytes)?;
    writer.flush_bytes()
}

/// Writes all that a command writes, and flushes. Fails as `write_text` does.
pub fn write_whole<W: Sink>(writer: &mut W, text: &str) -> Result<(), Fault>
    ensures written { OnOk result (Appends (W.contents writer.old) (W.contents writer.new) text.now) }
    ensures refused { IfErr result (λ fault. fault ≡ write_fault W.may_fail) }
    ensures spared { IsErrOf result Fault.OutOfMemory → W.contents writer.new ≡ W.contents writer.old }
{
    write_bytes(writer, text.as_bytes())
}
