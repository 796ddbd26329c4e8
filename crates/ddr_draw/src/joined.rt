//! The start of an input, and the whole of it joined again.
//!
//! `ddr_text` stands below, and `part` above.
ghost use Rattle.std.specs.Prelude.{◌≡◌, ◌≤◌, ◌⊎◌, IfErr, IfOk, IsErrOf, IsTrue, OnErr, length, true};
ghost use Rattle.std.specs.Io.{ReadsAtMost};
ghost use Rattle.std.specs.Io.KnownBytes.{ReadConsumes, prepend_known};
ghost use Rattle.ddr_draw.specs.Part.{IsStart};

use ddr_text::fault::Fault;
use ddr_text::input::LONGEST_INPUT;
use ddr_text::source::Source;
use std::alloc::Global;
use std::io;
use std::io::{ErrorKind, Read};

/// How many bytes are asked for at a time.
const CHUNK_BYTES: usize = 8192;

/// The start of an input.
#[derive(Drop)]
pub(crate) struct Start {
    pub bytes: Vec<u8>,
    /// Whether this is the whole input.
    pub is_whole: bool,
}

/// The bytes of an input, up to its end or until there are more than `LONGEST_INPUT`.
///
/// Fails as `Read` where the reader fails, but for an interruption, which is tried again, and as `OutOfMemory`.
pub(crate) fn read_start<R: Source>(alloc: Global, reader: &mut R) -> Result<Start, Fault>
    ensures start { IfOk result (λ start. IsStart (R.remaining reader.old) start (R.remaining reader.new)) }
    ensures short { IfOk result (λ start. start.is_whole ≡ true → length start.bytes.items ≤ LONGEST_INPUT) }
    ensures sure { IsErrOf result Fault.Read → IsTrue R.may_fail }
    ensures refused { IfErr result (λ fault. (fault ≡ Fault.Read) ⊎ (fault ≡ Fault.OutOfMemory)) }
{
    let mut bytes = Vec::new(alloc);
    let mut chunk = [0; CHUNK_BYTES];
    for _turn in 0..u64::MAX {
        if bytes.len() > LONGEST_INPUT {
            let is_whole = false;
            return Ok(Start { bytes, is_whole });
        }
        match reader.read_some(&mut chunk) {
            Ok(0) => {
                let is_whole = true;
                return Ok(Start { bytes, is_whole });
            }
            Ok(count) => bytes.extend_from_slice(&chunk[..count])?,
            Err(error) if error.kind() == ErrorKind::Interrupted => {}
            Err(_) => return Err(Fault::Read),
        }
    }
    Err(Fault::Read)
}

/// A reader behind bytes that were read of it.
#[derive(Drop)]
pub(crate) struct Joined<'a, R> {
    pub start: &'a [u8],
    pub reader: &'a mut R,
}

impl<R: Source> Read for Joined<'_, R> {
    ghost remaining = { λ joined. prepend_known joined.start.now (R.remaining joined.reader.now) };

    fn read(&mut self, buf: &mut [u8]) -> io::Result<usize>
        ensures bound { ReadsAtMost result buf.new }
        ensures bytes { ReadConsumes (prepend_known self.old.start.now (R.remaining self.old.reader.now)) (prepend_known self.new.start.now (R.remaining self.new.reader.now)) result buf.new }
        ensures sure { OnErr result (IsTrue R.may_fail) }
    {
        self.read_some(buf)
    }
}

impl<R: Source> Source for Joined<'_, R> {
    ghost may_fail = { R.may_fail };

    fn read_some(&mut self, buf: &mut [u8]) -> io::Result<usize> {
        if self.start.is_empty() {
            self.reader.read_some(buf)
        } else {
            self.start.read(buf)
        }
    }
}
