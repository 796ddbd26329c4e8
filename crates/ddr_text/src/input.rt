//! The whole input as a text.
//!
//! `fault` and `source` stand below; every command reads its input by this.
ghost use Rattle.std.specs.Prelude.{◌≡◌, ◌+◌, ◌<◌, ◌≤◌, ◌⊎◌, ◌++◌, IfOk, IfErr, IfSome, IsErrOf, IsTrue, OnOk, length, vec_len};
ghost use Rattle.ddr_text.specs.Input.{IsNoText, IsText, IsTooLong};

use crate::fault::Fault;
use crate::source::{Device, Source};
use std::alloc::Global;
use std::io::{ErrorKind, Read};
use std::str;

/// The most bytes that an input has, this project's choice.
pub const LONGEST_INPUT: usize = 16_777_216;

/// How many bytes are asked for at a time.
const CHUNK_BYTES: usize = 8192;

/// All that a reader gives which may fail, to its end; otherwise as `read_source`.
pub fn read_input<R: Read>(alloc: Global, reader: &mut R) -> Result<Vec<u8>, Fault>
    ensures all { IfOk result (λ v. IfSome (R.remaining reader.old) (λ bytes. v.items ≡ bytes)) }
    ensures short { IfOk result (λ v. length v.items ≤ LONGEST_INPUT) }
    ensures long { IsErrOf result Fault.InputTooLong → IfSome (R.remaining reader.old) IsTooLong }
    ensures refused { IfErr result (λ fault. (fault ≡ Fault.InputTooLong) ⊎ (fault ≡ Fault.Read) ⊎ (fault ≡ Fault.OutOfMemory)) }
{
    read_source(alloc, &mut Device(reader))
}

/// All that the reader gives, to its end.
///
/// Fails as `InputTooLong` once it has given more than `LONGEST_INPUT` bytes, and asks for no more then, so
/// a reader that never ends is one of these; as `Read` where the reader fails, but for an interruption,
/// which is tried again, and so never over bytes in memory; and as `OutOfMemory`.
pub fn read_source<R: Source>(alloc: Global, reader: &mut R) -> Result<Vec<u8>, Fault>
    ensures all { IfOk result (λ v. IfSome (R.remaining reader.old) (λ bytes. v.items ≡ bytes)) }
    ensures short { IfOk result (λ v. length v.items ≤ LONGEST_INPUT) }
    ensures long { IsErrOf result Fault.InputTooLong → IfSome (R.remaining reader.old) IsTooLong }
    ensures sure { IsErrOf result Fault.Read → IsTrue R.may_fail }
    ensures refused { IfErr result (λ fault. (fault ≡ Fault.InputTooLong) ⊎ (fault ≡ Fault.Read) ⊎ (fault ≡ Fault.OutOfMemory)) }
{
    read_at_most(alloc, LONGEST_INPUT, reader)
}

/// All that the reader gives, to its end, where that is at most so many bytes; otherwise as `read_source`.
#[tactic(auto, using(crate::proofs::Inputs::all_taken, crate::proofs::Inputs::more_taken))]
pub fn read_at_most<R: Source>(alloc: Global, most: usize, reader: &mut R) -> Result<Vec<u8>, Fault>
    ensures all { IfOk result (λ v. IfSome (R.remaining reader.old) (λ bytes. v.items ≡ bytes)) }
    ensures short { IfOk result (λ v. length v.items ≤ most) }
    ensures long { IsErrOf result Fault.InputTooLong → IfSome (R.remaining reader.old) (λ bytes. most < length bytes) }
    ensures sure { IsErrOf result Fault.Read → IsTrue R.may_fail }
    ensures refused { IfErr result (λ fault. (fault ≡ Fault.InputTooLong) ⊎ (fault ≡ Fault.Read) ⊎ (fault ≡ Fault.OutOfMemory)) }
{
    let mut input = Vec::new(alloc);
    let mut chunk = [0; CHUNK_BYTES];
    for _turn in 0..u64::MAX {
        match reader.read_some(&mut chunk) {
            Ok(0) => return Ok(input),
            Ok(count) => push_chunk(most, &mut input, &chunk[..count])?,
            Err(error) if error.kind() == ErrorKind::Interrupted => {}
            Err(_) => return Err(Fault::Read),
        }
    }
    Err(Fault::Read)
}

/// Adds the bytes to the input, where it does not grow too long.
fn push_chunk(most: usize, input: &mut Vec<u8>, bytes: &[u8]) -> Result<(), Fault>
    requires { vec_len input.old ≤ most }
    ensures items { OnOk result (input.new.items ≡ input.old.items ++ bytes.now) }
    ensures short { OnOk result (vec_len input.new ≤ most) }
    ensures long { IsErrOf result Fault.InputTooLong → most < vec_len input.old + length bytes.now }
    ensures refused { IfErr result (λ fault. (fault ≡ Fault.InputTooLong) ⊎ (fault ≡ Fault.OutOfMemory)) }
{
    if bytes.len() > most - input.len() {
        return Err(Fault::InputTooLong);
    }
    input.extend_from_slice(bytes)?;
    Ok(())
}

/// The text that the bytes of a whole input encode. Fails as `InputNotUtf8` where they encode none.
pub fn text_of(bytes: &[u8]) -> Result<&str, Fault>
    requires { length bytes.now ≤ LONGEST_INPUT }
    ensures text { IfOk result (λ text. (text.now ≡ bytes.now) × IsText bytes.now) }
    ensures refused { IfErr result (λ fault. (fault ≡ Fault.InputNotUtf8) × IsNoText bytes.now) }
{
    str::from_utf8(bytes).map_err(|_| Fault::InputNotUtf8)
}
