//! The configuration in front of a capture.
//!
//! `feed` and `ddr_text` stand below, and `capture` above.
ghost use Rattle.std.specs.Prelude.{◌≡◌, ◌+◌, ◌<◌, ◌≤◌, ◌⊎◌, ◌++◌, ◌∷◌, [], IfErr, IfOk, IfSome, IsErrOf, IsTrue, List, OnOk, Option, false, length, nat_lt, true, vec_len, ℕ};
ghost use Rattle.std.specs.Str.{bytes_eq};
ghost use Rattle.std.specs.Str.Lines.{strip_carriage_return};
ghost use Rattle.ddr_text.specs.Body.{HasConfigFault, IsConfig, is_mark};
ghost use Rattle.ddr_capture.specs.Feed.{Along, HasFound, IsWell, left};
ghost use Rattle.ddr_capture.specs.Front.{ComesFirst, IsConfigRefused, IsFront, IsFrontRefused, IsFrontStep, IsMarked, IsOpened, front_fault, is_last_long, last_fault};

use crate::feed::{Feed, Found, LONGEST_LINE, Refusal, without_return};
use ddr_text::fault::Fault;
use ddr_text::input::{LONGEST_INPUT, text_of};
use ddr_text::source::Source;
use ddr_timing::config::Config;
use ddr_timing::profile::PROFILE_S;
use std::alloc::Global;

/// The line that ends a configuration.
const MARK: &[u8] = b"---";

/// The configuration of an input, of which nothing was read: with `sample` the sample, and else what stands before the first
/// line `---`, behind which the input's lines then go on.
///
/// Fails as `InputTooLong` where the configuration is longer than `LONGEST_INPUT` or has too long a line, else as `InputHasNoMark`, else
/// as `InputNotUtf8`, and else by the first refusal of the configuration; as `Read` where the reader fails, and as `OutOfMemory`.
pub fn read_config<R: Source>(
    alloc: Global,
    sample: bool,
    feed: &mut Feed,
    reader: &mut R,
) -> Result<Config, Fault>
    requires { IsWell feed.old }
    ensures well { IsWell feed.new }
    ensures opened { IfOk result (λ config. Along (IsOpened sample PROFILE_S.now config) (left feed.old (R.remaining reader.old)) (left feed.new (R.remaining reader.new))) }
    ensures refused { IfErr result (λ fault. IfSome (left feed.old (R.remaining reader.old)) (λ input. IsConfigRefused sample PROFILE_S.now input fault)) }
    ensures first { IfErr result (λ fault. IfSome (left feed.old (R.remaining reader.old)) (λ input. ComesFirst sample input fault)) }
    ensures sure { IsErrOf result Fault.Read → IsTrue R.may_fail }
    ensures unwritten { ¬ IsErrOf result Fault.Write }
{
    if sample {
        return configuration(alloc, PROFILE_S);
    }
    let front = read_front(alloc, feed, reader)?;
    let text = text_of(front.as_slice())?;
    configuration(alloc, text)
}

/// The configuration that a text says.
fn configuration(alloc: Global, text: &str) -> Result<Config, Fault>
    ensures read { IfOk result (IsConfig text.now) }
    ensures refused { IfErr result (HasConfigFault text.now) }
    ensures unwritten { ¬ IsErrOf result Fault.Write }
{
    Ok(Config::read(alloc, text)?)
}

/// The bytes before the first line `---`.
fn read_front<R: Source>(alloc: Global, feed: &mut Feed, reader: &mut R) -> Result<Vec<u8>, Fault>
    requires { IsWell feed.old }
    ensures well { IsWell feed.new }
    ensures front { IfOk result (λ front. Along (IsMarked front.items) (left feed.old (R.remaining reader.old)) (left feed.new (R.remaining reader.new))) }
    ensures short { IfOk result (λ front. vec_len front ≤ LONGEST_INPUT) }
    ensures refused { IfErr result (λ fault. IfSome (left feed.old (R.remaining reader.old)) (λ input. IsFrontRefused input fault)) }
    ensures sure { IsErrOf result Fault.Read → IsTrue R.may_fail }
    ensures unwritten { ¬ IsErrOf result Fault.Write }
{
    let mut front = Vec::new(alloc);
    fill_front(feed, reader, &mut front)?;
    Ok(front)
}

/// Adds the lines before the mark.
fn fill_front<R: Source>(feed: &mut Feed, reader: &mut R, front: &mut Vec<u8>) -> Result<(), Fault>
    requires well { IsWell feed.old }
    requires nothing { front.old.items ≡ [] }
    ensures well { IsWell feed.new }
    ensures front { OnOk result (Along (IsMarked front.new.items) (left feed.old (R.remaining reader.old)) (left feed.new (R.remaining reader.new))) }
    ensures few { OnOk result (vec_len front.new ≤ LONGEST_INPUT) }
    ensures refused { IfErr result (λ fault. IfSome (left feed.old (R.remaining reader.old)) (λ input. IsFrontRefused input fault)) }
    ensures sure { IsErrOf result Fault.Read → IsTrue R.may_fail }
    ensures unwritten { ¬ IsErrOf result Fault.Write }
{
    'lines: loop {
        let marked = take_next(feed, reader, front)?;
        if marked {
            return Ok(());
        }
    }
}

/// Takes the next line; answers whether it is the mark.
fn take_next<R: Source>(feed: &mut Feed, reader: &mut R, front: &mut Vec<u8>) -> Result<bool, Fault>
    requires well { IsWell feed.old }
    requires few { vec_len front.old ≤ LONGEST_INPUT }
    ensures well { IsWell feed.new }
    ensures few { OnOk result (vec_len front.new ≤ LONGEST_INPUT) }
    ensures grows { IfOk result (λ marked. marked ≡ false → vec_len front.old < vec_len front.new) }
    ensures said { (a : Option (List ℕ)) → Along (IsFront front.old.items) a (left feed.old (R.remaining reader.old))
        → IsFrontStep a result front.new.items (left feed.new (R.remaining reader.new)) }
    ensures sure { IsErrOf result Fault.Read → IsTrue R.may_fail }
    ensures unwritten { ¬ IsErrOf result Fault.Write }
{
    match feed.next(reader) {
        Ok(found) => take_found(found, feed.line(), front),
        Err(refusal) => Err(front_fault(refusal)),
    }
}

/// Takes what was found; answers whether it is the mark.
fn take_found(found: Found, line: &[u8], front: &mut Vec<u8>) -> Result<bool, Fault>
    requires { vec_len front.old ≤ LONGEST_INPUT }
    ensures few { OnOk result (vec_len front.new ≤ LONGEST_INPUT) }
    ensures grows { IfOk result (λ marked. marked ≡ false → vec_len front.old < vec_len front.new) }
    ensures said { (a b c : Option (List ℕ)) → Along (IsFront front.old.items) a b → HasFound found line.now b c → IsFrontStep a result front.new.items c }
    ensures sure { ¬ IsErrOf result Fault.Read }
    ensures unwritten { ¬ IsErrOf result Fault.Write }
{
    match found {
        Found::Line => take_line(line, front),
        Found::Last => take_last(line, front.len()),
        Found::End => Err(Fault::InputHasNoMark),
    }
}

/// Takes a line that LF ends; answers whether it is the mark.
fn take_line(line: &[u8], front: &mut Vec<u8>) -> Result<bool, Fault>
    requires { vec_len front.old ≤ LONGEST_INPUT }
    ensures few { OnOk result (vec_len front.new ≤ LONGEST_INPUT) }
    ensures grows { IfOk result (λ marked. marked ≡ false → vec_len front.old < vec_len front.new) }
    ensures said { (a b c : Option (List ℕ)) → Along (IsFront front.old.items) a b → HasFound Found.Line line.now b c → IsFrontStep a result front.new.items c }
    ensures sure { ¬ IsErrOf result Fault.Read }
    ensures unwritten { ¬ IsErrOf result Fault.Write }
{
    if is_mark(line) {
        return Ok(true);
    }
    if is_wide(line) {
        return Err(Fault::InputTooLong);
    }
    match push_line(front, line) {
        Ok(()) => Ok(false),
        Err(fault) => Err(fault),
    }
}

/// Takes the last line, which lacks its end, behind so many bytes; answers whether it is the mark.
fn take_last(line: &[u8], before: usize) -> Result<bool, Fault>
    requires { before ≤ LONGEST_INPUT }
    ensures marked { IfOk result (λ marked. (marked ≡ true) × (bytes_eq line.now MARK.now ≡ true)) }
    ensures refused { IfErr result (λ fault. (fault ≡ last_fault before line.now) × (bytes_eq line.now MARK.now ≡ false)) }
{
    if line == MARK {
        return Ok(true);
    }
    if is_last_long(line, before) {
        return Err(Fault::InputTooLong);
    }
    Err(Fault::InputHasNoMark)
}

/// Whether the last line, which lacks its end and is not the mark, is too long behind so many bytes.
fn is_last_long(line: &[u8], before: usize) -> bool
    requires { before ≤ LONGEST_INPUT }
    ensures { result ≡ is_last_long before line.now }
{
    line.len() > LONGEST_LINE || before + line.len() > LONGEST_INPUT
}

/// Why no line was found in the configuration.
fn front_fault(refusal: Refusal) -> Fault
    ensures { result ≡ front_fault refusal }
{
    match refusal {
        Refusal::Line => Fault::InputTooLong,
        Refusal::Read => Fault::Read,
        Refusal::OutOfMemory => Fault::OutOfMemory,
    }
}

/// Whether a line that LF ends is the mark.
fn is_mark(line: &[u8]) -> bool
    ensures { result ≡ is_mark line.now }
{
    line == b"---".as_slice() || line == b"---\r".as_slice()
}

/// Whether a line is longer than one that is read.
fn is_wide(line: &[u8]) -> bool
    ensures { result ≡ nat_lt LONGEST_LINE (length (strip_carriage_return line.now)) }
{
    without_return(line).len() > LONGEST_LINE
}

/// Adds a line and its line feed, where the configuration does not grow too long.
fn push_line(front: &mut Vec<u8>, line: &[u8]) -> Result<(), Fault>
    requires { vec_len front.old ≤ LONGEST_INPUT }
    ensures items { OnOk result (front.new.items ≡ front.old.items ++ (line.now ++ 10 ∷ [])) }
    ensures few { OnOk result (vec_len front.new ≤ LONGEST_INPUT) }
    ensures long { IsErrOf result Fault.InputTooLong → LONGEST_INPUT < length front.old.items + (length line.now + 1) }
    ensures refused { IfErr result (λ fault. (fault ≡ Fault.InputTooLong) ⊎ (fault ≡ Fault.OutOfMemory)) }
{
    if line.len() + 1 > LONGEST_INPUT - front.len() {
        return Err(Fault::InputTooLong);
    }
    front.extend_from_slice(line)?;
    front.push(b'\n')?;
    Ok(())
}
