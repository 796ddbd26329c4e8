//! Whether captured commands are legal: a configuration and the commands of all channels in, a verdict on each channel out.
//!
//! `form`, `front`, `feed`, `reading` and `report` stand below, and the program above. The input is read in one pass, and the memory that
//! it takes is that of the configuration and of the channels, however many commands there are.
ghost use Rattle.std.specs.Prelude.{◌≡◌, ◌≢◌, ℕ, ◌+◌, ◌<◌, ◌^◌, IfErr, IfOk, IfSome, IsErrOf, IsTrue, List, Option, false};
ghost use Rattle.ddr_timing.specs.declared.config.Config.{Config};
ghost use Rattle.ddr_judge.specs.Judged.{channels_of, commands_of};
ghost use Rattle.ddr_text.specs.Fault.{is_before_output};
ghost use Rattle.ddr_capture.specs.Capture.{AreJudged, HasCaptureFault, IsCaptured};
ghost use Rattle.ddr_capture.specs.Captured.{HasRead, Read};
ghost use Rattle.ddr_capture.specs.Feed.{Along, HasFound, IsWell, left};
ghost use Rattle.ddr_capture.specs.Form.{is_missing};
ghost use Rattle.ddr_capture.specs.Front.{ComesFirst};
ghost use Rattle.ddr_capture.specs.Lines.{AreRead, IsNext, IsReadFault, StandsAt, line_fault, text_of};

use crate::feed::{Feed, Found, MOST_LINES, Refusal, without_return};
use crate::form::Form;
use crate::front::read_config;
use crate::reading::Reading;
use crate::report::{are_legal, first_told, report, told_channels, verdicts};
use ddr_text::fault::{Fault, LineFault};
use ddr_text::sink::Sink;
use ddr_text::source::Source;
use ddr_text::writing::write_whole;
use ddr_timing::config::Config;
use ddr_timing::profile::PROFILE_S;
use std::alloc::Global;

/// Reads captured commands in this form, which begin in cycle `start`, and writes a line for each channel: `channel C legal`, or
/// `channel C fault PLACE RULE line N` for its first fault. Where the form names one channel, all commands are of that one, and it
/// alone is told; a line may name it or none. Else each line has to name its channel, unless there is one channel. In this
/// project's own form, which has one channel, `legal` or `fault PLACE RULE` is written. Answers whether all channels told are legal.
/// A place counts the commands of its channel from 0, and is their number where the trace's end is at fault; then no line is told.
/// The trace ends at END's cycle, and without END one cycle behind the last command.
///
/// With `sample` the whole input is captured commands, on the sample configuration; else the input is a configuration of either
/// version, a line `---` and the commands.
///
/// Fails as `InputHasNoMark`, as `InputTooLong` where what stands before the mark is longer than 16,777,216 bytes or has a line of
/// more than 4,096, or where there are 2^64 - 2 lines or more behind it, as `InputNotUtf8` where it is no text, by the first refusal
/// of the configuration, as `TraceNoSuch` where the one channel is not there, as `CaptureLine` at a line that is of no form, too long
/// or of a channel that is not there, and as `CaptureOrder` at an END that is not behind all commands and at what stands behind END;
/// as `Read` where the reader fails and as `Write` where the writer does, and so never over bytes in memory. Of several the first is
/// told: too long a front, for which the whole input counts where it has no mark, then the missing mark, a front that is no text, the
/// configuration's refusal, and what the lines are refused for. Nothing is written before the verdicts are there.
pub fn capture<R: Source, W: Sink>(
    alloc: Global,
    sample: bool,
    form: Form,
    start: u64,
    reader: &mut R,
    writer: &mut W,
) -> Result<bool, Fault>
    ensures untouched { IfErr result (λ fault. IsTrue (is_before_output fault) → writer.new ≡ writer.old) }
    ensures sure { IsErrOf result Fault.Read → IsTrue R.may_fail }
    ensures taken { IsErrOf result Fault.Write → IsTrue W.may_fail }
    ensures spared { IsErrOf result Fault.OutOfMemory → W.contents writer.new ≡ W.contents writer.old }
    ensures unmoved { IsErrOf result Fault.OutOfMemory → IsTrue W.may_fail → writer.new ≡ writer.old }
    ensures fault { IfErr result (λ fault. IfSome (R.remaining reader.old) (λ input.
        HasCaptureFault sample PROFILE_S.now form start input fault)) }
    ensures first { IfErr result (λ fault. IfSome (R.remaining reader.old) (λ input. ComesFirst sample input fault)) }
    ensures written { IfOk result (λ legal. IfSome (R.remaining reader.old) (λ input.
        IsCaptured sample PROFILE_S.now form start input legal (W.contents writer.old) (W.contents writer.new))) }
{
    let verdicts = judge_all(alloc, sample, form, start, reader)?;
    let text = report(alloc, form, verdicts.as_slice())?;
    write_whole(writer, text.as_str())?;
    Ok(are_legal(verdicts.as_slice()))
}

/// The verdicts on the channels that are told. Fails as `capture` does where the input can't be read, and never as `Write`.
fn judge_all<R: Source>(
    alloc: Global,
    sample: bool,
    form: Form,
    start: u64,
    reader: &mut R,
) -> Result<Vec<Option<ddr_judge::fault::Fault>>, Fault>
    ensures sure { IsErrOf result Fault.Read → IsTrue R.may_fail }
    ensures unwritten { ¬ IsErrOf result Fault.Write }
    ensures fault { IfErr result (λ fault. IfSome (R.remaining reader.old) (λ input.
        HasCaptureFault sample PROFILE_S.now form start input fault)) }
    ensures first { IfErr result (λ fault. IfSome (R.remaining reader.old) (λ input. ComesFirst sample input fault)) }
    ensures judged { IfOk result (λ v. IfSome (R.remaining reader.old) (λ input.
        AreJudged sample PROFILE_S.now form start input v.items)) }
{
    let mut feed = Feed::new(alloc);
    let config = read_config(alloc, sample, &mut feed, reader)?;
    if form.is_missing(config.geometry.channels) {
        return Err(Fault::TraceNoSuch);
    }
    let reading = read_lines(alloc, &config, form, start, &mut feed, reader)?;
    let first = first_told(form);
    let channels = told_channels(form, config.geometry.channels);
    let verdicts = verdicts(alloc, &reading.judge, first, channels, reading.last())?;
    Ok(verdicts)
}

/// Reads all lines that are left.
fn read_lines<R: Source>(
    alloc: Global,
    config: &Config,
    form: Form,
    start: u64,
    feed: &mut Feed,
    reader: &mut R,
) -> Result<Reading, Fault>
    requires well { IsWell feed.old }
    requires known { is_missing form config.now.geometry.channels ≡ false }
    ensures read { IfOk result (λ r. AreRead r config.now form start (left feed.old (R.remaining reader.old))) }
    ensures refused { IfErr result (λ fault. IfSome (left feed.old (R.remaining reader.old)) (λ body. IsReadFault form config.now start body fault)) }
    ensures sure { IsErrOf result Fault.Read → IsTrue R.may_fail }
    ensures unwritten { ¬ IsErrOf result Fault.Write }
{
    let mut reading = Reading::new(alloc, config, form, start)?;
    for count in 0..MOST_LINES {
        let ended = take_next(&mut reading, count, feed, reader)?;
        if ended {
            return Ok(reading);
        }
    }
    Err(Fault::InputTooLong)
}

/// Takes the line behind so many; answers whether the input ended before it.
fn take_next<R: Source>(
    reading: &mut Reading,
    count: u64,
    feed: &mut Feed,
    reader: &mut R,
) -> Result<bool, Fault>
    requires well { IsWell feed.old }
    requires known { is_missing reading.old.form reading.old.channels ≡ false }
    requires there { channels_of reading.old.judge ≡ reading.old.channels }
    requires countable { (channel : ℕ) → channel < channels_of reading.old.judge → commands_of reading.old.judge channel + 1 < 2 ^ 64 }
    requires few { count < MOST_LINES }
    ensures well { IsWell feed.new }
    ensures form { reading.new.form ≡ reading.old.form }
    ensures channels { reading.new.channels ≡ reading.old.channels }
    ensures there { channels_of reading.new.judge ≡ reading.new.channels }
    ensures said { (config : Config) (start : ℕ) (read : Read) (a : Option (List ℕ)) → reading.old.channels ≡ config.geometry.channels → HasRead reading.old config start read
        → Along (StandsAt reading.old.form config start count read) a (left feed.old (R.remaining reader.old))
        → IsNext reading.new reading.old.form config start count read a (left feed.new (R.remaining reader.new)) result }
    ensures sure { IsErrOf result Fault.Read → IsTrue R.may_fail }
    ensures unwritten { ¬ IsErrOf result Fault.Write }
{
    match feed.next(reader) {
        Ok(found) => take_found(reading, count, found, feed.line()),
        Err(refusal) => Err(line_fault(count + 1, refusal)),
    }
}

/// Takes what was found behind so many lines; answers whether that is the end.
fn take_found(reading: &mut Reading, count: u64, found: Found, line: &[u8]) -> Result<bool, Fault>
    requires known { is_missing reading.old.form reading.old.channels ≡ false }
    requires there { channels_of reading.old.judge ≡ reading.old.channels }
    requires countable { (channel : ℕ) → channel < channels_of reading.old.judge → commands_of reading.old.judge channel + 1 < 2 ^ 64 }
    requires few { count < MOST_LINES }
    ensures form { reading.new.form ≡ reading.old.form }
    ensures channels { reading.new.channels ≡ reading.old.channels }
    ensures there { channels_of reading.new.judge ≡ reading.new.channels }
    ensures said { (config : Config) (start : ℕ) (read : Read) (a b c : Option (List ℕ)) → reading.old.channels ≡ config.geometry.channels → HasRead reading.old config start read
        → Along (StandsAt reading.old.form config start count read) a b → HasFound found line.now b c
        → IsNext reading.new reading.old.form config start count read a c result }
    ensures sure { ¬ IsErrOf result Fault.Read }
    ensures unwritten { ¬ IsErrOf result Fault.Write }
{
    match found {
        Found::Line => take_text(reading, count, without_return(line)),
        Found::Last => take_text(reading, count, line),
        Found::End => Ok(true),
    }
}

/// Takes the text of the line behind so many; answers false, since that is not the end.
fn take_text(reading: &mut Reading, count: u64, text: &[u8]) -> Result<bool, Fault>
    requires known { is_missing reading.old.form reading.old.channels ≡ false }
    requires there { channels_of reading.old.judge ≡ reading.old.channels }
    requires countable { (channel : ℕ) → channel < channels_of reading.old.judge → commands_of reading.old.judge channel + 1 < 2 ^ 64 }
    requires few { count < MOST_LINES }
    ensures form { reading.new.form ≡ reading.old.form }
    ensures channels { reading.new.channels ≡ reading.old.channels }
    ensures there { channels_of reading.new.judge ≡ reading.new.channels }
    ensures said { (config : Config) (start : ℕ) (read : Read) (a b c : Option (List ℕ)) (f : Found) (line : List ℕ) → reading.old.channels ≡ config.geometry.channels → HasRead reading.old config start read
        → Along (StandsAt reading.old.form config start count read) a b → HasFound f line b c → f ≢ Found.End → text.now ≡ text_of f line
        → IsNext reading.new reading.old.form config start count read a c result }
    ensures sure { ¬ IsErrOf result Fault.Read }
    ensures unwritten { ¬ IsErrOf result Fault.Write }
{
    match reading.take_line(count + 1, text) {
        Ok(()) => Ok(false),
        Err(fault) => Err(fault),
    }
}

/// Why the line of this number was not found.
fn line_fault(line: u64, refusal: Refusal) -> Fault
    ensures { result ≡ line_fault line refusal }
{
    match refusal {
        Refusal::Line => Fault::CaptureLine {
            line,
            cause: LineFault::TooLong,
        },
        Refusal::Read => Fault::Read,
        Refusal::OutOfMemory => Fault::OutOfMemory,
    }
}
