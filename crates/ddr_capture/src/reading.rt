//! What is kept of a capture while its lines are read.
//!
//! `line` and `form` stand below, and `ddr_judge`, which judges the commands; `capture` stands above.
ghost use Rattle.std.specs.Prelude.{◌≡◌, ℕ, ◌+◌, ◌<◌, ◌≤◌, ◌==◌, ◌^◌, IfErr, IfOk, None, false};
ghost use Rattle.ddr_timing.specs.declared.config.Config.{Config};
ghost use Rattle.ddr_judge.specs.Judged.{channels_of, commands_of};
ghost use Rattle.ddr_text.specs.Script.{is_skipped};
ghost use Rattle.ddr_capture.specs.Captured.{HasRead, IsLineFault, IsStep, Read, end_in, nothing, with_closed, with_command, with_end, with_line, with_open, with_said};
ghost use Rattle.ddr_capture.specs.Form.{is_missing};
ghost use Rattle.ddr_capture.specs.Line.{IsEarly};

use crate::feed::LONGEST_LINE;
use crate::form::Form;
use crate::line::{Said, is_skipped, read_line};
use ddr_judge::judge::Judge;
use ddr_text::fault::{Fault, LineFault};
use ddr_timing::config::Config;
use ddr_trace::command::Entry;
use std::alloc::{AllocError, Global};

/// What is kept of the lines so far. Contracts speak of every `Read` for which it stands.
#[derive(Drop)]
pub(crate) struct Reading {
    pub form: Form,
    /// How many channels there are.
    pub channels: u32,
    pub judge: Judge,
    /// The cycle of END, where it stood.
    pub end: Option<u64>,
}

impl Reading {
    /// Before the first line.
    pub(crate) fn new(
        alloc: Global,
        config: &Config,
        form: Form,
        start: u64,
    ) -> Result<Reading, AllocError>
        ensures form { IfOk result (λ r. r.form ≡ form) }
        ensures channels { IfOk result (λ r. r.channels ≡ config.now.geometry.channels) }
        ensures there { IfOk result (λ r. channels_of r.judge ≡ r.channels) }
        ensures read { IfOk result (λ r. HasRead r config.now start nothing) }
    {
        Ok(Reading {
            form,
            channels: config.geometry.channels,
            judge: Judge::open(alloc, config, start)?,
            end: None,
        })
    }

    /// The cycle at which the trace ends: that of END, or else the first one behind every command.
    pub(crate) fn last(&self) -> u64
        ensures { (config : Config) (start : ℕ) (read : Read) → HasRead self.now config start read → result ≡ end_in start read }
    {
        match self.end {
            Some(cycle) => cycle,
            None => self.judge.end(),
        }
    }

    /// Takes the line of this number. Fails as `CaptureLine` and as `CaptureOrder`.
    pub(crate) fn take_line(&mut self, line: u64, text: &[u8]) -> Result<(), Fault>
        requires known { is_missing self.old.form self.old.channels ≡ false }
        requires there { channels_of self.old.judge ≡ self.old.channels }
        requires countable { (channel : ℕ) → channel < channels_of self.old.judge → commands_of self.old.judge channel + 1 < 2 ^ 64 }
        ensures form { self.new.form ≡ self.old.form }
        ensures channels { self.new.channels ≡ self.old.channels }
        ensures there { channels_of self.new.judge ≡ self.new.channels }
        ensures refused { IfErr result (IsLineFault line) }
        ensures said { (config : Config) (start : ℕ) (read : Read) → HasRead self.old config start read
            → IsStep self.new config start read result (with_line self.old.form self.old.channels start line read text.now) }
    {
        if text.len() > LONGEST_LINE {
            return Err(Fault::CaptureLine {
                line,
                cause: LineFault::TooLong,
            });
        }
        if self.end.is_some() {
            return self.take_closed(line, text);
        }
        self.take_open(line, text)
    }

    /// Takes a line that END stands before.
    fn take_closed(&self, line: u64, text: &[u8]) -> Result<(), Fault>
        ensures refused { IfErr result (IsLineFault line) }
        ensures said { (config : Config) (start : ℕ) (read : Read) → HasRead self.now config start read
            → IsStep self.now config start read result (with_closed line read text.now) }
    {
        if is_skipped(text) {
            return Ok(());
        }
        Err(Fault::CaptureOrder { line })
    }

    /// Takes a line that END does not stand before.
    fn take_open(&mut self, line: u64, text: &[u8]) -> Result<(), Fault>
        requires open { self.old.end ≡ None }
        requires known { is_missing self.old.form self.old.channels ≡ false }
        requires there { channels_of self.old.judge ≡ self.old.channels }
        requires countable { (channel : ℕ) → channel < channels_of self.old.judge → commands_of self.old.judge channel + 1 < 2 ^ 64 }
        ensures form { self.new.form ≡ self.old.form }
        ensures channels { self.new.channels ≡ self.old.channels }
        ensures there { channels_of self.new.judge ≡ self.new.channels }
        ensures refused { IfErr result (IsLineFault line) }
        ensures said { (config : Config) (start : ℕ) (read : Read) → HasRead self.old config start read
            → IsStep self.new config start read result (with_open self.old.form self.old.channels start line read text.now) }
    {
        match read_line(self.form.format, line == 1, text) {
            Ok(said) => self.take_said(line, said),
            Err(cause) => Err(Fault::CaptureLine { line, cause }),
        }
    }

    /// Takes what a line says.
    fn take_said(&mut self, line: u64, said: Said) -> Result<(), Fault>
        requires open { self.old.end ≡ None }
        requires known { is_missing self.old.form self.old.channels ≡ false }
        requires there { channels_of self.old.judge ≡ self.old.channels }
        requires countable { (channel : ℕ) → channel < channels_of self.old.judge → commands_of self.old.judge channel + 1 < 2 ^ 64 }
        requires early { IsEarly said }
        ensures form { self.new.form ≡ self.old.form }
        ensures channels { self.new.channels ≡ self.old.channels }
        ensures there { channels_of self.new.judge ≡ self.new.channels }
        ensures refused { IfErr result (IsLineFault line) }
        ensures said { (config : Config) (start : ℕ) (read : Read) → HasRead self.old config start read
            → IsStep self.new config start read result (with_said self.old.form self.old.channels start line read said) }
    {
        match said {
            Said::Nothing => Ok(()),
            Said::Command { channel, entry } => self.take_command(line, channel, &entry),
            Said::End(cycle) => self.take_end(line, cycle),
        }
    }

    /// Takes a command, where the channel that its line names is there.
    fn take_command(&mut self, line: u64, named: Option<u32>, entry: &Entry) -> Result<(), Fault>
        requires open { self.old.end ≡ None }
        requires known { is_missing self.old.form self.old.channels ≡ false }
        requires there { channels_of self.old.judge ≡ self.old.channels }
        requires countable { (channel : ℕ) → channel < channels_of self.old.judge → commands_of self.old.judge channel + 1 < 2 ^ 64 }
        requires early { entry.now.cycle ≤ 2 ^ 62 }
        ensures form { self.new.form ≡ self.old.form }
        ensures channels { self.new.channels ≡ self.old.channels }
        ensures there { channels_of self.new.judge ≡ self.new.channels }
        ensures refused { IfErr result (IsLineFault line) }
        ensures said { (config : Config) (start : ℕ) (read : Read) → HasRead self.old config start read
            → IsStep self.new config start read result (with_command self.old.form self.old.channels line read named entry.now) }
    {
        match self.form.channel_of(self.channels, named) {
            Ok(channel) => {
                self.judge.pass(channel, entry, line);
                Ok(())
            }
            Err(cause) => Err(Fault::CaptureLine { line, cause }),
        }
    }

    /// Takes END, where it stands behind all commands.
    fn take_end(&mut self, line: u64, cycle: u64) -> Result<(), Fault>
        requires open { self.old.end ≡ None }
        requires there { channels_of self.old.judge ≡ self.old.channels }
        ensures form { self.new.form ≡ self.old.form }
        ensures channels { self.new.channels ≡ self.old.channels }
        ensures there { channels_of self.new.judge ≡ self.new.channels }
        ensures refused { IfErr result (IsLineFault line) }
        ensures said { (config : Config) (start : ℕ) (read : Read) → HasRead self.old config start read
            → IsStep self.new config start read result (with_end start line read cycle) }
    {
        if cycle < self.judge.end() {
            return Err(Fault::CaptureOrder { line });
        }
        self.end = Some(cycle);
        Ok(())
    }
}
