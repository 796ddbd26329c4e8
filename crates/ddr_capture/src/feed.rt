//! The lines of an input, found in one pass over it, with memory that does not grow.
//!
//! `ddr_text` stands below. A line ends with a line feed, and the last one may lack its end. A line is lent where it lies: what
//! was read and not yet found is moved only when more is read.
ghost use Rattle.std.specs.Prelude.{◌≡◌, ◌≤◌, ◌+◌, ◌<◌, ◌==◌, ◌++◌, [], Bool, IfErr, IfNone, IfOk, IfSome, IsErrOf, IsTrue, OnErr, OnOk, length, take, cond};
ghost use Rattle.std.specs.Io.{ReadsAtMost};
ghost use Rattle.std.specs.Io.KnownBytes.{Consumes, IsAtEnd, Keeps, ReadConsumes};
ghost use Rattle.std.specs.List.{position_or_len};
ghost use Rattle.std.specs.Str.Lines.{strip_carriage_return};
ghost use Rattle.ddr_capture.specs.declared.feed.Refusal.TheVariants.{OutOfMemory};
ghost use Rattle.ddr_capture.specs.Feed.{BeginsWith, HasFound, IsFound, IsRead, IsTooLong, IsWell, left, line_in, waiting};

use ddr_text::source::Source;
use memchr::memchr;
use std::alloc::{AllocError, Global};
use std::io::ErrorKind;

/// The most bytes of a line, without its end.
pub const LONGEST_LINE: usize = 4096;

/// The most lines that are read, so that each has a number.
pub const MOST_LINES: u64 = 0xffff_ffff_ffff_fffe;

/// How many bytes are asked for at a time.
const CHUNK_BYTES: usize = 8192;

/// The most bytes that are kept: those of a line with its end, and what was read at once behind them.
const MOST_KEPT: usize = 12_290;

/// The bytes that were read of an input, and where the last line that was found lies in them.
#[derive(Drop)]
pub struct Feed {
    buffer: Vec<u8>,
    /// Where the line begins.
    start: usize,
    /// Where it ends, without its line feed.
    end: usize,
    /// Where the bytes begin that wait.
    from: usize,
}

/// What was found of an input.
#[derive(Clone, Copy, Debug, PartialEq, Eq)]
pub enum Found {
    /// A line that a line feed ends.
    Line,
    /// The last line, which lacks its end.
    Last,
    /// Nothing: the input has ended.
    End,
}

/// Why no line was found.
#[derive(Clone, Copy, Debug, PartialEq, Eq)]
pub enum Refusal {
    /// The next line is longer than `LONGEST_LINE`.
    Line,
    Read,
    OutOfMemory,
}

impl From<AllocError> for Refusal {
    ghost from_gives = { λ _ e. e ≡ OutOfMemory };

    fn from(_error: AllocError) -> Refusal {
        Refusal::OutOfMemory
    }
}

impl Feed {
    /// A feed of which nothing was read.
    pub fn new(alloc: Global) -> Feed
        ensures well { IsWell result }
        ensures nothing { waiting result ≡ [] }
    {
        Feed {
            buffer: Vec::new(alloc),
            start: 0,
            end: 0,
            from: 0,
        }
    }

    /// The line that was found last.
    pub fn line(&self) -> &[u8]
        requires { IsWell self.now }
        ensures { result.now ≡ line_in self.now }
    {
        &self.buffer[self.start..self.end]
    }

    /// Finds the next line. Fails as `Line` where it is too long, as `Read` where the reader fails, but for an interruption, which
    /// is tried again, and as `OutOfMemory`.
    pub fn next<R: Source>(&mut self, reader: &mut R) -> Result<Found, Refusal>
        requires { IsWell self.old }
        ensures well { IsWell self.new }
        ensures found { IfOk result (λ found. HasFound found (line_in self.new) (left self.old (R.remaining reader.old)) (left self.new (R.remaining reader.new))) }
        ensures long { IsErrOf result Refusal.Line → IfSome (left self.old (R.remaining reader.old)) IsTooLong }
        ensures sure { IsErrOf result Refusal.Read → IsTrue R.may_fail }
    {
        'more: loop {
            if let Some(place) = feed_place(self.waiting()) {
                self.take_line(place);
                return Ok(Found::Line);
            }
            if self.buffer.len() - self.from > LONGEST_LINE + 1 {
                return Err(Refusal::Line);
            }
            if !self.read_more(reader)? {
                return Ok(self.take_last());
            }
        }
    }

    /// The bytes that wait.
    fn waiting(&self) -> &[u8]
        requires { IsWell self.now }
        ensures { result.now ≡ waiting self.now }
    {
        &self.buffer[self.from..]
    }

    /// Takes the line before the first line feed, which has this place.
    fn take_line(&mut self, place: usize)
        requires well { IsWell self.old }
        requires first { position_or_len (λ byte. byte == 10) (waiting self.old) ≡ place }
        requires within { place < length (waiting self.old) }
        ensures well { IsWell self.new }
        ensures taken { BeginsWith (waiting self.old) (line_in self.new) (waiting self.new) }
    {
        self.start = self.from;
        self.end = self.from + place;
        self.from = self.end + 1;
    }

    /// Takes what waits as the last line, unless nothing does.
    fn take_last(&mut self) -> Found
        requires well { IsWell self.old }
        requires none { position_or_len (λ byte. byte == 10) (waiting self.old) ≡ length (waiting self.old) }
        ensures well { IsWell self.new }
        ensures taken { IsFound result (waiting self.old) (line_in self.new) (waiting self.new) }
        ensures last { result ≡ Found.Line → ⊥ }
    {
        if self.from == self.buffer.len() {
            return Found::End;
        }
        self.start = self.from;
        self.end = self.buffer.len();
        self.from = self.end;
        Found::Last
    }

    /// Reads more behind what waits; answers whether there was more. Where memory is refused, what was read is lost.
    fn read_more<R: Source>(&mut self, reader: &mut R) -> Result<bool, Refusal>
        requires well { IsWell self.old }
        requires short { length (waiting self.old) ≤ LONGEST_LINE + 1 }
        ensures well { IsWell self.new }
        ensures kept { OnOk result (Keeps (left self.old (R.remaining reader.old)) (left self.new (R.remaining reader.new))) }
        ensures more { IfOk result (λ more. IsRead more (waiting self.old) (waiting self.new) (R.remaining reader.new)) }
        ensures sure { IsErrOf result Refusal.Read → IsTrue R.may_fail }
        ensures refused { ¬ IsErrOf result Refusal.Line }
    {
        let mut chunk = [0; CHUNK_BYTES];
        let count = read_once(reader, &mut chunk)?;
        self.move_to_front();
        self.buffer.extend_from_slice(&chunk[..count])?;
        Ok(count > 0)
    }

    /// Moves what waits to the front, over the lines that were found.
    fn move_to_front(&mut self)
        requires { IsWell self.old }
        ensures well { IsWell self.new }
        ensures front { self.new.buffer.items ≡ waiting self.old }
        ensures waits { waiting self.new ≡ waiting self.old }
    {
        let count = self.buffer.len() - self.from;
        self.buffer.copy_within(self.from.., 0);
        self.buffer.truncate(count);
        self.start = 0;
        self.end = 0;
        self.from = 0;
    }
}

/// Reads at most as many bytes as there is room for; an interruption is tried again.
fn read_once<R: Source>(reader: &mut R, room: &mut [u8]) -> Result<usize, Refusal>
    ensures bound { ReadsAtMost result room.new }
    ensures bytes { ReadConsumes (R.remaining reader.old) (R.remaining reader.new) result room.new }
    ensures sure { IsErrOf result Refusal.Read → IsTrue R.may_fail }
    ensures refused { IfErr result (λ refusal. refusal ≡ Refusal.Read) }
{
    for _turn in 0..u64::MAX {
        match reader.read_some(room) {
            Ok(count) => return Ok(count),
            Err(error) if error.kind() == ErrorKind::Interrupted => {}
            Err(_) => return Err(Refusal::Read),
        }
    }
    Err(Refusal::Read)
}

/// The place of the first line feed.
fn feed_place(text: &[u8]) -> Option<usize>
    ensures place { IfSome result (λ place. position_or_len (λ byte. byte == 10) text.now ≡ place) }
    ensures within { IfSome result (λ place. place < length text.now) }
    ensures none { IfNone result (position_or_len (λ byte. byte == 10) text.now ≡ length text.now) }
{
    memchr(b'\n', text)
}

/// A line without the carriage return at its end, if it has one.
pub fn without_return(line: &[u8]) -> &[u8]
    ensures { result.now ≡ strip_carriage_return line.now }
{
    if !line.is_empty() && line[line.len() - 1] == b'\r' {
        return &line[..line.len() - 1];
    }
    line
}
