//! A trace as text: it is written and read, each once more where memory was refused.
use super::Met;
use crate::entries::{act, is_trace, rd, wr};
use crate::layers::again;
use ddr_trace::command::Entry;
use ddr_trace::trace::Trace;
use ddr_trace_text::reader::read_trace;
use ddr_trace_text::text::{TraceError, write_trace};
use std::alloc::{AllocError, Global};

/// A write and a read of one line: the write RCD behind the ACT, the read WTR_L behind the write's data.
fn entries() -> [Entry; 3] {
    [act(0, 0), wr(4, 0, 0), rd(15, 0, 0)]
}

/// The text of the trace. A vector fails as a writer only where it gets no memory. Anything else is answered as no text.
fn written(alloc: Global) -> Result<Option<Vec<u8>>, AllocError> {
    let mut text = Vec::new(alloc);
    match write_trace(alloc, &entries(), 24, &mut text) {
        Ok(()) => Ok(Some(text)),
        Err(TraceError::OutOfMemory | TraceError::Write) => Err(AllocError),
        Err(_) => Ok(None),
    }
}

/// The trace of a text. Anything but want of memory is answered as no trace.
fn read(alloc: Global, text: &[u8]) -> Result<Option<Trace>, AllocError> {
    match read_trace(alloc, text) {
        Ok(trace) => Ok(Some(trace)),
        Err(TraceError::OutOfMemory) => Err(AllocError),
        Err(_) => Ok(None),
    }
}

/// The trace of a text, read once more where memory was refused, and whether it was.
fn read_again(alloc: Global, text: &[u8]) -> Result<(Option<Trace>, bool), AllocError> {
    match read(alloc, text) {
        Ok(trace) => Ok((trace, false)),
        Err(_) => {
            let trace = read(alloc, text)?;
            Ok((trace, true))
        }
    }
}

/// `write_trace` of three commands, and `read_trace` of what it wrote.
pub fn trace(alloc: Global) -> Met {
    let (text, first) = again(|| written(alloc))?;
    let Some(text) = text else {
        return Err("a trace written");
    };
    let Ok((trace, second)) = read_again(alloc, text.as_slice()) else {
        return Err("a text read again");
    };
    let Some(trace) = trace else {
        return Err("a trace read");
    };
    if is_trace(&trace, &entries(), 24) {
        Ok(first || second)
    } else {
        Err("the trace that was written")
    }
}
