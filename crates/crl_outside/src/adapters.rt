//! The trusted edge: std's readers as sources and std's writers as sinks.
//!
//! What a reader has left and a writer holds is what std says of it. A reader or a writer that std
//! says nothing of, as a terminal, is a source or a sink that doesn't tell its bytes.
ghost use Rattle.std.specs.Prelude.{◌≡◌};

use crate::Failed;
use crate::sink::Sink;
use crate::source::Source;
use std::io::{Read, Write};
use std::marker::Model;

/// A reader as a source. Each error of the reader is a fault, also one that a second try would
/// mend. A contract sees it as a `Counted` reader.
#[derive(Debug, Drop)]
pub struct ReadSource<R> {
    reader: R,
    faults: u64,
}

impl<R> Model for ReadSource<R> {
    ghost use Rattle.crl_outside.specs.Adapters.{Counted};

    ghost Value = { Counted R };

    ghost view = { λ s. record { device = s.reader; faults = s.faults } };
}

impl<R: Read> ReadSource<R> {
    /// A source of what the reader gives from here on.
    pub fn new(reader: R) -> ReadSource<R>
        ensures { result ≡ record { device = reader; faults = 0 } }
    {
        ReadSource { reader, faults: 0 }
    }
}

impl<R: Read> Source for ReadSource<R> {
    ghost left = { λ s. R.remaining s.device };

    ghost faults = { λ s. s.faults };

    fn pull(&mut self, into: &mut [u8]) -> Result<usize, Failed> {
        match self.reader.read(into) {
            Ok(count) => Ok(count),
            Err(_) => {
                self.faults = self.faults.saturating_add(1);
                Err(Failed)
            }
        }
    }
}

/// A writer as a sink. Each error of the writer is a fault, and so is each write that takes
/// nothing of a piece that isn't empty. A contract sees it as a `Counted` writer.
#[derive(Debug, Drop)]
pub struct WriteSink<W> {
    writer: W,
    faults: u64,
}

impl<W> Model for WriteSink<W> {
    ghost use Rattle.crl_outside.specs.Adapters.{Counted};

    ghost Value = { Counted W };

    ghost view = { λ s. record { device = s.writer; faults = s.faults } };
}

impl<W: Write> WriteSink<W> {
    /// A sink that writes behind what the writer holds.
    pub fn new(writer: W) -> WriteSink<W>
        ensures { result ≡ record { device = writer; faults = 0 } }
    {
        WriteSink { writer, faults: 0 }
    }
}

impl<W: Write> Sink for WriteSink<W> {
    ghost held = { λ s. W.contents s.device };

    ghost faults = { λ s. s.faults };

    fn push(&mut self, piece: &[u8]) -> Result<usize, Failed> {
        match self.writer.write(piece) {
            Ok(count) if count > 0 || piece.is_empty() => Ok(count),
            _ => {
                self.faults = self.faults.saturating_add(1);
                Err(Failed)
            }
        }
    }
}
