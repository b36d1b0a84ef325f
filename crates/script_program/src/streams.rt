//! A reader and a writer as streams of a replay.
ghost use Rattle.std.specs.Prelude.{◌≡◌, false};
ghost use Rattle.std.specs.Io.KnownBytes.{Keeps};
ghost use Rattle.sock_pair.specs.ReplayStreams.{NotesFault};

use sock_pair::script::{Sink, Source, StreamFault};
use std::io::{Read, Write};

/// A reader, and whether it has failed.
#[derive(Drop)]
pub struct Input<R> {
    reader: R,
    failed: bool,
}

impl<R> Input<R> {
    /// A reader that has not failed.
    pub fn new(reader: R) -> Input<R>
        ensures { result.failed ≡ false }
    {
        Input {
            reader,
            failed: false,
        }
    }
}

impl<R: Read> Source for Input<R> {
    ghost remaining = { λ s. R.remaining s.reader };

    ghost has_failed = { λ s. s.failed };

    fn read(&mut self, buf: &mut [u8]) -> Result<usize, StreamFault> {
        match self.reader.read(buf) {
            Ok(count) => Ok(count),
            Err(_) => {
                self.failed = true;
                Err(StreamFault)
            }
        }
    }

    fn failed(&self) -> bool {
        self.failed
    }
}

/// A writer, and whether it has failed.
#[derive(Drop)]
pub struct Output<W> {
    writer: W,
    failed: bool,
}

impl<W> Output<W> {
    /// A writer that has not failed.
    pub fn new(writer: W) -> Output<W>
        ensures { result.failed ≡ false }
    {
        Output {
            writer,
            failed: false,
        }
    }
}

impl<W: Write> Output<W> {
    /// Writes out what the writer holds back.
    pub fn flush(&mut self) -> Result<(), StreamFault>
        ensures bytes { Keeps (W.contents self.old.writer) (W.contents self.new.writer) }
        ensures failed { NotesFault self.old.failed result self.new.failed }
    {
        match self.writer.flush() {
            Ok(()) => Ok(()),
            Err(_) => {
                self.failed = true;
                Err(StreamFault)
            }
        }
    }
}

impl<W: Write> Sink for Output<W> {
    ghost contents = { λ s. W.contents s.writer };

    ghost has_failed = { λ s. s.failed };

    fn write_all(&mut self, bytes: &[u8]) -> Result<(), StreamFault> {
        match self.writer.write_all(bytes) {
            Ok(()) => Ok(()),
            Err(_) => {
                self.failed = true;
                Err(StreamFault)
            }
        }
    }

    fn failed(&self) -> bool {
        self.failed
    }
}
