//! Where a script comes from, and where its output goes.
ghost use Rattle.std.specs.Prelude.{◌≡◌, Bool, List, ℕ, Option, None, OnOk};
ghost use Rattle.std.specs.Io.{ReadsAtMost};
ghost use Rattle.std.specs.Io.KnownBytes.{Appends, ReadConsumes};
ghost use Rattle.sock_pair.specs.ReplayStreams.{NotesFault};

/// A read or a write that failed. It has no text: its caller says which stream it was.
#[derive(Debug, Clone, Copy, PartialEq, Eq)]
pub struct StreamFault;

/// Bytes to be read in turn.
pub trait Source {
    // The bytes that reads will give from here on, where the source tells them.
    ghost remaining: { Self → Option (List ℕ) } = { λ _. None };

    // Whether a call has answered the fault.
    ghost has_failed: { Self → Bool };

    /// Moves the next bytes into `buf` and answers how many they are. 0 for a slice that is not
    /// empty is the end.
    fn read(&mut self, buf: &mut [u8]) -> Result<usize, StreamFault>
        ensures count { ReadsAtMost result buf.new }
        ensures bytes { ReadConsumes (remaining self.old) (remaining self.new) result buf.new }
        ensures failed { NotesFault (has_failed self.old) result (has_failed self.new) };

    /// Whether a call has answered the fault.
    fn failed(&self) -> bool
        ensures { result ≡ has_failed self.now };
}

/// Bytes to be written in turn.
pub trait Sink {
    // The bytes that were written, where the sink tells them.
    ghost contents: { Self → Option (List ℕ) } = { λ _. None };

    // Whether a call has answered the fault.
    ghost has_failed: { Self → Bool };

    /// Appends the whole slice. Where it answers the fault, a part of the slice may be written.
    fn write_all(&mut self, bytes: &[u8]) -> Result<(), StreamFault>
        ensures bytes { OnOk result (Appends (contents self.old) (contents self.new) bytes.now) }
        ensures failed { NotesFault (has_failed self.old) result (has_failed self.new) };

    /// Whether a call has answered the fault.
    fn failed(&self) -> bool
        ensures { result ≡ has_failed self.now };
}
