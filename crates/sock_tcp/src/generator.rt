//! The source of timestamps (RFC 7323, section 3).
ghost use Rattle.std.specs.Prelude.{◌≡◌, ℕ, MatchOption, IsSomeAnd, None, Some, is_some, option_map};

use crate::control_block::ControlBlock;
use crate::socket::Socket;
use control_wire::TcpTimestampGenerator;
use std::fmt;

/// A source of timestamps, which may be called at any time.
///
/// The fact that it may be called stands beside the function, so that what holds a generator can call it.
#[derive(Clone, Copy)]
pub struct Generator {
    pub(crate) call: TcpTimestampGenerator,
    ghost callable: { IsAlwaysCallable call },
}

impl Generator {
    pub(crate) fn new(call: TcpTimestampGenerator) -> Generator
        requires callable { IsAlwaysCallable call }
        ensures call { result.call ≡ call }
    {
        Generator { call }
    }
}

/// Tells the value of a timestamp clock.
pub trait TsvalSource: Copy {
    // the values that it may tell
    ghost tells: { Self → ℕ → Type 0 };

    /// The value of the clock.
    fn tsval(&self) -> u32
        ensures { tells self.now result };
}

impl TsvalSource for Generator {
    ghost tells = { λ g t. post g.call t };

    fn tsval(&self) -> u32 {
        (self.call)()
    }
}

impl fmt::Debug for Generator {
    fn fmt<W: fmt::Write>(&self, f: &mut fmt::Formatter<W>) -> fmt::Result {
        f.write_str("Generator")
    }
}

impl<'a> ControlBlock<'a> {
    // Whether segments carry a timestamp.
    pub(crate) fn stamps(&self) -> bool
        ensures { result ≡ self.now.stamps }
    {
        self.stamps
    }
}

impl<'a> Socket<'a> {
    /// Sets the source of the timestamps that the socket sends, or takes it away, as smoltcp: a function that may
    /// always be called. It is to be set before the socket is opened: timestamps are agreed on by the SYNs (RFC 7323,
    /// section 3.2).
    pub fn set_tsval_generator(&mut self, generator: Option<TcpTimestampGenerator>)
        requires callable { MatchOption generator (Unit {0}) (λ g. IsAlwaysCallable g) }
        ensures control_block { self.new.control_block
            ≡ record self.old.control_block { stamps = is_some generator } }
        ensures generator { option_map (λ g. g.call) self.new.tsval_generator ≡ generator }
        ensures ended { self.new.ended ≡ self.old.ended }
    {
        self.control_block.stamps = generator.is_some();
        self.tsval_generator = match generator {
            None => None,
            Some(call) => Some(Generator::new(call)),
        };
    }
}

impl<'a, G: TsvalSource> Socket<'a, G> {
    /// The value of the clock that the socket's timestamps are of, where it has one.
    pub fn tsval(&self) -> Option<u32>
        ensures told { MatchOption self.now.tsval_generator (result ≡ None)
            (λ g. IsSomeAnd result (λ t. G.tells g t)) }
        ensures stamps { is_some result ≡ self.now.control_block.stamps }
    {
        match &self.tsval_generator {
            None => None,
            Some(generator) => Some(generator.tsval()),
        }
    }

    /// Sets the source of the timestamps that the socket sends, of its own kind, or takes it away; as
    /// `set_tsval_generator`, before the socket is opened.
    pub fn set_tsval_source(&mut self, source: Option<G>)
        ensures control_block { self.new.control_block ≡ record self.old.control_block { stamps = is_some source } }
        ensures generator { self.new.tsval_generator ≡ source }
        ensures ended { self.new.ended ≡ self.old.ended }
    {
        self.control_block.stamps = source.is_some();
        self.tsval_generator = source;
    }
}

impl<'a, G> Socket<'a, G> {
    /// Whether the socket has a source of timestamps, so that segments carry one; a new socket has none.
    pub fn timestamp_enabled(&self) -> bool
        ensures stamps { result ≡ self.now.control_block.stamps }
        ensures source { result ≡ is_some self.now.tsval_generator }
    {
        self.control_block.stamps
    }
}
