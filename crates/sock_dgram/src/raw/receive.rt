//! Packets that the program receives.
ghost use Rattle.std.specs.Prelude.{◌≡◌, length, Some, IfOk};
ghost use Rattle.std.specs.Borrow.{sem};
ghost use Rattle.net_base.specs.Packets.{first_packet, skipped, Dequeues};
ghost use Rattle.sock_dgram.specs.Datagrams.{answered, take_answer, copy_answer, copied, with_metadata};
ghost use Rattle.sock_dgram.specs.RawCalls.{Effect, Peek, RecvSlice};
ghost use Rattle.sock_dgram.specs.Raw.{with_rx};
ghost use Rattle.sock_dgram.specs.RawLends.{lender, TakesFirst, KeepsFirst};

use crate::error::RecvError;
use crate::queue::{copy_first, take_into};
use crate::raw::socket::Socket;

impl<'a> Socket<'a> {
    /// Takes the first packet of the receive queue, and lends its bytes.
    ///
    /// # Errors
    /// `Exhausted` where there is none.
    pub fn recv(&mut self) -> Result<&[u8], RecvError>
        ensures* after { sem 𝓛 (TakesFirst lender (λ v. v.rx_buffer) with_rx self.entry) }
        ensures answer { answered result ≡ take_answer (first_packet self.old.rx_buffer) }
        ensures value { IfOk result (λ bytes. first_packet self.old.rx_buffer ≡ Some (tt, bytes.now)) }
    {
        let (_, (from, size)) = self.rx_buffer.take_first().ok_or(RecvError::Exhausted)?;
        Ok(self.rx_buffer.part(from, size))
    }

    /// Lends the bytes of the first packet of the receive queue, which stays.
    ///
    /// # Errors
    /// `Exhausted` where there is none.
    pub fn peek(&mut self) -> Result<&[u8], RecvError>
        ensures* after { sem 𝓛 (KeepsFirst lender (λ v. v.rx_buffer) with_rx self.entry) }
        ensures answer { answered result ≡ take_answer (first_packet self.old.rx_buffer) }
        ensures value { IfOk result (λ bytes. first_packet self.old.rx_buffer ≡ Some (tt, bytes.now)) }
    {
        self.rx_buffer.skip_padding();
        let (_, bytes) = self.rx_buffer.first().map_err(|_| RecvError::Exhausted)?;
        Ok(bytes)
    }

    /// Copies the bytes of the first packet of the receive queue into `data`; the packet stays. Answers how many they
    /// are.
    ///
    /// # Errors
    /// `Exhausted` where there is none; `Truncated` where `data` is too short, which then stays as it was.
    pub fn peek_slice(&mut self, data: &mut [u8]) -> Result<usize, RecvError>
        ensures answer { with_metadata tt result ≡ copy_answer (first_packet self.old.rx_buffer) (length «data».old) }
        ensures bytes { «data».new ≡ copied (first_packet self.old.rx_buffer) «data».old }
        ensures view { self.new ≡ record self.old { rx_buffer = skipped self.old.rx_buffer } }
        ensures effect { Effect Peek self.old self.new }
    {
        self.rx_buffer.skip_padding();
        let (size, _) = copy_first(&self.rx_buffer, data)?;
        Ok(size)
    }

    /// Takes the first packet of the receive queue and copies its bytes into `data`. Answers how many they are.
    ///
    /// # Errors
    /// `Exhausted` where there is none; `Truncated` where `data` is too short: the packet is gone then, and `data` as
    /// it was.
    pub fn recv_slice(&mut self, data: &mut [u8]) -> Result<usize, RecvError>
        ensures answer { with_metadata tt result ≡ copy_answer (first_packet self.old.rx_buffer) (length «data».old) }
        ensures bytes { «data».new ≡ copied (first_packet self.old.rx_buffer) «data».old }
        ensures queue { Dequeues self.old.rx_buffer self.new.rx_buffer }
        ensures same { self.new ≡ record self.old { rx_buffer = self.new.rx_buffer } }
        ensures effect { Effect (RecvSlice «data».old «data».new result) self.old self.new }
    {
        let (size, _) = take_into(&mut self.rx_buffer, data)?;
        Ok(size)
    }
}
