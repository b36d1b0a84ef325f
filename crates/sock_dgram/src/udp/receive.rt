//! Datagrams that the program receives.
ghost use Rattle.std.specs.Prelude.{◌≡◌, length, Some, IfOk};
ghost use Rattle.std.specs.Borrow.{sem};
ghost use Rattle.net_base.specs.Packets.{first_packet, Dequeues};
ghost use Rattle.sock_dgram.specs.Datagrams.{answered, take_answer, copy_answer, copied, copied_of};
ghost use Rattle.sock_dgram.specs.UdpCalls.{Effect, RecvSlice};
ghost use Rattle.sock_dgram.specs.Udp.{with_rx};
ghost use Rattle.sock_dgram.specs.UdpLends.{lender, TakesFirst, KeepsFirst};

use crate::error::RecvError;
use crate::queue::{copy_first, take_into};
use crate::udp::socket::{Socket, UdpMetadata};

impl<'a> Socket<'a> {
    /// Takes the first datagram of the receive queue, and lends its bytes.
    ///
    /// # Errors
    /// `Exhausted` where there is none.
    pub fn recv(&mut self) -> Result<(&[u8], UdpMetadata), RecvError>
        ensures* after { sem 𝓛 (TakesFirst lender (λ v. v.rx_buffer) with_rx self.entry) }
        ensures answer { answered result ≡ take_answer (first_packet self.old.rx_buffer) }
        ensures value { IfOk result (λ r. first_packet self.old.rx_buffer ≡ Some (r.1, r.0.now)) }
    {
        let (meta, (from, size)) = self.rx_buffer.take_first().ok_or(RecvError::Exhausted)?;
        Ok((self.rx_buffer.part(from, size), meta))
    }

    /// Lends the bytes of the first datagram of the receive queue, which stays.
    ///
    /// # Errors
    /// `Exhausted` where there is none.
    pub fn peek(&mut self) -> Result<(&[u8], &UdpMetadata), RecvError>
        ensures* after { sem 𝓛 (KeepsFirst lender (λ v. v.rx_buffer) with_rx self.entry) }
        ensures answer { answered result ≡ take_answer (first_packet self.old.rx_buffer) }
        ensures value { IfOk result (λ r. first_packet self.old.rx_buffer ≡ Some (r.1.now, r.0.now)) }
    {
        self.rx_buffer.skip_padding();
        let (meta, bytes) = self.rx_buffer.first().map_err(|_| RecvError::Exhausted)?;
        Ok((bytes, meta))
    }

    /// Copies the bytes of the first datagram of the receive queue into `data`; the datagram stays. Answers how many
    /// they are, and where it came from.
    ///
    /// # Errors
    /// `Exhausted` where there is none; `Truncated` where `data` is too short, which then stays as it was.
    pub fn peek_slice(&mut self, data: &mut [u8]) -> Result<(usize, &UdpMetadata), RecvError>
        ensures* after { sem 𝓛 (KeepsFirst lender (λ v. v.rx_buffer) with_rx self.entry) }
        ensures answer { copied_of result ≡ copy_answer (first_packet self.old.rx_buffer) (length «data».old) }
        ensures bytes { «data».new ≡ copied (first_packet self.old.rx_buffer) «data».old }
    {
        self.rx_buffer.skip_padding();
        copy_first(&self.rx_buffer, data)
    }

    /// Takes the first datagram of the receive queue and copies its bytes into `data`. Answers how many they are, and
    /// where it came from.
    ///
    /// # Errors
    /// `Exhausted` where there is none; `Truncated` where `data` is too short: the datagram is gone then, and `data` as
    /// it was.
    pub fn recv_slice(&mut self, data: &mut [u8]) -> Result<(usize, UdpMetadata), RecvError>
        ensures answer { result ≡ copy_answer (first_packet self.old.rx_buffer) (length «data».old) }
        ensures bytes { «data».new ≡ copied (first_packet self.old.rx_buffer) «data».old }
        ensures queue { Dequeues self.old.rx_buffer self.new.rx_buffer }
        ensures same { self.new ≡ record self.old { rx_buffer = self.new.rx_buffer } }
        ensures effect { Effect (RecvSlice «data».old «data».new result) self.old self.new }
    {
        take_into(&mut self.rx_buffer, data)
    }
}
