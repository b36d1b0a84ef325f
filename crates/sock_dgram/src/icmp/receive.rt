//! ICMP messages that the program receives.
ghost use Rattle.std.specs.Prelude.{◌≡◌, length, Some, IfOk};
ghost use Rattle.std.specs.Borrow.{sem};
ghost use Rattle.net_base.specs.Packets.{first_packet, Dequeues};
ghost use Rattle.sock_dgram.specs.Datagrams.{answered, take_answer, copy_answer, copied};
ghost use Rattle.sock_dgram.specs.IcmpCalls.{Effect, RecvSlice};
ghost use Rattle.sock_dgram.specs.Icmp.{with_rx};
ghost use Rattle.sock_dgram.specs.IcmpLends.{lender, TakesFirst};

use crate::error::RecvError;
use crate::icmp::socket::Socket;
use crate::queue::take_into;
use ip_wire::IpAddress;

impl<'a> Socket<'a> {
    /// Takes the first message of the receive queue, and lends its bytes.
    ///
    /// # Errors
    /// `Exhausted` where there is none.
    pub fn recv(&mut self) -> Result<(&[u8], IpAddress), RecvError>
        ensures* after { sem 𝓛 (TakesFirst lender (λ v. v.rx_buffer) with_rx self.entry) }
        ensures answer { answered result ≡ take_answer (first_packet self.old.rx_buffer) }
        ensures value { IfOk result (λ r. first_packet self.old.rx_buffer ≡ Some (r.1, r.0.now)) }
    {
        let (remote, (from, size)) = self.rx_buffer.take_first().ok_or(RecvError::Exhausted)?;
        Ok((self.rx_buffer.part(from, size), remote))
    }

    /// Takes the first message of the receive queue and copies its bytes into `data`. Answers how many they are, and
    /// where it came from.
    ///
    /// # Errors
    /// `Exhausted` where there is none; `Truncated` where `data` is too short: the message is gone then, and `data` as
    /// it was.
    pub fn recv_slice(&mut self, data: &mut [u8]) -> Result<(usize, IpAddress), RecvError>
        ensures answer { result ≡ copy_answer (first_packet self.old.rx_buffer) (length «data».old) }
        ensures bytes { «data».new ≡ copied (first_packet self.old.rx_buffer) «data».old }
        ensures queue { Dequeues self.old.rx_buffer self.new.rx_buffer }
        ensures same { self.new ≡ record self.old { rx_buffer = self.new.rx_buffer } }
        ensures effect { Effect (RecvSlice «data».old «data».new result) self.old self.new }
    {
        take_into(&mut self.rx_buffer, data)
    }
}
