//! The calls of a TCP socket without their contracts. A test needs their answers alone, and its proof is then short.
use crate::host::Host;
use crate::tcp::clock;
use smoltcp_socket::storage::RingBuffer;
use smoltcp_socket::tcp::*;
use smoltcp_socket::wire::{IpEndpoint, IpListenEndpoint};

#[derive(Drop)]
pub(crate) struct Tcp<'a>(pub(crate) Socket<'a>);

// More than any test needs, and less than a socket may have.
const MOST: usize = 1 << 20;

impl<'a> Tcp<'a> {
    pub(crate) fn new(rx: &'a mut [u8], tx: &'a mut [u8]) -> Tcp<'a> {
        let (rx_len, tx_len) = (rx.len().min(MOST), tx.len().min(MOST));
        let rx_buffer = RingBuffer::new(&mut rx[..rx_len]);
        let tx_buffer = RingBuffer::new(&mut tx[..tx_len]);
        Tcp(Socket::new(rx_buffer, tx_buffer))
    }

    pub(crate) fn connect(
        &mut self,
        cx: &mut Host,
        remote: IpEndpoint,
        local: IpListenEndpoint,
    ) -> Result<(), ConnectError> {
        self.0.connect(cx, remote, local)
    }

    // Whether more may be sent, whether there is room for it, how much there is for all, and how many bytes wait.
    pub(crate) fn sending(&self) -> (bool, bool, usize, usize) {
        (
            self.0.may_send(),
            self.0.can_send(),
            self.0.send_capacity(),
            self.0.send_queue(),
        )
    }

    // Whether more may come, whether some waits, how much room there is for all, and how many bytes wait.
    pub(crate) fn receiving(&self) -> (bool, bool, usize, usize) {
        (
            self.0.may_recv(),
            self.0.can_recv(),
            self.0.recv_capacity(),
            self.0.recv_queue(),
        )
    }

    pub(crate) fn recv_slice(&mut self, data: &mut [u8]) -> Result<usize, RecvError> {
        self.0.recv_slice(data)
    }

    // A source of timestamps, or none.
    pub(crate) fn set_clock(&mut self, is_there: bool) {
        self.0
            .set_tsval_generator(if is_there { Some(clock) } else { None });
    }

    pub(crate) fn timestamp_enabled(&self) -> bool {
        self.0.timestamp_enabled()
    }
}
