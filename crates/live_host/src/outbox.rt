//! The packets that wait to be written, as the records of a pcap stream.
ghost use Rattle.std.specs.Prelude.{◌≡◌, IfSome, length};

use pcap::stream::{RECORD, put_record_header};
use std::alloc::{AllocError, Global};

/// The longest packet, in bytes.
pub const PACKET: usize = 1500;

// How many bytes may wait.
const ROOM: usize = 1 << 20;

/// Packets that wait to be written. The room is made once and does not grow.
#[derive(Drop)]
pub struct Outbox {
    bytes: Vec<u8>,
    used: usize,
    // of the records, in microseconds
    micros: u64,
}

impl Outbox {
    /// Room for a megabyte of packets.
    pub fn new(alloc: Global) -> Result<Outbox, AllocError> {
        Ok(Outbox {
            bytes: vec![in alloc; 0u8; ROOM]?,
            used: 0,
            micros: 0,
        })
    }

    /// Forgets what waited: the packets to come are of this moment, in microseconds.
    pub fn begin(&mut self, micros: u64) {
        self.used = 0;
        self.micros = micros;
    }

    /// All records that wait.
    pub fn records(&self) -> &[u8] {
        &self.bytes.as_slice()[..self.used.min(self.bytes.len())]
    }

    /// Room for the next packet, behind that of its record's header; none where as much is not left.
    pub fn room(&mut self) -> Option<&mut [u8]>
        ensures { IfSome result (λ bytes. length bytes.now ≡ PACKET) }
    {
        let (start, room) = (self.used.saturating_add(RECORD), self.bytes.len());
        if room < PACKET || room - PACKET < start {
            return None;
        }
        Some(&mut self.bytes.as_mut_slice()[start..start + PACKET])
    }

    /// The packet of so many bytes that stands in the room waits now, behind the others; of 0 bytes it is none.
    pub fn add(&mut self, len: usize) {
        let end = self.used.saturating_add(RECORD).saturating_add(len);
        if len == 0 || PACKET < len || self.bytes.len() < end {
            return;
        }
        put_record_header(
            &mut self.bytes.as_mut_slice()[self.used..],
            self.micros,
            len,
        );
        self.used = end;
    }
}
