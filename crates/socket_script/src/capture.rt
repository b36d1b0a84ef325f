//! Packets as the records of a pcap stream.

use crate::memory::Halt;
use crate::packet::{Kind, Packet};
use crate::tally::{Unwritten, put};
use host_context::Outbox;
use ip_wire::ChecksumCapabilities;
use pcap::stream::{LONGEST, RECORD, put_record_header};
use std::alloc::{AllocError, Global};
use std::io::Write;

/// Writes the record of a packet that came or went at this moment. One that no packet of IP carries is left out.
pub fn put_packet<W: Write>(
    alloc: Global,
    millis: u32,
    packet: &Packet,
    writer: &mut W,
) -> Result<(), Halt> {
    let mut outbox = Outbox::new(alloc);
    if add(&mut outbox, packet).is_err() {
        return Err(Halt::Memory);
    }
    for bytes in outbox.take() {
        put_record(millis, bytes.as_slice(), writer)?;
    }
    Ok(())
}

// Puts the bytes of the packet into the outbox.
fn add(outbox: &mut Outbox, packet: &Packet) -> Result<(), AllocError> {
    let caps = ChecksumCapabilities::default();
    let (ip, payload) = (&packet.ip, packet.payload.as_slice());
    match &packet.kind {
        Kind::Tcp(header) => {
            let _is_carried = outbox.emit_tcp(ip, &header.with_payload(payload), &caps)?;
        }
        Kind::Udp(repr) => {
            let _is_carried = outbox.emit_udp(ip, repr, payload, &caps)?;
        }
        Kind::Icmp | Kind::Raw => outbox.emit_raw(ip, payload, &caps)?,
    }
    Ok(())
}

fn put_record<W: Write>(millis: u32, bytes: &[u8], writer: &mut W) -> Result<(), Unwritten> {
    if bytes.len() > LONGEST {
        return Ok(());
    }
    let mut header = [0u8; RECORD];
    put_record_header(&mut header, millis as u64 * 1000, bytes.len());
    put(writer, &header)?;
    put(writer, bytes)
}
