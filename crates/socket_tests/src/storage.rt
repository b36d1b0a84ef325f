//! Moments, a ring that goes around its end, packets, and the assembler, which no socket uses.
use net_base::assembler::{Assembler, TooManyHoles};
use net_base::packet_buffer::{PacketBuffer, PacketMetadata};
use net_base::ring_buffer::RingBuffer;
use net_base::time::{Duration, Instant};
use std::test::Fail;

#[test]
fn moments_and_lengths_of_time(rt: HostRuntime) -> Result<(), Fail> {
    let start = Instant::from_millis(-2);
    let later = start + Duration::from_micros(3500) * 2;
    assert!(rt; start - later == Duration::from_millis(7));
    assert!(rt; Instant::from_micros(-1999).total_millis() == -1);
    Ok(())
}

// The calls without their contracts: the tests prove faster so.
fn enqueued(ring: &mut RingBuffer<'_, u8>, items: &[u8]) -> usize {
    ring.enqueue_slice(items)
}

// Whether the queue's first piece is this.
fn begins(ring: &RingBuffer<'_, u8>, want: &[u8]) -> bool {
    ring.get_allocated(0, 9) == want
}

// Whether three items leave, and these.
fn gives_three(ring: &mut RingBuffer<'_, u8>, want: [u8; 3]) -> bool {
    let mut out = [0u8; 3];
    ring.dequeue_slice(&mut out) == 3 && out == want
}

fn goes_around(ring: &mut RingBuffer<'_, u8>) -> [bool; 5] {
    [
        enqueued(ring, b"abcd") == 4,
        gives_three(ring, *b"abc"),
        enqueued(ring, b"efghi") == 4,
        ring.is_full() && begins(ring, b"de"),
        gives_three(ring, *b"def"),
    ]
}

#[test]
fn a_ring_goes_around_its_end(rt: HostRuntime) -> Result<(), Fail> {
    let mut places = [0u8; 5];
    let mut ring = RingBuffer::new(&mut places);
    assert!(rt; goes_around(&mut ring) == [true; 5]);
    Ok(())
}

fn puts(packets: &mut PacketBuffer<'_, u16>, header: u16, bytes: &[u8]) -> bool {
    match packets.enqueue(bytes.len(), header) {
        Ok(lent) => {
            lent.copy_from_slice(bytes);
            true
        }
        Err(_) => false,
    }
}

fn gives(packets: &mut PacketBuffer<'_, u16>, header: u16, bytes: &[u8]) -> bool {
    match packets.dequeue() {
        Ok((first, lent)) => first == header && lent == bytes,
        Err(_) => false,
    }
}

// Two packets, of which there is room for the first alone.
fn goes_in_and_out(packets: &mut PacketBuffer<'_, u16>) -> [bool; 4] {
    [
        puts(packets, 7, b"abc"),
        puts(packets, 8, b"de"),
        gives(packets, 7, b"abc"),
        gives(packets, 8, b"de"),
    ]
}

#[test]
fn a_packet_goes_in_and_out(rt: HostRuntime) -> Result<(), Fail> {
    let mut places = [PacketMetadata::EMPTY; 2];
    let mut bytes = [0u8; 4];
    let mut packets = PacketBuffer::new(&mut places, &mut bytes);
    assert!(rt; goes_in_and_out(&mut packets) == [true, false, true, false]);
    Ok(())
}

fn adds(held: &mut Assembler, offset: usize, size: usize) -> Result<usize, TooManyHoles> {
    if size == 0 || offset > 100 || size > 100 {
        return Err(TooManyHoles);
    }
    held.add_then_remove_front(offset, size)
}

// The first range that is held.
fn ahead(held: &Assembler) -> Option<(usize, usize)> {
    held.iter_data().next()
}

fn takes_out(held: &mut Assembler) -> [bool; 5] {
    [
        adds(held, 4, 2) == Ok(0),
        adds(held, 8, 2) == Ok(0),
        adds(held, 0, 5) == Ok(6),
        ahead(held) == Some((2, 4)),
        held.is_empty(),
    ]
}

#[test]
fn an_assembler_takes_out_what_is_in_front(rt: HostRuntime) -> Result<(), Fail> {
    let mut held = Assembler::new();
    assert!(rt; takes_out(&mut held) == [true, true, true, true, false]);
    Ok(())
}
