//! Worked examples of checksums.

use ip_wire::sum;

// The example of RFC 1071, section 3, and the header of a packet whose checksum is known.
const SUMMED: [u8; 8] = [0x00, 0x01, 0xf2, 0x03, 0xf4, 0xf5, 0xf6, 0xf7];

const KNOWN: [u8; 20] = [
    0x45, 0, 0, 0x73, 0, 0, 0x40, 0, 0x40, 0x11, 0xb8, 0x61, 0xc0, 0xa8, 0, 1, 0xc0, 0xa8, 0, 0xc7,
];

#[test]
fn known_checksums(rt: HostRuntime) {
    assert!(rt; sum::sum_after(0, &SUMMED) == 0xddf2);
    assert!(rt; sum::checksum_after(0, &SUMMED) == 0x220d);
    // an odd last byte is the high half of a word
    assert!(rt; sum::sum_after(0, &[0x12, 0x34, 0x56]) == 0x6834);
    assert!(rt; sum::sum_after(0, &KNOWN) == 0xffff);
}
