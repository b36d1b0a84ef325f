//! Streams of packets in the pcap format, as tcpdump and Wireshark read and write them.
#![tactic(auto)]

pub mod stream;
