//! What `process` makes of a packet, asked for beforehand.
ghost use Rattle.std.specs.Prelude.{◌≡◌, ◌≤◌, true, false, length, None, Some};
ghost use Rattle.ip_wire.specs.Checksum.{all_checksums};
ghost use Rattle.ip_wire.specs.declared.checksum.Checksum.TheVariants.{Both};
ghost use Rattle.control_wire.specs.Segment.{segment_of};
ghost use Rattle.segment_wire.specs.Packet.{TcpPacket, tcp_packet_parsed};
ghost use Rattle.smoltcp_c.specs.Answers.{error_context, not_accepted};
ghost use Rattle.smoltcp_c.specs.Context.{is_context};
ghost use Rattle.smoltcp_c.specs.Reasons.{Explains, row_told};
ghost use Rattle.smoltcp_c.specs.Tcp.{view};

use crate::answers::NOT_ACCEPTED;
use crate::clock::Clock;
use crate::context::{Cx, Moment, in_context};
use crate::handles::TcpHandle;
use crate::packets::{NO_HEADER, NO_SEGMENT, read};
use control_wire::TcpRepr;
use ip_wire::IpRepr;
use sock_tcp::{Row, Socket};

/// In which row of its tables `process` finds this packet now: a number from 0 on (`SMOLTCP_ROW_..`). Nothing changes.
/// `NOT_ACCEPTED` where it is no whole TCP segment, `ERROR_CONTEXT`.
#[unsafe(no_mangle)]
pub extern "C" fn smoltcp_tcp_explain_nonnull(h: &mut TcpHandle, cx: &Cx, packet: &[u8]) -> i64
    ensures context { is_context cx.entry.now ≡ false → result ≡ error_context }
    ensures broken { is_context cx.entry.now ≡ true → tcp_packet_parsed (all_checksums Both) packet.now ≡ None
        → result ≡ not_accepted }
    ensures row { (p : TcpPacket) → is_context cx.entry.now ≡ true
        → tcp_packet_parsed (all_checksums Both) packet.now ≡ Some p
        → Explains cx.entry.now (view h.old) p.ip p.segment result }
    ensures at { h.new.at ≡ h.old.at }
    ensures same { h.new.socket ≡ h.old.socket }
{
    let moment = in_context!(cx);
    let (mut ip, mut repr) = (NO_HEADER, NO_SEGMENT);
    if !read(packet, &mut ip, &mut repr) {
        return NOT_ACCEPTED;
    }
    explained(h.socket(), &moment, &ip, &repr)
}

fn explained(socket: &Socket<'_, Clock>, moment: &Moment, ip: &IpRepr, repr: &TcpRepr<'_>) -> i64
    requires short { length repr.now.payload.now ≤ 65535 }
    ensures { Explains moment.now.cx socket.now.control_block ip.now (segment_of repr.now) result }
{
    row_told(socket.explain(moment, ip, repr))
}

fn row_told(row: Row) -> i64
    ensures { result ≡ row_told row }
{
    match row {
        Row::NotAccepted => 0,
        Row::NoSyn => 1,
        Row::ResetUnacceptable => 2,
        Row::ResetInTimeWait => 3,
        Row::ResetOutside => 4,
        Row::NoAck => 5,
        Row::OldAck => 6,
        Row::AckUnacceptable => 7,
        Row::AckUnsent => 8,
        Row::ResetChallenged => 9,
        Row::SynChallenged => 10,
        Row::OldTimestamp => 11,
        Row::OldDuplicate => 12,
        Row::BeyondWindow => 13,
        Row::HeardOutside => 14,
        Row::Opens => 15,
        Row::Reset => 16,
        Row::Ignored => 17,
        Row::Fin => 18,
        Row::InOrder => 19,
        Row::BehindGap => 20,
        Row::NothingNew => 21,
        Row::BareAck => 22,
    }
}
