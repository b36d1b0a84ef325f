//! Why a TCP connection ended, and what its two sides agreed on.
ghost use Rattle.std.specs.Prelude.{◌≡◌};
ghost use Rattle.sock_tcp.specs.Negotiated.{negotiated};
ghost use Rattle.smoltcp_c.specs.Ends.{TellsAgreed, agreed_told, ended_told};
ghost use Rattle.smoltcp_c.specs.Tcp.{view};

use crate::handles::TcpHandle;
use sock_tcp::{Ended, Negotiated};

/// What the two SYNs of a connection agreed on, and the peer's window.
#[repr(C)]
#[derive(Clone, Copy)]
pub struct Agreed {
    /// The longest payload of a segment that the peer takes, in bytes.
    pub remote_mss: usize,
    /// The peer's window, in bytes.
    pub remote_window: usize,
    /// 1 where window fields are shifted, else 0.
    pub win_scale: u8,
    /// By how many bits the peer's are, at most 14; 0 where none are.
    pub remote_win_scale: u8,
    /// By how many bits the own ones are, at most 14.
    pub local_win_scale: u8,
    /// 1 where segments carry timestamps, else 0.
    pub timestamps: u8,
    /// 1 where the peer permits SACK, else 0.
    pub sack: u8,
}

/// Why the connection ended: 0 where it has not, 1 it was finished by both sides, 2 the peer refused it, 3 the peer
/// reset it, 4 the user timeout, 5 `abort` or a `close` before there was a peer, 6 the own address is gone.
#[unsafe(no_mangle)]
pub extern "C" fn smoltcp_tcp_ended_nonnull(h: &mut TcpHandle) -> i64
    ensures answer { result ≡ ended_told h.old.socket.ended }
    ensures at { h.new.at ≡ h.old.at }
    ensures same { h.new.socket ≡ h.old.socket }
{
    ended_told(h.socket().ended())
}

fn ended_told(ended: Option<Ended>) -> i64
    ensures { result ≡ ended_told ended }
{
    match ended {
        None => 0,
        Some(Ended::Finished) => 1,
        Some(Ended::Refused) => 2,
        Some(Ended::Reset) => 3,
        Some(Ended::TimedOut) => 4,
        Some(Ended::Aborted) => 5,
        Some(Ended::Unaddressable) => 6,
    }
}

/// Writes what was agreed into `out`, and answers 1; 0 in CLOSED, LISTEN and SYN-SENT, with `out` as it was.
#[unsafe(no_mangle)]
pub extern "C" fn smoltcp_tcp_negotiated_nonnull(h: &mut TcpHandle, out: &mut Agreed) -> i64
    ensures told { TellsAgreed (negotiated (view h.old)) out.old result out.new }
    ensures at { h.new.at ≡ h.old.at }
    ensures same { h.new.socket ≡ h.old.socket }
{
    match h.socket().negotiated() {
        None => 0,
        Some(agreed) => {
            *out = agreed_told(agreed);
            1
        }
    }
}

fn agreed_told(agreed: Negotiated) -> Agreed
    ensures { result ≡ agreed_told agreed }
{
    Agreed {
        remote_mss: agreed.remote_mss,
        remote_window: agreed.remote_window,
        win_scale: agreed.remote_win_scale.is_some() as u8,
        remote_win_scale: agreed.remote_win_scale.unwrap_or(0),
        local_win_scale: agreed.local_win_scale,
        timestamps: agreed.timestamps as u8,
        sack: agreed.sack as u8,
    }
}
