//! The settings of a TCP socket.
ghost use Rattle.std.specs.Prelude.{◌≡◌, ◌==◌, pos, None, Option, Some, false, true};
ghost use Rattle.std.specs.Option.{IfSome};
ghost use Rattle.net_base.specs.declared.time.Duration.{Duration};
ghost use Rattle.sock_tcp.specs.Closing.{keep_alive_set};
ghost use Rattle.sock_core.specs.Estimator.{bounded_below};
ghost use Rattle.sock_tcp.specs.PathMtu.{path_mtu_set};
ghost use Rattle.sock_tcp.specs.Settings.{least_timeout_of, of_kind};
ghost use Rattle.sock_tcp.specs.View.{IsShort};
ghost use Rattle.sock_tcp.specs.declared.rules.Rules.{Rules};
ghost use Rattle.sock_tcp.specs.declared.settings.CongestionControl.{CongestionControl};
ghost use Rattle.smoltcp_c.specs.Answers.{error_context, error_range};
ghost use Rattle.smoltcp_c.specs.Context.{is_context};
ghost use Rattle.smoltcp_c.specs.Numbers.{byte_or_none, control_by, flag_in, is_short, lasting, micros_in};
ghost use Rattle.smoltcp_c.specs.Numbers.{rules_by};
ghost use Rattle.smoltcp_c.specs.Tcp.{Refuses, Sets, byte_told, clock, clock_set, kind_told, micros_told, view};
ghost use Rattle.smoltcp_c.specs.Tcp.{IsBoth, SetsRules, rules_told};

use crate::answers::{ERROR_RANGE, ERROR_STATE, OK};
use crate::clock::Clock;
use crate::context::{Cx, in_context};
use crate::handles::TcpHandle;
use net_base::time::{Duration, Instant};
use sock_tcp::{CongestionControl, Rules};

// Any number but 0 is true.
fn flag_in(n: u8) -> bool
    ensures { result ≡ flag_in n }
{
    n != 0
}

// The longest length of time, in microseconds.
const LONGEST: u64 = 1 << 61;

/// None where the number is below 0.
pub fn micros_in(micros: i64) -> Option<Duration>
    ensures { result ≡ micros_in micros }
{
    if micros < 0 {
        return None;
    }
    Some(Duration {
        micros: micros as u64,
    })
}

fn is_short(duration: Option<Duration>) -> bool
    ensures { result ≡ is_short duration }
{
    match duration {
        None => true,
        Some(duration) => duration.micros <= LONGEST,
    }
}

// None above the longest.
#[tactic(auto, unfolding(crate::specs::Numbers::lasting))]
fn lasting(micros: i64) -> Option<Option<Duration>>
    ensures value { result ≡ lasting micros }
    ensures short { IfSome result IsShort }
{
    let duration = micros_in(micros);
    if is_short(duration) {
        Some(duration)
    } else {
        None
    }
}

/// None where the number is 0.
pub fn byte_or_none(byte: u8) -> Option<u8>
    ensures value { result ≡ byte_or_none byte }
    ensures some { result ≡ Some 0 → ⊥ }
{
    if byte == 0 { None } else { Some(byte) }
}

// The kind with this number.
#[tactic(auto, unfolding(crate::specs::Numbers::control_by))]
fn control_by(kind: u32) -> Option<CongestionControl>
    ensures { result ≡ control_by kind }
{
    if kind == 0 {
        return Some(CongestionControl::None);
    }
    if kind == 1 {
        return Some(CongestionControl::Reno);
    }
    if kind == 2 {
        return Some(CongestionControl::Cubic);
    }
    None
}

// The rules with this number.
#[tactic(auto, unfolding(crate::specs::Numbers::rules_by))]
fn rules_by(rules: u32) -> Option<Rules>
    ensures { result ≡ rules_by rules }
{
    if rules == 0 {
        return Some(Rules::Smoltcp);
    }
    if rules == 1 {
        return Some(Rules::Rfc);
    }
    None
}

/// Sets the user timeout in microseconds (RFC 9293, section 3.9.1), or none where the number is below 0. 0, or
/// `ERROR_RANGE` above 2^61, where nothing changes.
#[unsafe(no_mangle)]
pub extern "C" fn smoltcp_tcp_set_timeout_nonnull(h: &mut TcpHandle, micros: i64) -> i64
    ensures far { lasting micros ≡ None → Refuses error_range h.old result h.new }
    ensures set { (d : Option Duration) → lasting micros ≡ Some d
        → Sets h.old (record (view h.old) { timeout = d }) result h.new }
{
    let Some(duration) = lasting(micros) else {
        return ERROR_RANGE;
    };
    h.socket().set_timeout(duration);
    OK
}

/// Sets the lowest retransmission timeout in microseconds, in whole milliseconds: less than one counts as one, and more
/// than a minute as a minute (RFC 6298, section 2.4). A new socket has a second. 0, or `ERROR_RANGE` below 0 and above
/// 2^61, where nothing changes.
#[unsafe(no_mangle)]
pub extern "C" fn smoltcp_tcp_set_min_rto_nonnull(h: &mut TcpHandle, micros: i64) -> i64
    ensures far { lasting micros ≡ None → Refuses error_range h.old result h.new }
    ensures below { lasting micros ≡ Some None → Refuses error_range h.old result h.new }
    ensures set { (d : Duration) → lasting micros ≡ Some (Some d)
        → Sets h.old (record (view h.old) { rtte = bounded_below (view h.old).rtte (least_timeout_of d) }) result
        h.new }
{
    let Some(Some(duration)) = lasting(micros) else {
        return ERROR_RANGE;
    };
    h.socket().set_min_rto(duration);
    OK
}

/// Sets the interval of keep-alives in microseconds (RFC 9293, section 3.8.4), or none where it is below 0. 0, or
/// `ERROR_RANGE` for 0, which would send without end, and above 2^61, where nothing changes.
#[unsafe(no_mangle)]
pub extern "C" fn smoltcp_tcp_set_keep_alive_nonnull(h: &mut TcpHandle, micros: i64) -> i64
    ensures far { lasting micros ≡ None → Refuses error_range h.old result h.new }
    ensures endless { micros ≡ pos 0 → Refuses error_range h.old result h.new }
    ensures set { (d : Option Duration) → (micros ≡ pos 0 → ⊥) → lasting micros ≡ Some d
        → Sets h.old (keep_alive_set (view h.old) d) result h.new }
{
    if micros == 0 {
        return ERROR_RANGE;
    }
    let Some(duration) = lasting(micros) else {
        return ERROR_RANGE;
    };
    h.socket().set_keep_alive(duration);
    OK
}

/// Sets how long an acknowledgement may wait, in microseconds, or lets none wait where it is below 0. 0, or
/// `ERROR_RANGE` above 2^61, where nothing changes.
#[unsafe(no_mangle)]
pub extern "C" fn smoltcp_tcp_set_ack_delay_nonnull(h: &mut TcpHandle, micros: i64) -> i64
    ensures far { lasting micros ≡ None → Refuses error_range h.old result h.new }
    ensures set { (d : Option Duration) → lasting micros ≡ Some d
        → Sets h.old (record (view h.old) { ack_delay = d }) result h.new }
{
    let Some(duration) = lasting(micros) else {
        return ERROR_RANGE;
    };
    h.socket().set_ack_delay(duration);
    OK
}

/// Lets small segments wait while bytes are in flight (RFC 9293, section 3.7.4) where the number is not 0. Answers 0.
#[unsafe(no_mangle)]
pub extern "C" fn smoltcp_tcp_set_nagle_enabled_nonnull(h: &mut TcpHandle, enabled: u8) -> i64
    ensures set { Sets h.old (record (view h.old) { nagle = flag_in enabled }) result h.new }
{
    h.socket().set_nagle_enabled(flag_in(enabled));
    OK
}

/// Sets the hop limit of what is sent, or 64 where the number is 0. Answers 0.
#[unsafe(no_mangle)]
pub extern "C" fn smoltcp_tcp_set_hop_limit_nonnull(h: &mut TcpHandle, hop_limit: u8) -> i64
    ensures set { Sets h.old (record (view h.old) { hop_limit = byte_or_none hop_limit }) result h.new }
{
    h.socket().set_hop_limit(byte_or_none(hop_limit));
    OK
}

/// Tells the path MTU: the length in bytes of the longest packet that reaches the peer, where less than 576 counts as
/// 576 over IPv4, and less than 1280 as 1280 over IPv6 (RFC 1191, RFC 8201). Where segments get shorter and bytes are
/// in flight, these go out again at once. 0, or `ERROR_CONTEXT` out of the context's ranges, where nothing changes.
#[unsafe(no_mangle)]
pub extern "C" fn smoltcp_tcp_set_path_mtu_nonnull(h: &mut TcpHandle, cx: &Cx, mtu: u32) -> i64
    ensures context { is_context cx.entry.now ≡ false → Refuses error_context h.old result h.new }
    ensures set { is_context cx.entry.now ≡ true
        → Sets h.old (path_mtu_set (view h.old) (record { micros = cx.entry.now.now }) mtu) result h.new }
{
    let moment = in_context!(cx);
    let now = Instant {
        micros: moment.cx.now,
    };
    h.socket().set_path_mtu(now, mtu as usize);
    OK
}

/// Lets a SYN|ACK wait where the number is not 0, else go out; as smoltcp. Answers 0.
#[unsafe(no_mangle)]
pub extern "C" fn smoltcp_tcp_pause_synack_nonnull(h: &mut TcpHandle, pause: u8) -> i64
    ensures set { Sets h.old (record (view h.old) { synack_paused = flag_in pause }) result h.new }
{
    h.socket().pause_synack(flag_in(pause));
    OK
}

/// Puts in a new controller of this kind, also where there is one of the kind: 0 for none, 1 for Reno (RFC 5681),
/// which a new socket has, 2 for CUBIC (RFC 9438). 0, or `ERROR_RANGE` for another number, where nothing changes.
#[unsafe(no_mangle)]
pub extern "C" fn smoltcp_tcp_set_congestion_control_nonnull(h: &mut TcpHandle, kind: u32) -> i64
    ensures other { control_by kind ≡ None → Refuses error_range h.old result h.new }
    ensures set { (k : CongestionControl) → control_by kind ≡ Some k
        → Sets h.old (record (view h.old) { congestion_controller = of_kind k }) result h.new }
{
    let Some(control) = control_by(kind) else {
        return ERROR_RANGE;
    };
    h.socket().set_congestion_control(control);
    OK
}

/// Chooses the rules of a socket that is not open: 0 for smoltcp's, 1 for those of the RFCs, which a new socket has
/// (`Rules::Rfc`). 0; or `ERROR_STATE` where the socket is open, or
/// `ERROR_RANGE` for another number, where nothing changes.
#[unsafe(no_mangle)]
pub extern "C" fn smoltcp_tcp_set_rules_nonnull(h: &mut TcpHandle, rules: u32) -> i64
    ensures other { rules_by rules ≡ None → Refuses error_range h.old result h.new }
    ensures set { (r : Rules) → rules_by rules ≡ Some r → SetsRules h.old r result h.new }
{
    let Some(rules) = rules_by(rules) else {
        return ERROR_RANGE;
    };
    match h.socket().set_rules(rules) {
        Ok(()) => OK,
        Err(_) => ERROR_STATE,
    }
}

/// Lets timestamps be sent (RFC 7323) where the number is not 0, at the clock of each call's context. A SYN without
/// one that opens a connection ends them. Answers 0.
#[unsafe(no_mangle)]
pub extern "C" fn smoltcp_tcp_set_timestamps_nonnull(h: &mut TcpHandle, enabled: u8) -> i64
    ensures answer { result ≡ pos 0 }
    ensures set { IsBoth h.old (record (view h.old) { stamps = flag_in enabled }) (clock_set (flag_in enabled) 0)
        h.new }
{
    h.socket().set_tsval_source(clock_of(flag_in(enabled)));
    OK
}

// A clock, or none.
fn clock_of(enabled: bool) -> Option<Clock>
    ensures { result ≡ clock_set enabled 0 }
{
    if enabled {
        Some(Clock { tsval: 0 })
    } else {
        None
    }
}

/// The microseconds, at most 2^61, or -1 for none.
pub fn micros_told(duration: Option<Duration>) -> i64
    ensures { result ≡ micros_told duration }
{
    match duration {
        None => -1,
        Some(duration) => duration.micros.min(LONGEST) as i64,
    }
}

/// The byte, or 0 for none.
pub fn byte_told(byte: Option<u8>) -> i64
    ensures { result ≡ byte_told byte }
{
    match byte {
        None => 0,
        Some(byte) => byte as i64,
    }
}

/// The number of the kind.
pub fn kind_told(kind: CongestionControl) -> i64
    ensures { result ≡ kind_told kind }
{
    match kind {
        CongestionControl::None => 0,
        CongestionControl::Reno => 1,
        CongestionControl::Cubic => 2,
    }
}

/// The number of the rules.
pub fn rules_told(rules: Rules) -> i64
    ensures { result ≡ rules_told rules }
{
    match rules {
        Rules::Smoltcp => 0,
        Rules::Rfc => 1,
    }
}
