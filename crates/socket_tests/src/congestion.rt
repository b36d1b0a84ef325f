//! Timeouts in milliseconds, and windows and thresholds of Reno and CUBIC.
use net_base::time::Instant;
use sock_core::congestion::{Controller, Cubic, Reno};
use sock_core::rtte::RttEstimator;
use std::test::Fail;

const NOW: Instant = Instant::ZERO;

// The calls without their contracts: the tests prove faster so.
fn ack<C: Controller>(controller: &mut C, len: usize) -> usize {
    controller.on_ack(NOW, len, 0, &RttEstimator::default());
    controller.window()
}

fn timeout_after(estimator: &mut RttEstimator, sample: u32) -> u64 {
    estimator.sample(sample);
    estimator.retransmission_timeout().total_millis()
}

fn timeout_after_another(estimator: &mut RttEstimator) -> u64 {
    estimator.on_rto();
    estimator.retransmission_timeout().total_millis()
}

fn means(estimator: &RttEstimator) -> (u32, u32) {
    (estimator.srtt(), estimator.rttvar())
}

#[test]
fn timeouts(rt: HostRuntime) -> Result<(), Fail> {
    let mut sampled = RttEstimator::default();
    let samples = [
        timeout_after(&mut sampled, 100),
        timeout_after(&mut sampled, 3000),
    ];
    assert!(rt; samples == [1000, 3515] && means(&sampled) == (463, 763));
    let mut fresh = RttEstimator::default();
    for doubled in [2000, 4000, 8000, 16000, 32000, 60000] {
        assert!(rt; timeout_after_another(&mut fresh) == doubled);
    }
    Ok(())
}

// Reno over segments of 1024 bytes, after so many acknowledgements of a whole one.
fn reno(acks: u8) -> Reno {
    let mut reno = Reno::new();
    reno.set_mss(1024);
    reno.set_remote_window(65536);
    for _ in 0..acks {
        ack(&mut reno, 1024);
    }
    reno
}

fn threshold_after_a_timeout(reno: &mut Reno, in_flight: usize) -> usize {
    reno.on_rto(NOW, in_flight);
    reno.ssthresh()
}

#[test]
fn reno_thresholds(rt: HostRuntime) -> Result<(), Fail> {
    let mut reno = reno(0);
    let first = threshold_after_a_timeout(&mut reno, 32768);
    let second = threshold_after_a_timeout(&mut reno, 1024);
    ack(&mut reno, 1024);
    let third = threshold_after_a_timeout(&mut reno, 4096);
    assert!(rt; [first, second, third] == [16384, 16384, 2048]);
    Ok(())
}

// Threshold and window after a loss.
fn lose(reno: &mut Reno, in_flight: usize) -> (usize, usize) {
    reno.on_loss(NOW, in_flight);
    (reno.ssthresh(), reno.window())
}

fn hear_again(reno: &mut Reno) -> usize {
    reno.on_dup_ack(NOW, 1024, 16384);
    reno.window()
}

#[test]
fn reno_growth_and_loss(rt: HostRuntime) -> Result<(), Fail> {
    let mut reno = reno(30);
    assert!(rt; reno.window() == 32768);
    assert!(rt; ack(&mut reno, 0) == 32768);
    assert!(rt; lose(&mut reno, 16384) == (8192, 11264));
    assert!(rt; hear_again(&mut reno) == 12288);
    Ok(())
}

// CUBIC over segments of 1000 bytes, after a loss with this many bytes in flight and the recovery from it.
fn cubic(in_flight: usize) -> Cubic {
    let mut cubic = Cubic::new();
    cubic.set_mss(1000);
    cubic.set_remote_window(1000000);
    lose_of(&mut cubic, in_flight);
    ack(&mut cubic, 1000);
    cubic
}

fn lose_of(cubic: &mut Cubic, in_flight: usize) {
    cubic.on_loss(NOW, in_flight);
}

// The window once a whole one is acknowledged, so many microseconds after the start.
fn acked_at(cubic: &mut Cubic, micros: i64) -> usize {
    let now = Instant { micros };
    let len = cubic.window();
    cubic.on_ack(now, len, 0, &RttEstimator::default());
    cubic.window()
}

// The threshold is 0.7 of 100 segments (RFC 9438, section 4.6). At first W_est is beyond W_cubic, 9/17 of a segment
// more (section 4.3); after K, the cube root of 30 / 0.4, which is 4.217 s, the window is what it was (section 4.2),
// and two seconds later 0.4 * 8 segments more.
#[test]
fn cubic_returns_to_where_it_was(rt: HostRuntime) -> Result<(), Fail> {
    let mut cubic = cubic(100000);
    assert!(rt; (cubic.ssthresh(), cubic.window()) == (70000, 70000));
    assert!(rt; acked_at(&mut cubic, 0) == 70529);
    assert!(rt; acked_at(&mut cubic, 4217000) == 100000);
    assert!(rt; acked_at(&mut cubic, 6217000) == 103200);
    Ok(())
}

// A loss at less than before, 80 segments, leaves 0.85 of them for W_max (section 4.7), where the window is after the
// cube root of 12 / 0.4, 3.107 s.
#[test]
fn cubic_gives_way(rt: HostRuntime) -> Result<(), Fail> {
    let mut cubic = cubic(100000);
    lose_of(&mut cubic, 80000);
    ack(&mut cubic, 1000);
    assert!(rt; (cubic.ssthresh(), cubic.window()) == (56000, 56000));
    acked_at(&mut cubic, 0);
    assert!(rt; acked_at(&mut cubic, 3107000) == 68000);
    Ok(())
}
