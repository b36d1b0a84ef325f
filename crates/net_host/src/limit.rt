//! A limit on how many answers go out in a second.
ghost use Rattle.std.specs.Prelude.{◌≡◌, ◌<◌, ◌+ℤ◌, ◌≤ℤ◌, pos, true};
ghost use Rattle.sock_core.specs.Bounds.{IsMoment};
ghost use Rattle.net_host.specs.Limits.{AnswersAreLimited, allows, allows_in, full_limit, keyed, later, next_seed};
ghost use Rattle.net_host.specs.Limits.{part_of, bucket_of, spent, taken_in, takes};

use smoltcp_socket::time::Instant;

/// How many answers of one kind go out to a source in a second, at most. Each takes 20 to 36 milliseconds, by chance,
/// of a second ahead: so there are 27 to 50 at once, and as many a second.
pub const ANSWERS_A_SECOND: u32 = 100;

// How many buckets there are.
const BUCKETS: usize = 16;

// What a product is divided by, to say which bucket.
const BUCKET: u64 = 0x1000_0000_0000_0000;

// How many addresses a prefix of 64 bits has.
const PREFIX: u128 = 0x1_0000_0000_0000_0000;

// How long an answer takes at least, in microseconds, and how far ahead its time may begin.
const EACH: i64 = 20_000;

const AHEAD: i64 = 980_000;

// What a random number is divided by, to be at most 16 milliseconds.
const CHANCE: u64 = 0x0004_0000_0000_0000;

// The key of a new limit.
const NEW_KEY: u64 = 0x9e37_79b9_7f4a_7c15;

/// Each answer takes time that lies at most a second ahead. There are 16 buckets of sources, by a key: a stranger
/// neither takes what others are answered, nor sees by his own answers that others had one.
#[derive(Debug, Clone, Copy, Drop)]
pub struct Limit {
    pub(crate) key: u64,
    pub(crate) seed: u64,
    // up to which moment time is taken of each bucket, in microseconds
    pub(crate) until: [i64; BUCKETS],
}

// The part of an address that says whose it is.
fn part_of(source: u128) -> u64
    ensures { result ≡ part_of source }
{
    let prefix = source / PREFIX;
    if prefix == 0 {
        (source % PREFIX) as u64
    } else {
        prefix as u64
    }
}

// The bucket of a source, by multiplication with an odd number that nobody knows.
fn bucket_of(key: u64, source: u128) -> usize
    ensures within { result < 16 }
    ensures value { result ≡ bucket_of key source }
{
    let odd = key.wrapping_mul(2).wrapping_add(1);
    (odd.wrapping_mul(part_of(source)) / BUCKET) as usize
}

// The next random number.
fn next_seed(seed: u64) -> u64
    ensures { result ≡ next_seed seed }
{
    seed.wrapping_mul(6_364_136_223_846_793_005)
        .wrapping_add(1_442_695_040_888_963_407)
}

// How long an answer takes.
fn takes(seed: u64) -> i64
    ensures value { result ≡ takes seed }
    ensures some { pos 0 ≤ℤ result }
    ensures few { result ≤ℤ pos 40000 }
{
    EACH + (seed / CHANCE) as i64
}

impl Limit {
    /// Nothing is taken.
    pub fn new() -> Limit
        ensures { result ≡ full_limit }
    {
        Limit {
            key: NEW_KEY,
            seed: NEW_KEY,
            until: [i64::MIN; BUCKETS],
        }
    }

    /// Buckets go by this key from now on. What went out still counts.
    pub(crate) fn set_key(&mut self, key: u64)
        ensures { self.new ≡ keyed key self.old }
    {
        self.key = key;
        self.seed = key;
    }

    /// Whether one more answer may go out to this address; it counts as gone out then.
    pub fn take(&mut self, source: u128, now: Instant) -> bool
        requires { IsMoment now.micros }
        ensures answer { result ≡ allows self.old source now }
        ensures value { self.new ≡ spent self.old source now }
    {
        let bucket = bucket_of(self.key, source);
        let may = self.allows_in(bucket, now);
        if may {
            self.take_in(bucket, now);
        }
        may
    }

    fn take_in(&mut self, bucket: usize, now: Instant)
        requires moment { IsMoment now.micros }
        requires within { bucket < 16 }
        requires may { allows_in self.old bucket now ≡ true }
        ensures { self.new ≡ taken_in self.old bucket now }
    {
        self.seed = next_seed(self.seed);
        self.until[bucket] = later_by(self.until[bucket], now, takes(self.seed));
    }

    fn allows_in(&self, bucket: usize, now: Instant) -> bool
        requires moment { IsMoment now.micros }
        requires within { bucket < 16 }
        ensures { result ≡ allows_in self.now bucket now }
    {
        self.until[bucket] <= now.micros + AHEAD
    }

    /// Whether one more answer may go out to this address.
    pub fn allows(&self, source: u128, now: Instant) -> bool
        requires { IsMoment now.micros }
        ensures { result ≡ allows self.now source now }
    {
        self.allows_in(bucket_of(self.key, source), now)
    }
}

// The later one of two moments, of which the first is hardly later, and so much more.
fn later_by(t: i64, now: Instant, more: i64) -> i64
    requires moment { IsMoment now.micros }
    requires near { t ≤ℤ (now.micros +ℤ pos 980000) }
    requires some { pos 0 ≤ℤ more }
    requires few { more ≤ℤ pos 40000 }
    ensures { result ≡ later t now.micros +ℤ more }
{
    if t <= now.micros {
        now.micros + more
    } else {
        t + more
    }
}

/// In any second at most `ANSWERS_A_SECOND` answers of a bucket go out, also where the clock goes back.
#[tactic(auto, using(crate::proofs::Limited::limited))]
pub fn answers_are_limited()
    ensures { AnswersAreLimited }
{}
