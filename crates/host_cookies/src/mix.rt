//! A keyed function of a call: words of ChaCha20 at a place that the call tells.
ghost use Rattle.std.specs.Prelude.{◌≡◌, ◌+◌, ◌*◌, ◌%◌, ◌/◌, ◌^◌};
ghost use Rattle.host_cookies.specs.Numbers.{addresses_of, mixed, mixed_wide, number_of, tag_of};

use crate::call::Call;
use ip_wire::IpAddress;
use rand_chacha::ChaCha20Rng;
use rand_core::utils::NextWord;

// Two words of the key's stream `a`, from the beginning of its block `b` on.
#[tactic(auto, unfolding(crate::specs::Numbers::mixed))]
pub(crate) fn mixed(words: &mut ChaCha20Rng, a: u64, b: u64) -> u64
    ensures value { result ≡ mixed words.old.key a b }
    ensures key { words.new.key ≡ words.old.key }
{
    words.set_stream(a);
    words.set_word_pos(u128::from(b) * 16);
    let low = words.next_word();
    let high = words.next_word();
    u64::from(high) * 4_294_967_296 + u64::from(low)
}

// An address as a number; one of IPv4 as if it were mapped (RFC 4291, section 2.5.5.2).
#[tactic(auto, unfolding(crate::specs::Numbers::number_of))]
fn number_of(addr: &IpAddress) -> u128
    ensures { result ≡ number_of addr.now }
{
    match addr {
        IpAddress::Ipv4(addr) => u128::from(u32::from_be_bytes(addr.0)) + 0xffff_0000_0000,
        IpAddress::Ipv6(addr) => u128::from_be_bytes(addr.0),
    }
}

// Both addresses of a call: two of IPv4 fit one place.
fn addresses_of(words: &mut ChaCha20Rng, call: &Call) -> u64
    ensures value { result ≡ addresses_of words.old.key (number_of call.now.remote) (number_of call.now.local) }
    ensures key { words.new.key ≡ words.old.key }
{
    let (remote, local) = (number_of(&call.remote), number_of(&call.local));
    if high_of(remote) == 0 && high_of(local) == 0 {
        return mixed(words, low_of(remote), low_of(local));
    }
    mixed_wide(words, remote, local)
}

fn mixed_wide(words: &mut ChaCha20Rng, remote: u128, local: u128) -> u64
    ensures value { result ≡ mixed_wide words.old.key remote local }
    ensures key { words.new.key ≡ words.old.key }
{
    let one = mixed(words, high_of(remote), low_of(remote));
    let two = mixed(words, one, high_of(local));
    mixed(words, two, low_of(local))
}

fn high_of(number: u128) -> u64
    ensures { result ≡ number / 2 ^ 64 }
{
    (number / 18_446_744_073_709_551_616) as u64
}

fn low_of(number: u128) -> u64
    ensures { result ≡ number % 2 ^ 64 }
{
    (number % 18_446_744_073_709_551_616) as u64
}

/// What the key makes of a call, whatever the time.
pub(crate) fn tag_of(words: &mut ChaCha20Rng, call: &Call) -> u64
    ensures value { result ≡ tag_of words.old.key call.now }
    ensures key { words.new.key ≡ words.old.key }
{
    let addresses = addresses_of(words, call);
    let ports = u64::from(call.remote_port) * 65536 + u64::from(call.local_port);
    mixed(
        words,
        addresses,
        ports * 4_294_967_296 + u64::from(call.number),
    )
}
