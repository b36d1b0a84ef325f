//! What single words of a line mean.
ghost use Rattle.std.specs.Prelude.{◌≡◌, ◌≤◌, ◌^◌, ◌<◌, ◌&&◌, nat_le, length, IsTrue, IfSome};
ghost use Rattle.std.specs.Char.{is_ascii_digit};
ghost use Rattle.std.specs.List.{list_all};
ghost use Rattle.pair_core.specs.NetworkInvariant.{IsLimit};
ghost use Rattle.sock_pair.specs.ScriptWords.{is_number, is_text, limit_of, number_of, rules_of, side_of, switch_of};
ghost use Rattle.sock_pair.specs.ScriptWords.{value_of};

use crate::script::lanes::{LANES, lanes_are_text};
use pair_core::Side;
use sock_tcp::Rules;

/// `a` or `b`; none for any other word.
#[tactic(auto, unfolding(crate::specs::ScriptWords::side_of))]
pub fn side(word: &[u8]) -> Option<Side>
    ensures { result ≡ side_of word.now }
{
    match word {
        b"a" => Some(Side::A),
        b"b" => Some(Side::B),
        _ => None,
    }
}

/// Whether a word is `on`; none for any other word than `on` and `off`.
#[tactic(auto, unfolding(crate::specs::ScriptWords::switch_of))]
pub fn switch(word: &[u8]) -> Option<bool>
    ensures { result ≡ switch_of word.now }
{
    match word {
        b"on" => Some(true),
        b"off" => Some(false),
        _ => None,
    }
}

/// The rules that a word names, `rfc` or `smoltcp`; none for any other word.
#[tactic(auto, unfolding(crate::specs::ScriptWords::rules_of))]
pub fn rules(word: &[u8]) -> Option<Rules>
    ensures { result ≡ rules_of word.now }
{
    match word {
        word if word == b"rfc".as_slice() => Some(Rules::Rfc),
        word if word == b"smoltcp".as_slice() => Some(Rules::Smoltcp),
        _ => None,
    }
}

/// The number that 1 to 10 decimal digits write, where it is at most `most`; none for any other
/// word.
#[tactic(auto, unfolding(crate::specs::ScriptWords::number_of))]
pub fn number(word: &[u8], most: usize) -> Option<usize>
    ensures value { result ≡ number_of most word.now }
    ensures within { IfSome result (λ n. n ≤ most) }
{
    if !is_number(word) {
        return None;
    }
    let value = value(word);
    if value <= most as u64 {
        Some(value as usize)
    } else {
        None
    }
}

/// The index that 1 to 10 decimal digits write; none for any other word. Where a `usize` has 32 bits, its greatest
/// stands for all that are greater.
#[tactic(auto, unfolding(crate::specs::ScriptWords::number_of))]
pub fn index(word: &[u8]) -> Option<usize>
    ensures { result ≡ number_of 9999999999 word.now }
{
    if !is_number(word) {
        return None;
    }
    let value = value(word);
    if value <= 9_999_999_999 {
        Some(nearest(value))
    } else {
        None
    }
}

fn nearest(value: u64) -> usize
    requires { value ≤ 9999999999 }
    ensures { result ≡ value }
{
    value.min(usize::MAX as u64) as usize
}

/// A limit of at most 536870911, or `-` for none.
#[tactic(auto, unfolding(crate::specs::ScriptWords::limit_of))]
pub fn limit(word: &[u8]) -> Option<Option<u32>>
    ensures value { result ≡ limit_of word.now }
    ensures within { IfSome result IsLimit }
{
    if word == b"-".as_slice() {
        return Some(None);
    }
    match number(word, 536_870_911) {
        None => None,
        Some(limit) => Some(Some(limit as u32)),
    }
}

/// Whether a word has only bytes from 33 to 126.
#[tactic(auto, unfolding(crate::specs::ScriptWords::is_text))]
pub fn is_text(word: &[u8]) -> bool
    ensures { result ≡ is_text word.now }
{
    let mut at = 0;
    while word.len() - at >= LANES {
        if !lanes_are_text(word, at) {
            return false;
        }
        at += LANES;
    }
    few_are_text(&word[at..])
}

// Whether a short word is text, byte by byte.
fn few_are_text(word: &[u8]) -> bool
    ensures { result ≡ list_all (λ b. nat_le 33 b && nat_le b 126) word.now }
{
    word.iter().all(|b| 33 <= *b && *b <= 126)
}

#[tactic(auto, unfolding(crate::specs::ScriptWords::is_number))]
fn is_number(word: &[u8]) -> bool
    ensures { result ≡ is_number word.now }
{
    !word.is_empty() && word.len() <= 10 && all_digits(word)
}

fn all_digits(word: &[u8]) -> bool
    ensures { result ≡ list_all is_ascii_digit word.now }
{
    word.iter().all(|b| b.is_ascii_digit())
}

fn value(digits: &[u8]) -> u64
    requires few { length digits.now ≤ 10 }
    requires digits { IsTrue (list_all is_ascii_digit digits.now) }
    ensures { result ≡ value_of digits.now }
{
    let mut value = 0;
    for digit in digits {
        value = value * 10 + u64::from(*digit - b'0');
    }
    value
}
