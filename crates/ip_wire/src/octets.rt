//! Numbers of two bytes in network order, the high byte first.
ghost use Rattle.std.specs.Prelude.{◌≡◌, ◌+◌, ◌*◌, ◌<◌, ◌≤◌, ◌^◌, ◌++◌, drop, take, length};
ghost use Rattle.ip_wire.specs.Octets.{be16, be16_at, be32_at};

/// The number of two bytes, the high one first.
pub fn word(high: u8, low: u8) -> u16
    ensures { result ≡ 256 * high + low }
{
    256 * high as u16 + low as u16
}

/// A number modulo 2^16 as two bytes.
pub fn be16(number: usize) -> [u8; 2]
    ensures { result ≡ be16 number }
{
    [(number / 256 % 256) as u8, (number % 256) as u8]
}

/// The number of the two bytes at `at`.
pub fn be16_at(bytes: &[u8], at: usize) -> usize
    requires { at + 2 ≤ length bytes.now }
    ensures value { result ≡ be16_at bytes.now at }
    ensures small { result < 65536 }
{
    256 * bytes[at] as usize + bytes[at + 1] as usize
}

/// The number of the four bytes at `at`.
pub fn be32_at(bytes: &[u8], at: usize) -> u32
    requires { at + 4 ≤ length bytes.now }
    ensures value { result ≡ be32_at bytes.now at }
    ensures small { result < 2 ^ 32 }
{
    65536 * be16_at(bytes, at) as u32 + be16_at(bytes, at + 2) as u32
}

/// The bytes from `at` on.
pub fn behind(bytes: &[u8], at: usize) -> &[u8]
    requires { at ≤ length bytes.now }
    ensures { result.now ≡ drop at bytes.now }
{
    &bytes[at..]
}

/// Writes `bytes` from `at` on.
pub fn put(buffer: &mut [u8], at: usize, bytes: &[u8])
    requires { at + length bytes.now ≤ length buffer.old }
    ensures { buffer.new ≡ take at buffer.old ++ (bytes.now ++ drop (at + length bytes.now) buffer.old) }
{
    buffer[at..at + bytes.len()].copy_from_slice(bytes);
}

/// Writes two pieces one behind the other, at the beginning.
#[tactic(auto, using(crate::proofs::Written::put_two))]
pub fn put_two(buffer: &mut [u8], head: &[u8], rest: &[u8])
    requires { length head.now + length rest.now ≤ length buffer.old }
    ensures value { buffer.new ≡ (head.now ++ rest.now) ++ drop (length head.now + length rest.now) buffer.old }
    ensures length { length buffer.new ≡ length buffer.old }
{
    put(buffer, 0, head);
    put(buffer, head.len(), rest);
}

/// Writes three pieces one behind the other, at the beginning.
#[tactic(auto, using(crate::proofs::Written::put_three))]
pub fn put_three(buffer: &mut [u8], head: &[u8], second: &[u8], third: &[u8])
    requires { length head.now + length second.now + length third.now ≤ length buffer.old }
    ensures value { buffer.new ≡ (head.now ++ (second.now ++ third.now))
        ++ drop (length head.now + length second.now + length third.now) buffer.old }
    ensures length { length buffer.new ≡ length buffer.old }
{
    put(buffer, 0, head);
    put(buffer, head.len(), second);
    put(buffer, head.len() + second.len(), third);
}
