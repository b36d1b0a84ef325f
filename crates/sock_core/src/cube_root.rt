//! Cube roots.
ghost use Rattle.std.specs.Prelude.{◌≡◌, ◌+◌, ◌<◌, ◌^◌};
ghost use Rattle.sock_core.specs.CubeRoot.{cube, cube_root};

// The cube of 2^21 is 2^63.
const ABOVE_ALL: u64 = 1 << 21;

// Of a number whose cube fits.
pub(crate) fn cube(n: u64) -> u64
    requires { n < 2097152 }
    ensures { result ≡ cube n }
{
    n * n * n
}

// A number between two that are not next to each other.
fn between(low: u64, high: u64) -> u64
    requires { low + 1 < high }
    ensures above { low < result }
    ensures below { result < high }
{
    low + (high - low) / 2
}

/// The greatest number whose cube is at most `x`, found in 21 steps.
pub(crate) fn cube_root(x: u64) -> u64
    requires { x < 2 ^ 63 }
    ensures value { result ≡ cube_root x }
    ensures small { result < 2097152 }
{
    let mut low = 0;
    let mut high = ABOVE_ALL;
    while low + 1 < high {
        let middle = between(low, high);
        if cube(middle) <= x {
            low = middle;
        } else {
            high = middle;
        }
    }
    low
}
