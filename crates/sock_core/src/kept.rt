//! A value beside a flag, in place of an `Option`: the tag of one takes as many bytes as its value is aligned by.
ghost use Rattle.std.specs.Prelude.{◌≡◌};
ghost use Rattle.sock_core.specs.Kept.{kept};

/// The value, where the flag says that there is one.
#[inline(always)]
pub fn kept<T: Copy>(has: bool, value: T) -> Option<T>
    ensures { result ≡ kept has value }
{
    if has { Some(value) } else { None }
}
