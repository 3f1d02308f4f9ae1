//! The version of the library.
ghost use Rattle.std.specs.Prelude.{◌≡◌};

/// The version: a million times the first number, a thousand times the second, and the third.
///
/// ```text
/// mergejoin_version()  // 4000 for 0.4.0
/// ```
#[unsafe(no_mangle)]
pub extern "C" fn mergejoin_version() -> u32
    ensures { result ≡ 4000 }
{
    4000
}
