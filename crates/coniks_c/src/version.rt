//! The version of the library.

ghost use Rattle.std.specs.Prelude.{◌≡◌};

/// Returns the version of the library, 10,000 times the major number plus 100 times the minor one plus the patch.
#[unsafe(no_mangle)]
pub extern "C" fn coniks_version() -> u32
    ensures { result ≡ 10000 }
{
    10_000
}
