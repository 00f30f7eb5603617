//! The version of the library.

ghost use Rattle.std.specs.Prelude.{◌≡◌};

/// The version: 1000000 times the major number, plus 1000 times the minor number, plus the patch
/// number.
pub const VERSION: u32 = 1000000;

/// Returns the version of the library, which a C caller can compare with that of its header.
#[unsafe(no_mangle)]
pub extern "C" fn lexical_version() -> u32
    ensures { result ≡ 1000000 }
{
    VERSION
}
