//! The version of the library, for a caller to compare with that of its header.
ghost use Rattle.std.specs.Prelude.{◌≡◌};
ghost use Rattle.papr_c.specs.Version.{version_number};

/// A higher one has calls that a caller of the lower one may not understand.
const MAJOR: u32 = 0;

/// A higher one has more.
const MINOR: u32 = 1;

/// A higher one mends what was wrong.
const PATCH: u32 = 0;

/// The version of this library, as `PAPR_VERSION` of the header that it was built with.
#[unsafe(no_mangle)]
pub extern "C" fn papr_version() -> u32
    ensures { result ≡ version_number MAJOR MINOR PATCH }
{
    MAJOR << 16 | MINOR << 8 | PATCH
}
