//! The version of the library.
ghost use Rattle.std.specs.Prelude.{◌≡◌};
ghost use Rattle.sf_c.specs.Versions.{version_number};

const MAJOR: u32 = 0;

const MINOR: u32 = 1;

const PATCH: u32 = 0;

/// The version of the library as one number: 100 for 0.1.0, and 10203 for 1.2.3. It is that of the
/// archive or the shared library that runs, which may differ from that of the header. Does not
/// allocate.
#[unsafe(no_mangle)]
pub extern "C" fn sf_version() -> u32
    ensures { result ≡ version_number }
{
    MAJOR * 10_000 + MINOR * 100 + PATCH
}
