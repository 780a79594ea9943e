// The version of the calls, so that an archive which does not fit its header is found out.
ghost use Rattle.std.specs.Prelude.{◌≡◌};
ghost use Rattle.header_version.specs.Version.{version_number};

use header_version::version_number;

// The version of include/lemondarts.h, as one number.
pub fn lemondarts_version() -> u64
    ensures { result ≡ version_number }
{
    version_number()
}
