// The version of the calls for C as one number, so that an archive which does not fit its header is found out.
#![tactic(auto)]

ghost use Rattle.std.specs.Prelude.{◌≡◌};
ghost use Rattle.header_version.specs.Version.{version_number};

// The version of include/lemondarts.h: 10,000 for each of the first part, 100 for each of the second, and the third.
pub fn version_number() -> u64
    ensures { result ≡ version_number }
{
    4 * 10000 + 7 * 100
}
