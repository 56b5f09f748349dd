// The version of Polluxvalve, which include/pollux.h has too.
ghost use Rattle.std.specs.Prelude.{◌≡◌};
ghost use Rattle.abi.specs.Version.{version, version_number};

const MAJOR: u64 = 2;

const MINOR: u64 = 0;

const PATCH: u64 = 3;

// As one number: a version that is later has a larger one.
pub(crate) fn number() -> u64
    ensures { result ≡ version_number version }
{
    MAJOR * 1_000_000 + MINOR * 1_000 + PATCH
}
