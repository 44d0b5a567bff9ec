// The version of the library, as a number that hosts can compare (R13.7, R13.9).
ghost use Rattle.std.specs.Prelude.{◌≡◌};
ghost use Rattle.zenfrosta.specs.Version.{version_number};

// The version: major times 65,536, minor times 256 and patch together.
#[unsafe(no_mangle)]
pub extern "C" fn zf_version() -> u64
    ensures { result ≡ version_number }
{
    512
}
