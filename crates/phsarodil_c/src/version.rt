// Which words this interface speaks: the one call that returns no refusal number.
ghost use Rattle.std.specs.Prelude.{◌≡◌};
ghost use Rattle.phsarodil.specs.Version.{door_version};

use phsarodil::version;

#[unsafe(no_mangle)]
pub extern "C" fn phs_version() -> u64
    ensures { result ≡ door_version }
{
    version::phs_version()
}
