// Which structs and calls this archive has.
ghost use Rattle.std.specs.Prelude.{◌≡◌};
ghost use Rattle.wispbundle.specs.Version.{version};

use wispbundle::version as library;

#[unsafe(no_mangle)]
pub extern "C" fn wb_version() -> u32
    ensures { result ≡ version }
{
    library::wb_version()
}
