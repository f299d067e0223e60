// Which structs and calls this archive has.
ghost use Rattle.std.specs.Prelude.{◌≡◌};
ghost use Rattle.wispbundle.specs.Version.{version};

// One more with every change of a struct or of a call, so that a header can be told from an older one.
pub const VERSION: u32 = 8;

pub fn wb_version() -> u32
    ensures { result ≡ version }
{
    VERSION
}
