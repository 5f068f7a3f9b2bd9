// The library's version, to be compared with the header's.
ghost use Rattle.std.specs.Prelude.{◌≡◌};
ghost use Rattle.boltraven_c.specs.Numbers.{version_number};

// Ten thousand times the major number, a hundred times the minor one, and the patch.
#[unsafe(no_mangle)]
pub extern "C" fn boltraven_version() -> u32
    ensures { result ≡ version_number }
{
    boltraven_c::version::boltraven_version()
}
