ghost use Rattle.std.specs.Prelude.{◌≡◌};
ghost use Rattle.vh_design_systf.specs.Table.{is_built_in};

/// Whether a system task or function of this name is built in, and no script's (IEEE 1364-2005, 17).
pub fn is_built_in(name: &[u8]) -> bool
    ensures { result ≡ is_built_in name.now }
{
    name == b"$display".as_slice()
        || name == b"$write".as_slice()
        || name == b"$strobe".as_slice()
        || name == b"$monitor".as_slice()
        || name == b"$finish".as_slice()
        || name == b"$stop".as_slice()
        || name == b"$time".as_slice()
        || name == b"$signed".as_slice()
        || name == b"$unsigned".as_slice()
}
