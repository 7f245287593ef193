// The check value under a C name, for bench/check_value.
#![tactic(auto)]

ghost use Rattle.std.specs.Prelude.{◌≡◌};
ghost use Rattle.check_value.specs.CheckValue.{check_value};

#[unsafe(no_mangle)]
pub extern "C" fn panel_check_value(bytes: &[u8]) -> u16
    ensures { result ≡ check_value bytes.now }
{
    check_value::check_value(bytes)
}
