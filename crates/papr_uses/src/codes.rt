//! Callers of `papr_codes`: a hypervisor call's number gives the call, and the call its number.
ghost use Rattle.std.specs.Prelude.{◌≡◌, IsTrue};
ghost use Rattle.papr_codes.specs.Hcalls.{is_named};

use papr_codes::Hcall;

/// The number of the call that a number names: the same number, whether it has a name or not.
pub fn number_again(number: u64) -> u64
    ensures { result ≡ number }
{
    Hcall::of_number(number).number()
}

/// The call of a call's number: the same call, where it has a name.
pub fn call_again(call: Hcall) -> Hcall
    ensures { IsTrue (is_named call) → result ≡ call }
{
    Hcall::of_number(call.number())
}
