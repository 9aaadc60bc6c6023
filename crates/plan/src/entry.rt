// The header of a plan.
ghost use Rattle.std.specs.Prelude.{◌≡◌, ◌≤◌, length};
ghost use Rattle.plan.specs.Header.{header_length, header_of};

use crate::header::Header;
use crate::view::over;

// The header of a plan that has one.
pub fn header_of(plan: &[u8]) -> Header
    requires { header_length ≤ length plan.now }
    ensures { result ≡ header_of plan.now }
{
    over(plan).header
}
