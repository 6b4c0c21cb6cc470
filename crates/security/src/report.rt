// What a command gives back beside its response.
ghost use Rattle.std.specs.Prelude.{◌≡◌, []};
ghost use Rattle.model.specs.Call as call;
ghost use Rattle.access.specs.VolatileState.{volatile_of};
ghost use Rattle.security.specs.Report.{report_of};

use access::volatile::Volatile;

// The state after it, and the tries left of the counter that it used, 0 if it used none.
#[derive(Clone, Copy)]
pub struct Report {
    pub state: Volatile,
    pub tries: u8,
}

// The report of a command that used none.
pub fn reporting(state: Volatile) -> Report
    ensures { report_of result [] ≡ call.reporting (volatile_of state) [] }
{
    Report { state, tries: 0 }
}
