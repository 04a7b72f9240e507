//! Laws that a pass leaves what was forecast. Each law is the contract of a function that does
//! nothing.
#![tactic(auto)]

ghost use Rattle.ele_forecast_laws.specs.Whenever.{CleanedWhenever, PassLeavesStaying};

use ele_world::{laws, schedule};

/// A finished pass leaves exactly the versions of a file that the forecast says stay.
pub fn pass_leaves_staying()
    ensures { PassLeavesStaying }
{
    laws::pass_leaves_kept();
}

/// Take a run with any clean events. A finished pass at its end leaves exactly the versions of a
/// file that stay by the closings of the run's other events.
pub fn cleaned_whenever()
    ensures { CleanedWhenever }
{
    schedule::schedule();
}
