//! Lists the versions that are due or kept at a moment. A contract sees them as their numbers.
ghost use Rattle.std.specs.Prelude.{◌≡◌, ◌==◌, ◌+◌, ◌^◌, ◌<◌, IfOk, slice_set, true};
ghost use Rattle.std.specs.List.{list_any};
ghost use Rattle.ele_forecast_text.specs.Labels.{is_listed, listed_at};
ghost use Rattle.ele_forecast_text.specs.Marked.{IsMarked};

use crate::staying::Staying;
use ele_forecast::Forecast;
use ele_moment::{NoMemory, VersionNo};
use std::alloc::Global;

/// Returns the numbers of the versions that are kept at the moment of the staying if `kept` holds,
/// otherwise of those that are due then. `NoMemory` if memory is refused.
pub fn listed_at(
    alloc: Global,
    kept: bool,
    forecasts: &[Forecast],
    staying: &Staying,
) -> Result<Vec<VersionNo>, NoMemory>
    ensures { IfOk result (λ numbers. numbers.items ≡ listed_at kept forecasts.now staying.now) }
{
    let marks = marks_of(alloc, staying.numbers.as_slice(), forecasts.len())?;
    let mut numbers = Vec::new(alloc);
    for forecast in forecasts {
        if is_listed(kept, forecast, staying, marks.as_slice()) {
            numbers.push(forecast.number)?;
        }
    }
    Ok(numbers)
}

// Whether a version is listed. The marks say which versions stay.
fn is_listed(kept: bool, forecast: &Forecast, staying: &Staying, marks: &[bool]) -> bool
    requires { IsMarked staying.now.numbers.items marks.now }
    ensures { result ≡ is_listed kept staying.now forecast.now }
{
    forecast.closed <= staying.at
        && stays(staying.numbers.as_slice(), marks, forecast.number) == kept
}

// Whether the number is in the list. The marks say so for small numbers.
fn stays(numbers: &[VersionNo], marks: &[bool], number: VersionNo) -> bool
    requires { IsMarked numbers.now marks.now }
    ensures { result ≡ list_any (λ other. other == number) numbers.now }
{
    match marks.get(number.0 as usize) {
        Some(mark) => *mark,
        None => numbers.iter().any(|other| *other == number),
    }
}

// Returns a mark for each number up to the count, which says whether the number is in the list.
// `NoMemory` if memory is refused.
fn marks_of(alloc: Global, numbers: &[VersionNo], count: usize) -> Result<Vec<bool>, NoMemory>
    requires { count + 1 < 2 ^ 64 }
    ensures { IfOk result (λ marks. IsMarked numbers.now marks.items) }
{
    let mut marks = vec![in alloc; false; count + 1]?;
    for number in numbers {
        mark(&mut marks, *number);
    }
    Ok(marks)
}

// Sets the mark of a number, if it has one.
fn mark(marks: &mut Vec<bool>, number: VersionNo)
    ensures { marks.new.items ≡ slice_set marks.old.items number true }
{
    let place = number.0 as usize;
    if place < marks.len() {
        marks[place] = true;
    }
}
