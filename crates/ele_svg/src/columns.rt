//! The moments of a curve's points, and how many versions stay at each. A contract sees them as the definitions tell it.
ghost use Rattle.std.specs.Prelude.{◌≡◌, ◌<◌, ◌≤◌, true, IfOk, OnErr};
ghost use Rattle.ele_forecast_forms.specs.OverTime.{AreCountsAt};
ghost use Rattle.ele_svg.specs.Drawing.{drawn_moments, has_curves};
ghost use Rattle.ele_svg.specs.Summary.{column_moment, column_moments, moments_until};

use crate::summary::summary_page;
use ele_forecast::Closings;
use ele_forecast_forms::{Counts, counts_at_moments};
use ele_forecast_text::Plan;
use ele_moment::{Moment, NoMemory};
use ele_svg_marks::Page;
use std::alloc::Global;

// The points of a curve.
const COLUMNS: u64 = 187;

/// Returns how many versions stay under the policies of these plans at the moment of each point of a curve, and nothing for
/// a drawing without curves, which takes no memory. The plans are those of the closings. A pass over the closings counts
/// for one moment and one policy.
pub fn drawing_counts(
    alloc: Global,
    closings: &Closings,
    plans: &[Plan],
) -> Result<Vec<Counts>, NoMemory>
    ensures ok { IfOk result
        (λ rows. AreCountsAt (drawn_moments plans.now) closings.now plans.now rows.items) }
    ensures err { OnErr result (has_curves plans.now ≡ true) }
{
    if has_curves(plans) {
        let moments = curve_moments(alloc, plans)?;
        counts_at_moments(alloc, moments.as_slice(), closings, plans)
    } else {
        Ok(Vec::new(alloc))
    }
}

/// Whether a drawing has curves.
pub(crate) fn has_curves(plans: &[Plan]) -> bool
    ensures { result ≡ has_curves plans.now }
{
    match plans {
        [] => false,
        [plan] => plan.forecasts.len() > 200,
        [_, _, ..] => true,
    }
}

/// Returns the moment of each point of the curves of a drawing. `NoMemory` if memory is refused.
pub fn curve_moments(alloc: Global, plans: &[Plan]) -> Result<Vec<Moment>, NoMemory>
    ensures { IfOk result (λ moments. moments.items ≡ column_moments plans.now) }
{
    let page = summary_page(plans);
    moments_until(alloc, &page, COLUMNS)
}

// The moments of so many points.
fn moments_until(alloc: Global, page: &Page, columns: u64) -> Result<Vec<Moment>, NoMemory>
    requires { columns ≤ 187 }
    ensures { IfOk result (λ moments. moments.items ≡ moments_until page.now columns) }
{
    let mut moments = Vec::new(alloc);
    for column in 0..columns {
        moments.push(column_moment(page, column))?;
    }
    Ok(moments)
}

// The moment of a point.
fn column_moment(page: &Page, column: u64) -> Moment
    requires { column < 187 }
    ensures { result ≡ column_moment page.now column }
{
    page.first.lemma_in_range();
    page.last.lemma_in_range();
    match page.first.plus(page.span() * column / 186) {
        Some(moment) => moment,
        None => page.last,
    }
}
