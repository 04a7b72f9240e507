//! What a form shows of versions beside their plans. A contract sees rows, plans and numbers as lists.
ghost use Rattle.std.specs.Prelude.{◌≡◌, ◌≢◌, ◌⊎◌, true, [], IfOk, OnErr};
ghost use Rattle.ele_forecast_text.specs.Plan.{versions_of};
ghost use Rattle.ele_rule_forecast.specs.Judged.{AreJudged};
ghost use Rattle.ele_space.specs.Amounts.{AreAmountsAt};
ghost use Rattle.ele_svg.specs.Drawing.{has_curves};
ghost use Rattle.ele_outlook.specs.Reading.{IsFoundIn, MayLack};
ghost use Rattle.ele_outlook.specs.Against.{compares};
ghost use Rattle.ele_outlook.specs.Parts.{stayings_of};
ghost use Rattle.ele_outlook.specs.Suggested.{IsSuggested, suggests};
ghost use Rattle.ele_outlook.specs.Told.{AreDrawn, AreFreed, AreRows, amount_moments, clock_of, has_removals, listed_numbers, moments_if, numbers_at, points_of};

use crate::against::compared_if;
use crate::drawn::byte_rows;
use crate::input::ReadLines;
use crate::options::{ForecastOptions, Form, clock_of};
use crate::suggested::suggested_if;
use ele_against::Compared;
use ele_forecast::{Closings, Forecast};
use ele_forecast_forms::{Counts, counts_every};
use ele_forecast_text::{Plan, Staying, listed_at};
use ele_moment::{Moment, NoMemory, VersionNo};
use ele_peer_rules::Row;
use ele_rule_forecast::{AskedRule, Judged, judge};
use ele_space::{Amounts, Removals, amounts_at, moments_in, removals_of};
use ele_suggest::Suggestion;
use ele_svg::{curve_moments, drawing_counts};
use std::alloc::Global;

/// What a form shows of versions beside their plans.
#[derive(Drop)]
pub struct Found {
    /// What each rule keeps.
    pub judged: Vec<Judged>,
    /// The numbers that a list has.
    pub listed: Vec<VersionNo>,
    /// The counts of a table over time or of a drawing's curves.
    pub counts: Vec<Counts>,
    /// The bytes at the moments at which the form shows them.
    pub amounts: Vec<Amounts>,
    /// These bytes as the points of a drawing's curves.
    pub bytes: Vec<Counts>,
    /// What the removals under each policy free, at each moment that is asked about.
    pub removals: Vec<Removals>,
    /// Which versions another tool keeps too, if the form compares them.
    pub compared: Option<Compared>,
    /// Which policy keeps what is asked, if the form suggests one.
    pub suggested: Option<Suggestion>,
}

/// Returns what the form shows of versions beside their plans. `NoMemory` if memory is refused.
pub(crate) fn find(
    alloc: Global,
    options: &ForecastOptions,
    read: &ReadLines,
    plans: &[Plan],
) -> Result<Found, NoMemory>
    ensures ok { IfOk result (IsFoundIn options.now read.now plans.now) }
    ensures err { OnErr result (MayLack options.now plans.now) }
{
    let judged = judged_by(
        alloc,
        options.rules.as_slice(),
        read.rows.as_slice(),
        options.moments.as_slice(),
    )?;
    let listed = listed(alloc, options.form, plans)?;
    let counts = counted(alloc, options.form, &read.closings, plans)?;
    let amounts = summed(alloc, options, read, plans, counts.as_slice())?;
    let bytes = drawn(alloc, options.form, amounts.as_slice())?;
    let removals = freed(alloc, options, plans)?;
    let compared = compared_if(
        alloc,
        compares(options.form),
        read.details.labels.as_slice(),
        plans,
        judged.as_slice(),
        options.others.as_slice(),
    )?;
    let suggested = suggested_in(alloc, options, read)?;
    Ok(Found {
        judged,
        listed,
        counts,
        amounts,
        bytes,
        removals,
        compared,
        suggested,
    })
}

// Whether the form compares what is kept with other labels.
fn compares(form: Form) -> bool
    ensures { result ≡ compares form }
{
    matches!(form, Form::AgainstDrawing | Form::Against(_))
}

// Whether the form suggests a policy.
fn suggests(form: Form) -> bool
    ensures { result ≡ suggests form }
{
    matches!(form, Form::Suggest(_))
}

// Returns the policy that is suggested for what was read, if the form suggests one.
fn suggested_in(
    alloc: Global,
    options: &ForecastOptions,
    read: &ReadLines,
) -> Result<Option<Suggestion>, NoMemory>
    ensures ok { IfOk result (IsSuggested (suggests options.now.form) options.now.keep
        (clock_of options.now) read.now.details.sizes.items read.now.closings
        options.now.moments.items) }
    ensures err { OnErr result (suggests options.now.form ≡ true) }
{
    suggested_if(
        alloc,
        suggests(options.form),
        &options.keep,
        clock_of(options),
        read.details.sizes.as_slice(),
        &read.closings,
        options.moments.as_slice(),
    )
}

// Returns what the rules keep of the versions with these rows.
fn judged_by(
    alloc: Global,
    rules: &[AskedRule],
    rows: &[Row],
    moments: &[Moment],
) -> Result<Vec<Judged>, NoMemory>
    ensures ok { IfOk result (λ judged. AreJudged rules.now rows.now moments.now judged.items) }
    ensures err { OnErr result (rules.now ≢ []) }
{
    if rules.is_empty() {
        return Ok(Vec::new(alloc));
    }
    judge(alloc, rules, rows, moments)
}

// Returns the counts of a table over time or of a drawing's curves, or none for another form.
fn counted(
    alloc: Global,
    form: Form,
    closings: &Closings,
    plans: &[Plan],
) -> Result<Vec<Counts>, NoMemory>
    ensures ok { IfOk result (λ rows. AreRows form closings.now plans.now rows.items) }
    ensures err { OnErr result ((versions_of plans.now ≢ []) ⊎ (has_curves plans.now ≡ true)) }
{
    match form {
        Form::Every(step) | Form::EveryCsv(step) => counts_every(alloc, step, closings, plans),
        Form::Drawing => drawing_counts(alloc, closings, plans),
        Form::Table
        | Form::BytesDrawing
        | Form::Due
        | Form::Kept
        | Form::Json
        | Form::Csv
        | Form::AgainstDrawing
        | Form::Against(_)
        | Form::Suggest(_) => Ok(Vec::new(alloc)),
    }
}

// Returns the moments of these counts, if a table over time has bytes.
fn moments_if(alloc: Global, wanted: bool, counts: &[Counts]) -> Result<Vec<Moment>, NoMemory>
    ensures ok { IfOk result (λ moments. moments.items ≡ moments_if wanted counts.now) }
    ensures err { OnErr result ((wanted ≡ true) × (counts.now ≢ [])) }
{
    if wanted {
        moments_in(alloc, counts)
    } else {
        Ok(Vec::new(alloc))
    }
}

// Returns the moments of the points of the curves, if there is a policy.
fn points_of(alloc: Global, plans: &[Plan]) -> Result<Vec<Moment>, NoMemory>
    ensures ok { IfOk result (λ moments. moments.items ≡ points_of plans.now) }
    ensures err { OnErr result (plans.now ≢ []) }
{
    if plans.is_empty() {
        Ok(Vec::new(alloc))
    } else {
        curve_moments(alloc, plans)
    }
}

// Returns the moments at which the form shows the bytes that stay.
fn amount_moments(
    alloc: Global,
    options: &ForecastOptions,
    plans: &[Plan],
    counts: &[Counts],
) -> Result<Vec<Moment>, NoMemory>
    ensures ok { IfOk result (λ moments. moments.items
        ≡ amount_moments options.now.form options.now.sizes plans.now counts.now) }
    ensures err { OnErr result ((counts.now ≢ []) ⊎ (plans.now ≢ [])) }
{
    match options.form {
        Form::Every(_) => moments_if(alloc, options.sizes, counts),
        Form::EveryCsv(_) => moments_if(alloc, true, counts),
        Form::BytesDrawing => points_of(alloc, plans),
        Form::Table
        | Form::Drawing
        | Form::Due
        | Form::Kept
        | Form::Json
        | Form::Csv
        | Form::AgainstDrawing
        | Form::Against(_)
        | Form::Suggest(_) => Ok(Vec::new(alloc)),
    }
}

// Returns the bytes at the moments at which the form shows them.
fn summed(
    alloc: Global,
    options: &ForecastOptions,
    read: &ReadLines,
    plans: &[Plan],
    counts: &[Counts],
) -> Result<Vec<Amounts>, NoMemory>
    ensures ok { IfOk result (λ amounts. AreAmountsAt
        (amount_moments options.now.form options.now.sizes plans.now counts.now)
        read.now.closings read.now.details.sizes.items plans.now amounts.items) }
    ensures err { OnErr result ((counts.now ≢ []) ⊎ (plans.now ≢ [])) }
{
    let moments = amount_moments(alloc, options, plans, counts)?;
    let sizes = read.details.sizes.as_slice();
    amounts_at(alloc, moments.as_slice(), &read.closings, sizes, plans)
}

// Returns the points of the curves of a drawing of bytes.
fn drawn(alloc: Global, form: Form, amounts: &[Amounts]) -> Result<Vec<Counts>, NoMemory>
    ensures ok { IfOk result (λ drawn. AreDrawn form amounts.now drawn.items) }
    ensures err { OnErr result (amounts.now ≢ []) }
{
    match form {
        Form::BytesDrawing => byte_rows(alloc, amounts),
        Form::Table
        | Form::Drawing
        | Form::Due
        | Form::Kept
        | Form::Json
        | Form::Csv
        | Form::Every(_)
        | Form::EveryCsv(_)
        | Form::AgainstDrawing
        | Form::Against(_)
        | Form::Suggest(_) => Ok(Vec::new(alloc)),
    }
}

// Returns what the removals under each plan free, if the form has it.
fn freed(
    alloc: Global,
    options: &ForecastOptions,
    plans: &[Plan],
) -> Result<Vec<Removals>, NoMemory>
    ensures ok { IfOk result
        (λ removals. AreFreed (has_removals options.now) plans.now removals.items) }
    ensures err { OnErr result (options.now.moments.items ≢ []) }
{
    if has_removals(options) {
        removals_of(alloc, plans)
    } else {
        Ok(Vec::new(alloc))
    }
}

// Whether the form has what the removals free.
fn has_removals(options: &ForecastOptions) -> bool
    ensures { result ≡ has_removals options.now }
{
    matches!(options.form, Form::Table | Form::Json) && options.sizes && !options.moments.is_empty()
}

// Returns the numbers of the versions that the form lists.
fn listed(alloc: Global, form: Form, plans: &[Plan]) -> Result<Vec<VersionNo>, NoMemory>
    ensures ok { IfOk result (λ numbers. numbers.items ≡ listed_numbers form plans.now) }
    ensures err { OnErr result (stayings_of plans.now ≢ []) }
{
    match plans.first() {
        Some(plan) => listed_of(
            alloc,
            form,
            plan.forecasts.as_slice(),
            plan.stayings.as_slice(),
        ),
        None => Ok(Vec::new(alloc)),
    }
}

// Returns the numbers of the versions among these that the form lists.
fn listed_of(
    alloc: Global,
    form: Form,
    forecasts: &[Forecast],
    stayings: &[Staying],
) -> Result<Vec<VersionNo>, NoMemory>
    ensures ok { IfOk result
        (λ numbers. numbers.items ≡ numbers_at form forecasts.now stayings.now) }
    ensures err { OnErr result (stayings.now ≢ []) }
{
    let Some(staying) = stayings.first() else {
        return Ok(Vec::new(alloc));
    };
    match form {
        Form::Table
        | Form::Drawing
        | Form::BytesDrawing
        | Form::Json
        | Form::Csv
        | Form::Every(_)
        | Form::EveryCsv(_)
        | Form::AgainstDrawing
        | Form::Against(_)
        | Form::Suggest(_) => Ok(Vec::new(alloc)),
        Form::Due => listed_at(alloc, false, forecasts, staying),
        Form::Kept => listed_at(alloc, true, forecasts, staying),
    }
}
