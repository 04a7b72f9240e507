//! What a suggested policy is to keep, by the matches of a forecast.
//! A contract sees each word as what it spells.
ghost use Rattle.std.specs.Prelude.{IfErr, IfOk, codes};
ghost use Rattle.ele_invocation.specs.Forecasts.{AreSpans, AsksKept, IsBound};
ghost use Rattle.ele_invocation.specs.Unread.{NoneAsks};
ghost use Rattle.clap.specs.Words.{first_of, found_of, rows_of};

use crate::matches::value_of;
use crate::reading::Unread;
use arrayvec::ArrayVec;
use clap::ArgMatches;
use ele_moment::read_number;
use ele_suggest::{Asked, MOST_SPANS, Span, ages_rise, read_spans};

const BAD_SPANS: &str =
    "error: --keep takes AGE:PERIODS,.., as 7d:all,90d:daily,5y:monthly: one to \
    eight ages, each with all, hourly, daily, weekly, monthly or yearly\n\n\
    For more information, try 'elephant forecast --help'.\n";

const BAD_SPAN_AGES: &str =
    "error: --keep: each age is greater than the one before it, and the first than 0\n\n\
    For more information, try 'elephant forecast --help'.\n";

const BAD_BOUND: &str = "error: --versions and --bytes take a number, without a leading \
    zero\n\n\
    For more information, try 'elephant forecast --help'.\n";

/// Returns what a suggested policy is to keep, which is nothing if no option says it.
pub(crate) fn keep_in(forecast: &ArgMatches) -> Result<Asked, Unread>
    ensures read { IfOk result (AsksKept (rows_of (found_of forecast.now))) }
    ensures unread { IfErr result (NoneAsks (AsksKept (rows_of (found_of forecast.now)))) }
{
    let spans = match spans_in(forecast) {
        Ok(spans) => spans,
        Err(why) => return Err(why),
    };
    let most_versions = match bound_in(forecast, "versions") {
        Ok(most) => most,
        Err(why) => return Err(why),
    };
    let most_bytes = match bound_in(forecast, "bytes") {
        Ok(most) => most,
        Err(why) => return Err(why),
    };
    Ok(Asked {
        spans,
        most_versions,
        most_bytes,
    })
}

// Returns the spans of each of whose periods a version is kept.
fn spans_in(forecast: &ArgMatches) -> Result<ArrayVec<Span, MOST_SPANS>, Unread>
    ensures read { IfOk result (λ spans. AreSpans (first_of (codes "keep")
        (rows_of (found_of forecast.now))) spans.items) }
    ensures unread { IfErr result (NoneAsks (AreSpans (first_of (codes "keep")
        (rows_of (found_of forecast.now))))) }
{
    let Some(word) = value_of(forecast, "keep") else {
        return Ok(ArrayVec::new());
    };
    let Some(spans) = read_spans(word.as_bytes()) else {
        return Err(Unread::Because(BAD_SPANS));
    };
    if !ages_rise(spans.as_slice()) {
        return Err(Unread::Because(BAD_SPAN_AGES));
    }
    Ok(spans)
}

// Returns the number that bounds what is kept, if that option has one.
fn bound_in(forecast: &ArgMatches, name: &str) -> Result<Option<u64>, Unread>
    ensures read { IfOk result (IsBound (first_of name.now (rows_of (found_of forecast.now)))) }
    ensures unread { IfErr result (NoneAsks (IsBound (first_of name.now
        (rows_of (found_of forecast.now))))) }
{
    let Some(word) = value_of(forecast, name) else {
        return Ok(None);
    };
    match read_number(word.as_bytes()) {
        Some(most) => Ok(Some(most)),
        None => Err(Unread::Because(BAD_BOUND)),
    }
}
