//! The arguments of a forecast.
ghost use Rattle.std.specs.Prelude.{◌≡◌, IfOk, codes, option_map, string_bytes};
ghost use Rattle.ele_invocation.specs.Built.{HasShape};
ghost use Rattle.ele_invocation.specs.Invocation.{IsForecast};
ghost use Rattle.ele_invocation.specs.Program.{asked_rules, command_shape, forecast_shape, plain_shape};
ghost use Rattle.clap.specs.Words.{first_of, found_of, rows_of};

use crate::invocation::{Invocation, command_of, flag, not_understood, option};
use crate::matches::value_of;
use crate::reading::{Unread, read_forecast};
use crate::rules::bad_rule;
use clap::{Arg, ArgAction, ArgMatches, Command};
use ele_moment::Moment;
use std::alloc::{AllocError, Global};

const FORECAST: &str = "Print when each version of a file becomes due, and why";

const MORE: &str = "\
The moments at which the file closed come from standard input, one a line, the
oldest first: 2026-01-31T12:00:00Z, 2026-01-31 or seconds since 1970.

A policy is one, all, standard, safe:LENGTH, safe:LENGTH/FLOOR or
landmarks:AGE/WIDTH,.. ('elephant help policies'). AGE, WIDTH and LENGTH are
seconds, or a number with s, m, h, d, w or y, as 7d.

A rule is a tool, a colon and options of that tool, as in
restic:keep-last=3,keep-daily=7 or borg:keep-within=30d,keep-weekly=4. The tool
is restic, restic-0.15, borg, btrbk, snapper or sanoid. It keeps by the days,
weeks and months of the clock of each time.

Example:
  printf '2026-01-01\\n2026-01-02\\n' | elephant forecast --policy safe:7d";

const POLICY: &str = "Forecast under POL; give up to 16 to compare them. With\n\
    --rule alone it is `all`";

const AT: &str = "Also print which versions are kept at the moment M: a\n\
    time, now, +30d or 18:00 in UTC; can be given several\n\
    times";

const SVG: &str = "Print an SVG drawing instead of the table; with --sizes\n\
    of the bytes that stay";

const TITLE: &str = "Give the drawing this title";

const EVERY: &str = "Print how many versions each policy keeps, every\n\
    LENGTH from the first closing on; with --sizes also how\n\
    many bytes it keeps and frees";

const JSON: &str = "Print JSON instead of the table";

const CSV: &str = "Print CSV instead of the table, also of --every";

const LABELS: &str = "Read a tab and a label after each time, and print it";

const SIZES: &str = "Read a tab and a size in bytes after each time, before\n\
    a label, and print it, and what the removals free";

const LIST: &str = "Print only the versions that are `due` or `kept` at the\n\
    moment of --at: their labels, or without --labels their\n\
    numbers";

const RULE: &str = "Also print what a rule of another tool keeps, beside\n\
    the policies; can be given several times";

const AGAINST: &str = "Compare what stays at the moment of --at with what\n\
    another tool keeps: FILE has its labels, one a line.\n\
    Takes --labels, and one --policy or one --rule";

const SUGGEST: &str = "Print which policies keep what --keep asks, and which\n\
    of them keeps the fewest bytes: at the moment of --at,\n\
    or a second after the last time";

const KEEP: &str = "Suggest a policy that keeps a version of each of these\n\
    periods until an age, as 7d:all,90d:daily,5y:monthly;\n\
    also hourly, weekly, yearly";

const VERSIONS: &str = "Suggest one that keeps N versions at most";

const BYTES: &str = "Suggest one that keeps N bytes at most";

const OFFSET: &str = "Read times without an offset by a clock of this one, as\n\
    +05:30";

// Returns the command with the arguments that say what is forecast, and when.
fn asked<'a>(alloc: Global) -> Result<Command<'a>, AllocError>
    ensures { IfOk result (HasShape (command_shape (codes "forecast") asked_rules)) }
{
    let policy = option(alloc, "policy", "POL", POLICY).action(ArgAction::Append);
    let at = option(alloc, "at", "M", AT).action(ArgAction::Append);
    let rule = option(alloc, "rule", "RULE", RULE).action(ArgAction::Append);
    // A file among the arguments is refused with a hint.
    let file = Arg::new(alloc, "file").hide(true);
    command_of(alloc, "forecast", FORECAST, MORE)
        .arg(file)?
        .arg(policy)?
        .arg(at)?
        .arg(option(alloc, "every", "LENGTH", EVERY))?
        .arg(rule)?
        .arg(option(alloc, "offset", "OFFSET", OFFSET))
}

// Returns the command with these, the fields of its input and its form.
fn plain_forecast<'a>(alloc: Global) -> Result<Command<'a>, AllocError>
    ensures { IfOk result (HasShape plain_shape) }
{
    asked(alloc)?
        .arg(flag(alloc, "labels", LABELS))?
        .arg(flag(alloc, "sizes", SIZES))?
        .arg(option(alloc, "list", "WHICH", LIST))?
        .arg(flag(alloc, "svg", SVG))?
        .arg(option(alloc, "title", "TEXT", TITLE))?
        .arg(flag(alloc, "json", JSON))?
        .arg(flag(alloc, "csv", CSV))
}

/// Returns the arguments of a forecast, as clap reads them.
pub(crate) fn forecast<'a>(alloc: Global) -> Result<Command<'a>, AllocError>
    ensures { IfOk result (HasShape forecast_shape) }
{
    plain_forecast(alloc)?
        .arg(option(alloc, "against", "FILE", AGAINST))?
        .arg(flag(alloc, "suggest", SUGGEST))?
        .arg(option(alloc, "keep", "SPANS", KEEP))?
        .arg(option(alloc, "versions", "N", VERSIONS))?
        .arg(option(alloc, "bytes", "N", BYTES))
}

// Returns the name of the file with the labels of another tool, if there is one.
fn others_in(alloc: Global, forecast: &ArgMatches) -> Result<Option<String>, AllocError>
    ensures { IfOk result (λ others. option_map string_bytes others
        ≡ first_of (codes "against") (rows_of (found_of forecast.now))) }
{
    match value_of(forecast, "against") {
        Some(name) => Ok(Some(String::from_str(alloc, name)?)),
        None => Ok(None),
    }
}

/// Returns what the arguments of a forecast ask for.
pub(crate) fn asked_forecast(
    alloc: Global,
    now: Option<Moment>,
    forecast: &ArgMatches,
) -> Invocation
    ensures { IsForecast now (rows_of (found_of forecast.now)) result }
{
    match read_forecast(alloc, now, forecast) {
        Ok(ask) => match others_in(alloc, forecast) {
            Ok(others) => Invocation::Forecast(ask, others),
            Err(_) => Invocation::NoMemory,
        },
        Err(Unread::Because(why)) => not_understood(alloc, why),
        Err(Unread::BadRule(fault)) => bad_rule(alloc, fault),
        Err(Unread::NoMemory) => Invocation::NoMemory,
    }
}
