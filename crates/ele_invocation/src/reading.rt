//! What the matches of a forecast ask for.
//! A contract sees the matches as their rows, and each word as what it spells.
ghost use Rattle.std.specs.Prelude.{
  ◌≡◌,
  ◌↔◌,
  ◌≤◌,
  ◌==◌,
  ◌&&◌,
  ◌||◌,
  [],
  IfErr,
  IfOk,
  IsOk,
  MatchBool,
  IsTrue,
  IfSome,
  Ok,
  Some,
  ℕ,
  codes,
  map,
  not,
  true,
  unwrap_or,
};
ghost use Rattle.std.specs.List.{AllZip};
ghost use Rattle.ele_outlook.specs.Against.{compares};
ghost use Rattle.ele_outlook.specs.Suggested.{suggests};
ghost use Rattle.ele_outlook.specs.declared.options.Form.{Form};
ghost use Rattle.ele_invocation.specs.Forecasts.{
  AsksForecast,
  AsksPolicy,
  Fits,
  IsForeign,
  IsForm,
  IsList,
  IsNamed,
  IsOverTime,
  IsPlain,
  IsPlainForm,
  SpellsAt,
  answer_of,
  drawing_of,
  fits,
  flagged_form,
  has_bounds,
  over_time,
  suits,
  takes_labels,
  takes_rules,
  takes_sizes,
  takes_title,
};
ghost use Rattle.ele_invocation.specs.Matches.{is_given};
ghost use Rattle.ele_invocation.specs.Unread.{NoneAsks};
ghost use Rattle.ele_invocation.specs.declared.reading.Unread.TheVariants as unread;
ghost use Rattle.clap.specs.Words.{first_of, found_of, rows_of};

use crate::keeping::keep_in;
use crate::matches::{is_on, value_of, values_of};
use crate::rules::{check_labels, clock_in, policy_words, rules_in};
use clap::ArgMatches;
use ele_moment::Moment;
use ele_outlook::{AskedPolicy, ForecastOptions, Form, Layout, MOST_POLICIES};
use ele_peer_rules::RuleFault;
use ele_tool_words::{read_length, read_policy, read_time};
use ele_typed_words::{PolicyReason, policy_reason, read_when};
use std::alloc::{AllocError, AllocFailed, Global};

const BAD_MOMENT: &str =
    "error: --at takes a time as 2026-01-31T12:00:00Z, 2026-01-31T12:00 or 2026-01-31, seconds \
    since 1970, now, +30d, or 18:00 in UTC\n\n\
    For more information, try 'elephant forecast --help'.\n";

const BAD_LIST: &str = "error: --list takes due or kept, one --policy and one --at\n\n\
    For more information, try 'elephant forecast --help'.\n";

const BAD_POLICY: &str = "error: --policy takes one, all, standard, safe:LENGTH, safe:LENGTH/FLOOR \
    or landmarks:AGE/WIDTH,.., with lengths as 3600, 90m, 7d or 1y\n\n\
    For more information, try 'elephant forecast --help'.\n";

const NO_MONTH: &str = "error: --policy takes no months, since a month is 28 to 31 days: give \
    days, as 30d\n\n\
    For more information, try 'elephant forecast --help'.\n";

const BAD_SECONDS: &str = "error: --policy: a policy has from 1 to 253402300799 seconds\n\n\
    For more information, try 'elephant forecast --help'.\n";

const BAD_FLOOR: &str = "error: --policy: a floor is at most 16 versions\n\n\
    For more information, try 'elephant forecast --help'.\n";

const BAD_PAIRS: &str = "error: --policy: a ladder has one to eight pairs, as in \
    landmarks:1d/1h,7d/1d\n\n\
    For more information, try 'elephant forecast --help'.\n";

const BAD_AGES: &str = "error: --policy: each age of a ladder is greater than the one before it\n\n\
    For more information, try 'elephant forecast --help'.\n";

const BAD_WIDTHS: &str = "error: --policy: each width of a ladder divides the next, as 1h divides \
    1d; 30d doesn't divide 365d\n\n\
    For more information, try 'elephant forecast --help'.\n";

const FILE_GIVEN: &str = "error: the times come from standard input, as in \
    'elephant forecast --policy safe:7d < FILE'\n\n\
    For more information, try 'elephant forecast --help'.\n";

const BAD_CSV: &str = "error: --csv takes --at only with --rule: the table and --json have what \
    stays at a moment\n\n\
    For more information, try 'elephant forecast --help'.\n";

const BAD_LABELS: &str = "error: --labels is for the table, --list, --json, --csv and --against: \
    leave it and the labels out\n\n\
    For more information, try 'elephant forecast --help'.\n";

const BAD_SIZES: &str = "error: --sizes is for all forms but --list: leave it and the sizes out\n\n\
    For more information, try 'elephant forecast --help'.\n";

const BAD_TITLE: &str = "error: --title is for --svg\n\n\
    For more information, try 'elephant forecast --help'.\n";

const MANY_POLICIES: &str = "error: --policy is given at most 16 times\n\n\
    For more information, try 'elephant forecast --help'.\n";

const TWO_FORMS: &str =
    "error: --every, --list, --svg, --json and --csv exclude each other, but for --every \
    with --csv\n\n\
    For more information, try 'elephant forecast --help'.\n";

const TWO_ANSWERS: &str = "error: --against and --suggest exclude each other, and --every and \
    --list; --suggest excludes --svg\n\n\
    For more information, try 'elephant forecast --help'.\n";

const BAD_AGAINST: &str = "error: --against takes one --at, and one --policy or one --rule\n\n\
    For more information, try 'elephant forecast --help'.\n";

const BAD_SUGGEST: &str = "error: --suggest takes no --policy, no --rule and at most one --at\n\n\
    For more information, try 'elephant forecast --help'.\n";

const NO_COMMON_LABELS: &str =
    "error: --against takes --labels: it compares the labels of the versions with those in \
    the file\n\n\
    For more information, try 'elephant forecast --help'.\n";

const NO_KEEP: &str = "error: --suggest takes --keep, as 7d:all,90d:daily,5y:monthly\n\n\
    For more information, try 'elephant forecast --help'.\n";

const BAD_KEPT: &str = "error: --keep, --versions and --bytes are for --suggest\n\n\
    For more information, try 'elephant forecast --help'.\n";

const NO_POLICY: &str = "error: --policy or --rule is missing\n\n\
    For more information, try 'elephant forecast --help'.\n";

const BAD_FORM: &str = "error: --rule is for the table, --json, --csv and --against\n\n\
    For more information, try 'elephant forecast --help'.\n";

const BAD_EVERY: &str = "error: --every takes a length as 3600, 90m, 7d or 1y, and no --at\n\n\
    For more information, try 'elephant forecast --help'.\n";

/// Why matches give no forecast.
#[derive(Clone, Copy)]
pub(crate) enum Unread {
    /// They ask for none, for the reason in this text.
    Because(&'static str),
    /// They ask for none, since a rule has this fault.
    BadRule(RuleFault),
    /// There is no memory for its lists.
    NoMemory,
}

impl From<AllocError> for Unread {
    ghost from_gives = { λ _ why. why ≡ unread.NoMemory };

    fn from(_refused: AllocError) -> Unread {
        Unread::NoMemory
    }
}

impl<T: Drop> From<AllocFailed<T>> for Unread {
    ghost from_gives = { λ _ why. why ≡ unread.NoMemory };

    fn from(_refused: AllocFailed<T>) -> Unread {
        Unread::NoMemory
    }
}

// Returns the form that is asked for, or the refusal of two forms, or of an unknown list or length.
fn form_in(forecast: &ArgMatches) -> Result<Form, Unread>
    ensures found { IfOk result (IsForm (rows_of (found_of forecast.now))) }
    ensures only { (form : Form) → IsForm (rows_of (found_of forecast.now)) form
        → result ≡ Ok form }
{
    let against = value_of(forecast, "against").is_some();
    let suggest = is_on(forecast, "suggest");
    let plain = plain_form_in(forecast)?;
    match answer_of(against, suggest, plain) {
        Some(form) => Ok(form),
        None => Err(Unread::Because(TWO_ANSWERS)),
    }
}

// Returns the form, or an answer in its layout.
fn answer_of(against: bool, suggest: bool, form: Form) -> Option<Form>
    ensures { result ≡ answer_of against suggest form }
{
    let layout = match form {
        Form::Table => Layout::Table,
        Form::Json => Layout::Json,
        Form::Csv => Layout::Csv,
        Form::Drawing | Form::BytesDrawing if against && !suggest => {
            return Some(Form::AgainstDrawing);
        }
        _ if against || suggest => return None,
        _ => return Some(form),
    };
    match (against, suggest) {
        (false, false) => Some(form),
        (true, false) => Some(Form::Against(layout)),
        (false, true) => Some(Form::Suggest(layout)),
        (true, true) => None,
    }
}

// Returns the form that is asked for beside no answer.
fn plain_form_in(forecast: &ArgMatches) -> Result<Form, Unread>
    ensures found { IfOk result (IsPlainForm (rows_of (found_of forecast.now))) }
    ensures only { (form : Form) → IsPlainForm (rows_of (found_of forecast.now)) form
        → result ≡ Ok form }
{
    let svg = is_on(forecast, "svg");
    let json = is_on(forecast, "json");
    let csv = is_on(forecast, "csv");
    let list = value_of(forecast, "list");
    let every = value_of(forecast, "every");
    let flags = u32::from(svg) + u32::from(json) + u32::from(list.is_some());
    if flags + u32::from(csv || every.is_some()) > 1 {
        return Err(Unread::Because(TWO_FORMS));
    }
    if let Some(word) = list {
        return list_of(word);
    }
    match every {
        Some(word) => every_of(csv, word),
        None => Ok(flagged_form(svg, is_on(forecast, "sizes"), json, csv)),
    }
}

// Returns a drawing of bytes if lines have sizes, and else one of versions.
fn drawing_of(sizes: bool) -> Form
    ensures { result ≡ drawing_of sizes }
{
    if sizes {
        Form::BytesDrawing
    } else {
        Form::Drawing
    }
}

// Returns the form of the flag that is given, or the table.
fn flagged_form(svg: bool, sizes: bool, json: bool, csv: bool) -> Form
    ensures { result ≡ flagged_form svg sizes json csv }
{
    if svg {
        drawing_of(sizes)
    } else if json {
        Form::Json
    } else if csv {
        Form::Csv
    } else {
        Form::Table
    }
}

// Returns the list with that name.
fn list_of(word: &str) -> Result<Form, Unread>
    ensures found { IfOk result (IsList word.now) }
    ensures only { (form : Form) → IsList word.now form → result ≡ Ok form }
{
    match word {
        "due" => Ok(Form::Due),
        "kept" => Ok(Form::Kept),
        _ => Err(Unread::Because(BAD_LIST)),
    }
}

// Returns a table over time with steps of this length, or its CSV.
fn every_of(csv: bool, word: &str) -> Result<Form, Unread>
    ensures found { IfOk result (IsOverTime csv word.now) }
    ensures only { (form : Form) → IsOverTime csv word.now form → result ≡ Ok form }
{
    match read_length(word.as_bytes()) {
        Some(step) if step > 0 => Ok(over_time(csv, step)),
        _ => Err(Unread::Because(BAD_EVERY)),
    }
}

// Returns a table over time with steps of so many seconds, or its CSV.
fn over_time(csv: bool, step: u64) -> Form
    ensures { result ≡ over_time csv step }
{
    if csv {
        Form::EveryCsv(step)
    } else {
        Form::Every(step)
    }
}

// Refuses more policies or moments than the form takes, with so many rules.
fn check_counts(form: Form, policies: usize, moments: usize, rules: usize) -> Result<(), Unread>
    ensures { IsOk result ↔ ((policies ≤ 16) × (suits form policies moments rules ≡ true)) }
{
    if policies > MOST_POLICIES {
        return Err(Unread::Because(MANY_POLICIES));
    }
    match form {
        Form::Due | Form::Kept if policies != 1 || moments != 1 => {
            Err(Unread::Because(BAD_LIST))
        }
        Form::Every(_) | Form::EveryCsv(_) if moments > 0 => Err(Unread::Because(BAD_EVERY)),
        Form::Csv if moments > 0 && rules == 0 => Err(Unread::Because(BAD_CSV)),
        Form::AgainstDrawing | Form::Against(_) if moments != 1 || !is_one(policies, rules) => {
            Err(Unread::Because(BAD_AGAINST))
        }
        Form::Suggest(_) if policies > 0 || rules > 0 || moments > 1 => {
            Err(Unread::Because(BAD_SUGGEST))
        }
        _ => Ok(()),
    }
}

// Whether there is one policy and no rule, or one rule and no policy.
fn is_one(policies: usize, rules: usize) -> bool
    ensures { result ≡ (((policies == 1) && (rules == 0)) || ((policies == 0) && (rules == 1))) }
{
    policies == 1 && rules == 0 || policies == 0 && rules == 1
}

// Refuses a file among the arguments.
fn check_file(forecast: &ArgMatches) -> Result<(), Unread>
    ensures { IsOk result ↔ (first_of (codes "file") (rows_of (found_of forecast.now)) ≡ None) }
{
    match value_of(forecast, "file") {
        Some(_) => Err(Unread::Because(FILE_GIVEN)),
        None => Ok(()),
    }
}

// Refuses labels, sizes or a title for a form that has no place for them.
fn check_fields(form: Form, labels: bool, sizes: bool, titled: bool) -> Result<(), Unread>
    ensures { IsOk result ↔ ((fits (takes_labels form) labels ≡ true)
        × (fits (takes_sizes form) sizes ≡ true) × (fits (takes_title form) titled ≡ true)) }
{
    if labels && !takes_labels(form) {
        return Err(Unread::Because(BAD_LABELS));
    }
    if sizes && !takes_sizes(form) {
        return Err(Unread::Because(BAD_SIZES));
    }
    if titled && !takes_title(form) {
        return Err(Unread::Because(BAD_TITLE));
    }
    Ok(())
}

// Whether a form has a place for labels.
fn takes_labels(form: Form) -> bool
    ensures { result ≡ takes_labels form }
{
    !matches!(
        form,
        Form::Drawing | Form::BytesDrawing | Form::Every(_) | Form::EveryCsv(_) | Form::Suggest(_)
    )
}

// Whether a form has a place for sizes.
fn takes_sizes(form: Form) -> bool
    ensures { result ≡ takes_sizes form }
{
    !matches!(form, Form::Drawing | Form::Due | Form::Kept)
}

// Whether a form has a place for a title.
fn takes_title(form: Form) -> bool
    ensures { result ≡ takes_title form }
{
    matches!(
        form,
        Form::Drawing | Form::BytesDrawing | Form::AgainstDrawing
    )
}

// Refuses what the form doesn't take, and a file.
fn check_fit(
    forecast: &ArgMatches,
    form: Form,
    policies: usize,
    moments: usize,
    rules: usize,
) -> Result<(), Unread>
    ensures { IsOk result ↔ Fits (rows_of (found_of forecast.now)) form policies moments rules }
{
    let labels = is_on(forecast, "labels");
    let sizes = is_on(forecast, "sizes");
    let titled = value_of(forecast, "title").is_some();
    check_file(forecast)?;
    check_counts(form, policies, moments, rules)?;
    check_rules(form, rules)?;
    check_fields(form, labels, sizes, titled)?;
    check_compared(form, labels)?;
    check_kept(forecast, form)?;
    Ok(())
}

// Refuses a comparison of versions without labels.
fn check_compared(form: Form, labels: bool) -> Result<(), Unread>
    ensures { IsOk result ↔ ((not (compares form) || labels) ≡ true) }
{
    match form {
        Form::AgainstDrawing | Form::Against(_) if !labels => Err(Unread::Because(
            NO_COMMON_LABELS,
        )),
        _ => Ok(()),
    }
}

// Refuses a suggestion that doesn't say what is kept, and what is kept for another form.
fn check_kept(forecast: &ArgMatches, form: Form) -> Result<(), Unread>
    ensures { IsOk result ↔ ((is_given (codes "keep") (rows_of (found_of forecast.now)) ≡ suggests form)
        × (fits (suggests form) (has_bounds (rows_of (found_of forecast.now))) ≡ true)) }
{
    let asks = value_of(forecast, "keep").is_some();
    let bounded = has_bounds(forecast);
    match form {
        Form::Suggest(_) if asks => Ok(()),
        Form::Suggest(_) => Err(Unread::Because(NO_KEEP)),
        _ if asks || bounded => Err(Unread::Because(BAD_KEPT)),
        _ => Ok(()),
    }
}

// Whether a suggested policy has bounds.
fn has_bounds(forecast: &ArgMatches) -> bool
    ensures { result ≡ has_bounds (rows_of (found_of forecast.now)) }
{
    value_of(forecast, "versions").is_some() || value_of(forecast, "bytes").is_some()
}

// Refuses rules for a form that has none.
fn check_rules(form: Form, rules: usize) -> Result<(), Unread>
    ensures { IsOk result ↔ ((takes_rules form || (rules == 0)) ≡ true) }
{
    match form {
        Form::Table | Form::Json | Form::Csv | Form::AgainstDrawing | Form::Against(_) => Ok(()),
        _ if rules == 0 => Ok(()),
        _ => Err(Unread::Because(BAD_FORM)),
    }
}

// Returns why a word is no policy.
fn policy_text(word: &[u8]) -> &'static str {
    match policy_reason(word) {
        PolicyReason::Month => NO_MONTH,
        PolicyReason::Seconds => BAD_SECONDS,
        PolicyReason::Floor => BAD_FLOOR,
        PolicyReason::Pairs => BAD_PAIRS,
        PolicyReason::Ages => BAD_AGES,
        PolicyReason::Widths => BAD_WIDTHS,
        PolicyReason::Form => BAD_POLICY,
    }
}

// Returns the policies that the words mean.
fn policies_in(alloc: Global, words: &[&str]) -> Result<Vec<AskedPolicy>, Unread>
    ensures read { IfOk result (λ policies. AllZip AsksPolicy
        (map (λ word. word.now) words.now) policies.items) }
    ensures unread { IfErr result (NoneAsks (AllZip AsksPolicy
        (map (λ word. word.now) words.now))) }
{
    let mut policies = Vec::new(alloc);
    for word in words {
        let policy = match policy_of(alloc, word) {
            Ok(policy) => policy,
            Err(why) => return Err(why),
        };
        policies.push(policy)?;
    }
    Ok(policies)
}

// Returns the policy that a word means.
fn policy_of(alloc: Global, word: &str) -> Result<AskedPolicy, Unread>
    ensures read { IfOk result (AsksPolicy word.now) }
    ensures unread { IfErr result (NoneAsks (AsksPolicy word.now)) }
{
    let Some(policy) = read_policy(word.as_bytes()) else {
        return Err(Unread::Because(policy_text(word.as_bytes())));
    };
    let mut typed = Vec::new(alloc);
    typed.extend_from_slice(word.as_bytes())?;
    Ok(AskedPolicy {
        word: typed,
        policy,
    })
}

// Returns the moment that a word spells.
fn read_at(word: &[u8], now: &Option<Moment>) -> Option<Moment>
    ensures found { IfSome result (SpellsAt now.now word.now) }
    ensures only { (m : ℕ) → SpellsAt now.now word.now m → result ≡ Some m }
{
    match now {
        Some(now) => read_when(word, *now),
        None => read_time(word).ok(),
    }
}

// Returns the moments that the words spell if a clock shows now.
fn moments_in(alloc: Global, now: &Option<Moment>, words: &[&str]) -> Result<Vec<Moment>, Unread>
    ensures read { IfOk result (λ moments. AllZip (SpellsAt now.now)
        (map (λ word. word.now) words.now) moments.items) }
    ensures unread { IfErr result (NoneAsks (AllZip (SpellsAt now.now)
        (map (λ word. word.now) words.now))) }
{
    let mut moments = Vec::new(alloc);
    for word in words {
        let Some(at) = read_at(word.as_bytes(), now) else {
            return Err(Unread::Because(BAD_MOMENT));
        };
        moments.push(at)?;
    }
    Ok(moments)
}

// Whether a script spells a policy by this word too.
fn is_plain(word: &str) -> bool
    ensures { MatchBool result (IsPlain word.now) (IsForeign word.now) }
{
    ele_script::read_policy(word.as_bytes()).is_ok()
}

// Whether a word is one that no script spells.
fn is_named(words: &[&str]) -> bool
    ensures { IsNamed (map (λ word. word.now) words.now) result }
{
    for word in words {
        if !is_plain(word) {
            return true;
        }
    }
    false
}

// Returns the title of a drawing, which is empty if none is given.
fn title_in(alloc: Global, forecast: &ArgMatches) -> Result<Vec<u8>, Unread>
    ensures title { IfOk result (λ title. title.items
        ≡ unwrap_or (first_of (codes "title") (rows_of (found_of forecast.now))) []) }
    ensures memory { IfErr result (λ why. why ≡ Unread.NoMemory) }
{
    let mut title = Vec::new(alloc);
    if let Some(text) = value_of(forecast, "title") {
        title.extend_from_slice(text.as_bytes())?;
    }
    Ok(title)
}

/// Returns the forecast that matches ask for.
pub(crate) fn read_forecast(
    alloc: Global,
    now: Option<Moment>,
    forecast: &ArgMatches,
) -> Result<ForecastOptions, Unread>
    ensures read { IfOk result (AsksForecast now (rows_of (found_of forecast.now))) }
    ensures unread { IfErr result (NoneAsks (AsksForecast now (rows_of (found_of forecast.now)))) }
{
    let form = form_in(forecast)?;
    let names = values_of(forecast, "rule").unwrap_or(&[]);
    let alone = ["all"];
    let given = values_of(forecast, "policy");
    let Some(words) = policy_words(is_on(forecast, "suggest"), names, given, &alone) else {
        return Err(Unread::Because(NO_POLICY));
    };
    let times = values_of(forecast, "at").unwrap_or(&[]);
    let count = given.unwrap_or(&[]).len();
    if let Err(why) = check_fit(forecast, form, count, times.len(), names.len()) {
        return Err(why);
    }
    check_labels(is_on(forecast, "labels"), names)?;
    let title = title_in(alloc, forecast)?;
    let policies = match policies_in(alloc, words) {
        Ok(policies) => policies,
        Err(why) => return Err(why),
    };
    let moments = match moments_in(alloc, &now, times) {
        Ok(moments) => moments,
        Err(why) => return Err(why),
    };
    let rules = match rules_in(alloc, names) {
        Ok(rules) => rules,
        Err(why) => return Err(why),
    };
    let clock = match clock_in(forecast) {
        Ok(clock) => clock,
        Err(why) => return Err(why),
    };
    let keep = match keep_in(forecast) {
        Ok(keep) => keep,
        Err(why) => return Err(why),
    };
    Ok(ForecastOptions {
        policies,
        named: is_named(words),
        moments,
        rules,
        clock,
        labels: is_on(forecast, "labels"),
        sizes: is_on(forecast, "sizes"),
        title,
        others: Vec::new(alloc),
        keep,
        form,
    })
}
