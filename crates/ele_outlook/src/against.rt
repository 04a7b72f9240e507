//! What a forecast keeps, against what another tool keeps by its labels. A contract sees plans as lists, and a text as its bytes.
ghost use Rattle.std.specs.Prelude.{◌≡◌, ◌≢◌, ◌⊎◌, ◌++◌, ◌∷◌, None, [], IfOk, IsSome, OnErr, OnOk, map, slice_get};
ghost use Rattle.std.specs.Option.{option_copied};
ghost use Rattle.memchr.specs.Find.{IsFirstByte, is_byte};
ghost use Rattle.ele_output.specs.Prints.{Prints};
ghost use Rattle.ele_outlook.specs.Against.{AreCompared, AreComparedAt, against_drawing, against_text, kept_here, word_here};
ghost use Rattle.ele_outlook.specs.Input.{lines_of};
ghost use Rattle.ele_outlook.specs.Parts.{texts_of};

use crate::input::{cut_line, line_end};
use crate::options::Layout;
use ele_against::{
    Compared, compare, put_compared, put_compared_csv, put_compared_heading, put_compared_json,
    put_unknown,
};
use ele_forecast::Forecast;
use ele_forecast_text::{Details, Label, Plan, Staying, versions_of};
use ele_moment::NoMemory;
use ele_output::Printer;
use ele_rule_forecast::{Judged, Verdict};
use ele_svg::put_compared_drawing;
use std::alloc::Global;
use std::io::Write;

/// Returns who keeps the versions at the first of the moments, if that is wanted: the first rule, or without a rule the first
/// policy, and the tool whose labels are the lines of the other text. `NoMemory` if memory is refused; without a moment this
/// takes none.
pub(crate) fn compared_if(
    alloc: Global,
    wanted: bool,
    labels: &[Label],
    plans: &[Plan],
    judged: &[Judged],
    others: &[u8],
) -> Result<Option<Compared>, NoMemory>
    ensures ok { IfOk result (AreCompared wanted labels.now plans.now judged.now others.now) }
    ensures err { OnErr result ((plans.now ≢ []) ⊎ (judged.now ≢ [])) }
{
    if !wanted {
        return Ok(None);
    }
    let Some(staying) = staying_here(plans, judged) else {
        return Ok(None);
    };
    let compared = compared_at(alloc, labels, versions_of(plans), others, staying)?;
    Ok(Some(compared))
}

// What is kept at the first of the moments: by the first of the rules, or without a rule under the first policy.
fn staying_here<'p>(plans: &'p [Plan], judged: &'p [Judged]) -> Option<&'p Staying>
    ensures first { option_copied result ≡ slice_get (kept_here plans.now judged.now) 0 }
    ensures some { IsSome result → (plans.now ≢ []) ⊎ (judged.now ≢ []) }
{
    match judged.first() {
        Some(rule) => kept_first(rule.verdicts.as_slice()),
        None => match plans.first() {
            Some(plan) => plan.stayings.as_slice().first(),
            None => None,
        },
    }
}

// What the first of the verdicts keeps.
fn kept_first(verdicts: &[Verdict]) -> Option<&Staying>
    ensures { option_copied result ≡ slice_get (map (λ verdict. verdict.staying) verdicts.now) 0 }
{
    match verdicts.first() {
        Some(verdict) => Some(&verdict.staying),
        None => None,
    }
}

// Who keeps the versions at the moment of the staying.
fn compared_at(
    alloc: Global,
    labels: &[Label],
    forecasts: &[Forecast],
    others: &[u8],
    staying: &Staying,
) -> Result<Compared, NoMemory>
    ensures { IfOk result (AreComparedAt labels.now forecasts.now others.now staying.now) }
{
    let names = labels_in(alloc, others)?;
    compare(alloc, labels, forecasts, staying, names.as_slice())
}

// The lines of a text as labels. The last may lack its line feed.
fn labels_in(alloc: Global, text: &[u8]) -> Result<Vec<Label>, NoMemory>
    ensures { IfOk result (λ labels. texts_of labels.items ≡ lines_of text.now) }
{
    let mut labels = Vec::new(alloc);
    let mut rest = text;
    'lines: while let Some(at) = line_end(rest) {
        let (line, behind) = cut_line(rest, at);
        add_label(alloc, line, &mut labels)?;
        rest = behind;
    }
    add_last(alloc, rest, labels)
}

// Adds the last line, which has no line feed. Without bytes there is no such line.
fn add_last(alloc: Global, rest: &[u8], mut labels: Vec<Label>) -> Result<Vec<Label>, NoMemory>
    requires { IsFirstByte (is_byte 10) rest.now None }
    ensures { IfOk result (λ all. texts_of all.items ≡ texts_of labels.items ++ lines_of rest.now) }
{
    if rest.is_empty() {
        return Ok(labels);
    }
    add_label(alloc, rest, &mut labels)?;
    Ok(labels)
}

// Adds a label.
fn add_label(alloc: Global, line: &[u8], labels: &mut Vec<Label>) -> Result<(), NoMemory>
    ensures { OnOk result (texts_of labels.new.items ≡ texts_of labels.old.items ++ line.now ∷ []) }
{
    let mut text = Vec::new(alloc);
    text.extend_from_slice(line)?;
    labels.push(Label { text })?;
    Ok(())
}

/// Returns the rule or the policy by which versions are kept here, as it was given.
pub(crate) fn word_here<'p>(plans: &'p [Plan], judged: &'p [Judged]) -> &'p [u8]
    ensures { result.now ≡ word_here plans.now judged.now }
{
    match judged.first() {
        Some(rule) => rule.word.as_slice(),
        None => match plans.first() {
            Some(plan) => plan.word.as_slice(),
            None => b"",
        },
    }
}

/// Prints who keeps which versions, if that was compared. `word` says by what they are kept here.
pub(crate) fn put_against<W: Write>(
    layout: Layout,
    details: &Details,
    word: &[u8],
    compared: &Option<Compared>,
    printer: &mut Printer<'_, W>,
)
    ensures { Prints W.contents printer.old printer.new
        (against_text layout details.now word.now compared.now) }
{
    let Some(compared) = compared else {
        return;
    };
    match layout {
        Layout::Table => {
            put_compared(details, word, compared, printer);
            put_unknown(compared.unknown.as_slice(), printer);
        }
        Layout::Json => {
            put_compared_json(details, compared, printer);
            printer.put(b"\n");
        }
        Layout::Csv => {
            put_compared_heading(details, printer);
            put_compared_csv(details, word, compared, printer);
        }
    }
}

/// Prints who keeps which versions as a drawing with this title, if that was compared.
pub(crate) fn put_against_drawing<W: Write>(
    title: &[u8],
    details: &Details,
    plans: &[Plan],
    judged: &[Judged],
    compared: &Option<Compared>,
    printer: &mut Printer<'_, W>,
)
    ensures { Prints W.contents printer.old printer.new
        (against_drawing title.now details.now plans.now judged.now compared.now) }
{
    if let Some(compared) = compared {
        let word = word_here(plans, judged);
        put_compared_drawing(title, word, details, versions_of(plans), compared, printer);
    }
}
