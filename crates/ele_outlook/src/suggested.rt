//! A suggested policy. A contract sees closings and sizes as lists, and a text as its bytes.
ghost use Rattle.std.specs.Prelude.{◌≡◌, true, IfOk, OnErr, slice_get};
ghost use Rattle.ele_output.specs.Prints.{Prints};
ghost use Rattle.ele_outlook.specs.Suggested.{IsSuggested, suggested_text};

use crate::options::Layout;
use ele_forecast::Closings;
use ele_moment::{Moment, NoMemory};
use ele_output::Printer;
use ele_suggest::{
    Asked, Suggestion, put_suggestion, put_suggestion_csv, put_suggestion_json, suggest_for,
};
use ele_tool_words::Offset;
use std::alloc::Global;
use std::io::Write;

/// Returns what each candidate keeps of the versions with these closings and sizes, and the best of them, if that is wanted:
/// at the first of the moments, or else a second after the last closing. `NoMemory` if memory is refused; if it isn't wanted,
/// this takes none.
pub(crate) fn suggested_if(
    alloc: Global,
    wanted: bool,
    asked: &Asked,
    clock: Offset,
    sizes: &[u64],
    closings: &Closings,
    moments: &[Moment],
) -> Result<Option<Suggestion>, NoMemory>
    ensures ok { IfOk result
        (IsSuggested wanted asked.now clock sizes.now closings.now moments.now) }
    ensures err { OnErr result (wanted ≡ true) }
{
    if !wanted {
        return Ok(None);
    }
    let suggestion = suggest_for(alloc, asked, closings, clock, sizes, first_moment(moments))?;
    Ok(Some(suggestion))
}

// The first of the moments, if there is one.
fn first_moment(moments: &[Moment]) -> Option<Moment>
    ensures { result ≡ slice_get moments.now 0 }
{
    match moments.first() {
        Some(at) => Some(*at),
        None => None,
    }
}

/// Prints a suggestion, if there is one, with bytes if `sizes` holds.
pub(crate) fn put_suggested<W: Write>(
    layout: Layout,
    sizes: bool,
    suggested: &Option<Suggestion>,
    printer: &mut Printer<'_, W>,
)
    ensures { Prints W.contents printer.old printer.new (suggested_text layout sizes suggested.now) }
{
    let Some(suggestion) = suggested else {
        return;
    };
    match layout {
        Layout::Table => put_suggestion(sizes, suggestion, printer),
        Layout::Json => put_suggestion_json(sizes, suggestion, printer),
        Layout::Csv => put_suggestion_csv(sizes, suggestion, printer),
    }
}
