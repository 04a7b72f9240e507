//! The row of a line: its time, what the clock of its offset shows then, and its kind. A contract sees a line as its bytes.
ghost use Rattle.std.specs.Prelude.{◌≡◌, IfErr, IfOk};
ghost use Rattle.ele_outlook.specs.Input.{LacksRow, SpellsRow, in_seconds, kind_in};
ghost use Rattle.ele_outlook.specs.Reading.{AddsRow};

use crate::fault::{BadLine, ForecastFault};
use crate::fields::{label_of, time_of};
use crate::options::LineForm;
use ele_peer_rules::{Offset as InSeconds, Row, Span, kind_of};
use ele_tool_words::{Offset, read_clocked};

/// Returns the row of a line, or why it has none.
pub(crate) fn row_of(form: LineForm, line: &[u8]) -> Result<Row, BadLine>
    ensures ok { IfOk result (SpellsRow form line.now) }
    ensures err { IfErr result (LacksRow form line.now) }
{
    let Some(time) = read_clocked(form.clock, time_of(form, line)) else {
        return Err(BadLine::NotMoment);
    };
    match Row::new(time.moment, in_seconds(time.offset), kind_in(form, line)) {
        Some(row) => Ok(row),
        None => Err(BadLine::NotShown),
    }
}

// Returns the kind that the label of a line tells, if lines have labels.
fn kind_in(form: LineForm, line: &[u8]) -> Span
    ensures { result ≡ kind_in form line.now }
{
    if form.columns.labels {
        kind_of(label_of(form, line))
    } else {
        Span::Each
    }
}

// Returns an offset in seconds.
fn in_seconds(offset: Offset) -> InSeconds
    ensures { result ≡ in_seconds offset }
{
    match offset {
        Offset::Ahead(minutes) => InSeconds::Ahead(60 * minutes as u32),
        Offset::Behind(minutes) => InSeconds::Behind(60 * minutes as u32),
    }
}

/// Adds a row.
pub(crate) fn add_row(row: Row, rows: &mut Vec<Row>) -> Result<(), ForecastFault>
    ensures { AddsRow row rows.old.items rows.new.items result }
{
    match rows.push(row) {
        Ok(()) => Ok(()),
        Err(_) => Err(ForecastFault::NoMemory),
    }
}
