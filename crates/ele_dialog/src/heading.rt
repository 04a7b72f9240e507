//! The headings of rows. A contract sees a heading as its bytes.
ghost use Rattle.std.specs.Prelude.{◌≡◌, ◌∷◌, ◌++◌};
ghost use Rattle.std.specs.Option.{option_copied};
ghost use Rattle.ele_dialog.specs.Heading.{headed, heading_above, heading_of, reply_heading};
ghost use Rattle.ele_output.specs.Prints.{Prints};

use ele_model::Reply;
use ele_output::Printer;
use ele_runs::Said;
use memchr::memchr;
use std::io::Write;

/// Returns the heading of the rows of an answer, whose reply is the last one. Nothing if it has none.
pub(crate) fn heading_of(said: &Said, last: Option<&Reply>) -> &'static [u8]
    ensures { result.now ≡ heading_of said.now (option_copied last.entry) }
{
    match said {
        Said::Replied => reply_heading(last),
        Said::Ahead(Ok(_)) => b"  ripe file version\n",
        Said::Gone(_) => b"  removed file version path fate\n",
        Said::Handles(_) => b"  handle file version since path\n",
        Said::Removals(_) => b"  removed file version path until fate\n",
        Said::Expiring(Ok(_)) => b"  ripe file version path until\n",
        Said::Story(Ok(_)) =>
            b"  version number closed ended length fate\n  name from until path\n",
        Said::Changes(Ok(_)) =>
            b"  change kind number version-before version-after path-before path-after\n",
        _ => b"",
    }
}

// The heading of the rows of a reply.
fn reply_heading(last: Option<&Reply>) -> &'static [u8]
    ensures { result.now ≡ reply_heading (option_copied last.entry) }
{
    match last {
        Some(Reply::Rows(_)) => b"  version opened closed ended length\n",
        Some(Reply::NameList(_)) => b"  name kind number\n",
        Some(Reply::RestoreList(_)) => b"  directory name kind number\n",
        Some(Reply::DueList(_)) => b"  ripe file version\n",
        Some(Reply::UsageList(_)) => b"  policy files versions bytes blocks\n",
        _ => b"",
    }
}

/// Prints a text with the heading above its rows, if it has rows: behind its first line.
pub(crate) fn put_headed<W: Write>(heading: &[u8], text: &[u8], printer: &mut Printer<'_, W>)
    ensures { Prints W.contents printer.old printer.new (headed heading.now text.now) }
{
    match memchr(b'\n', text) {
        Some(at) => {
            let (first, rows) = (text.split_at(at).0, text.split_at(at + 1).1);
            put_parts(heading, first, rows, printer);
        }
        None => printer.put(text),
    }
}

// Prints a first line with the rows below it.
fn put_parts<W: Write>(heading: &[u8], first: &[u8], rows: &[u8], printer: &mut Printer<'_, W>)
    ensures { Prints W.contents printer.old printer.new
        (first.now ++ 10 ∷ (heading_above heading.now rows.now ++ rows.now)) }
{
    printer.put(first);
    printer.put_byte(b'\n');
    printer.put(heading_above(heading, rows));
    printer.put(rows);
}

// Returns the heading, or nothing if there are no rows.
fn heading_above<'t>(heading: &'t [u8], rows: &[u8]) -> &'t [u8]
    ensures { result.now ≡ heading_above heading.now rows.now }
{
    if rows.is_empty() { &[] } else { heading }
}
