//! What JSON and CSV print alike.
ghost use Rattle.std.specs.Prelude.{◌≡◌, ◌++◌, decimal};
ghost use Rattle.ele_output.specs.Prints.{Prints};
ghost use Rattle.ele_forecast_text.specs.Details.{size_of};
ghost use Rattle.ele_forecast_forms.specs.Parts.{part_if};

use ele_forecast_text::{Details, size_of};
use ele_moment::VersionNo;
use ele_output::{Printer, put_with_number};
use std::io::Write;

/// Puts a part, if there is that column.
pub(crate) fn put_part<W: Write>(has_column: bool, part: &[u8], printer: &mut Printer<'_, W>)
    ensures { Prints W.contents printer.old printer.new (part_if has_column part.now) }
{
    if has_column {
        printer.put(part);
    }
}

/// Puts the size of a version after those bytes, if versions have sizes.
pub(crate) fn put_size<W: Write>(
    before: &[u8],
    details: &Details,
    number: VersionNo,
    printer: &mut Printer<'_, W>,
)
    ensures { Prints W.contents printer.old printer.new (part_if details.now.columns.sizes
        (before.now ++ decimal (size_of details.now.sizes.items number))) }
{
    if details.columns.sizes {
        let size = size_of(details.sizes.as_slice(), number);
        put_with_number(before, size, printer);
    }
}
