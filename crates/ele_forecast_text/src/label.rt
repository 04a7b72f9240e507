//! Labels of versions. A contract sees a label as its bytes.
ghost use Rattle.std.specs.Prelude.{◌≡◌};
ghost use Rattle.ele_output.specs.Prints.{Prints};
ghost use Rattle.ele_forecast_text.specs.Labels.{name_of, names_text};

use ele_moment::VersionNo;
use ele_output::{Printer, put_line};
use itoa::Buffer;
use std::io::Write;

/// The name that another tool gives a version.
#[derive(Drop)]
pub struct Label {
    pub text: Vec<u8>,
}

/// Returns the label of the version, or its number if it has none, whose digits go into `digits`.
pub fn name_of<'n>(labels: &'n [Label], number: VersionNo, digits: &'n mut Buffer) -> &'n [u8]
    ensures { result.now ≡ name_of labels.now number }
{
    match labels.get(number.before().0 as usize) {
        Some(label) => label.text.as_slice(),
        None => digits.format(number.0).as_bytes(),
    }
}

/// Prints the names of the versions, one a line: the label, or the number if there is none.
pub fn put_names<W: Write>(labels: &[Label], numbers: &[VersionNo], printer: &mut Printer<'_, W>)
    ensures { Prints W.contents printer.old printer.new (names_text labels.now numbers.now) }
{
    for number in numbers {
        let mut digits = Buffer::new();
        put_line(name_of(labels, *number, &mut digits), &[], printer);
    }
}
