//! The errors of a forecast. A contract sees each error as itself.
ghost use Rattle.std.specs.Prelude.{◌≡◌};
ghost use Rattle.ele_output.specs.Prints.{Prints};
ghost use Rattle.ele_outlook.specs.Input.{bad_line_text, bad_word};

use ele_output::{Printer, WriteFault, put_line};
use itoa::Buffer;
use std::io::Write;
use thiserror::Error;

/// What is wrong with a line.
#[derive(Clone, Copy, Debug, PartialEq, Eq, Error)]
pub enum BadLine {
    /// Its time is not a valid moment.
    #[error("not a moment")]
    NotMoment,
    /// It lacks a tab and a size, which lines must have.
    #[error("no size")]
    NoSize,
    /// It lacks a tab and a label, which lines must have.
    #[error("no label")]
    NoLabel,
    /// Its label must be UTF-8, and isn't.
    #[error("label is not UTF-8")]
    NotUtf8,
    /// The clock of its offset shows a time before 1970 or after the year 9999.
    #[error("not shown by its clock")]
    NotShown,
    /// Its moment is before that of the previous line.
    #[error("before the closing ahead of it")]
    OutOfOrder,
}

/// An error that ends a forecast.
#[derive(Clone, Copy, Debug, PartialEq, Eq, Error)]
pub enum ForecastFault {
    /// The reader failed.
    #[error("the input can't be read")]
    ReadFault,
    /// The first bad line, with its number, counted from 1.
    #[error("line {0}: {1}")]
    BadInput(u64, BadLine),
    /// A table over time would have more than 400 moments.
    #[error("too many moments")]
    TooLong,
    /// The writer failed, or took no byte.
    #[error("the output can't be written")]
    WriteFault,
    /// Memory for the closings or the forecasts was refused.
    #[error("out of memory")]
    NoMemory,
}

impl From<WriteFault> for ForecastFault {
    ghost use Rattle.std.specs.Prelude.{◌≡◌};
    ghost use Rattle.ele_outlook.specs.declared.fault.ForecastFault.TheVariants as fault;

    ghost from_gives = { λ _ made. made ≡ fault.WriteFault };

    fn from(_failed: WriteFault) -> ForecastFault {
        ForecastFault::WriteFault
    }
}

impl BadLine {
    // Returns the words that the message for a bad line ends with.
    fn word(self) -> &'static str
        ensures { result.now ≡ bad_word self }
    {
        match self {
            BadLine::NotMoment => "is not a moment",
            BadLine::NoSize => "has no size",
            BadLine::NoLabel => "has no label",
            BadLine::NotUtf8 => "has a label that is not UTF-8",
            BadLine::NotShown => "is before 1970 or after 9999 by its clock",
            BadLine::OutOfOrder => "comes before the line ahead of it",
        }
    }
}

/// Prints the message for a bad line.
pub fn put_bad_line<W: Write>(number: u64, why: BadLine, printer: &mut Printer<'_, W>)
    ensures { Prints W.contents printer.old printer.new (bad_line_text number why) }
{
    let mut digits = Buffer::new();
    let number = digits.format(number).as_bytes();
    put_line(b"elephant: line", &[number, why.word().as_bytes()], printer);
}
