//! The reasons for bad lines, which a run writes beside their blocks.
//! A contract sees a reason as itself, and a printer as its outlet.
ghost use Rattle.std.specs.Prelude.{◌≡◌, IfNone, IfSome, Some};
ghost use Rattle.std.specs.Option.{option_map};
ghost use Rattle.ele_output.specs.Outlet.{Reports};
ghost use Rattle.ele_output.specs.Prints.{Prints, outlet};
ghost use Rattle.ele_runs.specs.WhyBad.{IsToldReason, IsUntold, cut_reason, why_line};

use ele_output::{Printer, put_with_number};
use ele_reasons::{Reason, put_reason, reason};
use ele_run_options::RunOptions;
use std::alloc::Global;
use std::io::Write;

/// Returns why a line is not a command. Returns `None` if it is one, or if memory to read it is
/// refused.
pub fn why_bad(alloc: Global, options: RunOptions, line: Option<&[u8]>) -> Option<Reason>
    ensures some { IfSome result
        (IsToldReason options (option_map (λ line. line.now) line.entry)) }
    ensures none { IfNone result (IsUntold options (option_map (λ line. line.now) line.entry)) }
{
    let Some(line) = line else {
        return Some(Reason::TooLong);
    };
    match reason(alloc, options.explain, line) {
        Ok(found) => found,
        Err(_) => None,
    }
}

/// Returns why a last line without its line feed is never run, or `None` if it is empty.
pub fn why_cut(line: Option<&[u8]>) -> Option<Reason>
    ensures { result ≡ cut_reason (option_map (λ line. line.now) line.entry) }
{
    match line {
        None => Some(Reason::TooLong),
        Some([]) => None,
        Some(_) => Some(Reason::Cut),
    }
}

/// Prints why the line with this number is not a command, if the reason is known.
pub fn put_why<E: Write>(number: u64, why: Option<Reason>, reasons: &mut Printer<'_, E>)
    ensures { Prints E.contents reasons.old reasons.new (why_line number why) }
{
    let Some(why) = why else {
        return;
    };
    put_with_number(b"elephant: line ", number, reasons);
    reasons.put(b", ");
    put_reason(why, reasons);
    reasons.put_byte(b'\n');
}

/// Prints why the line with this number is not a command, and writes it at once.
pub(crate) fn report_why<E: Write>(number: u64, why: Reason, reasons: &mut Printer<'_, E>)
    ensures { Reports (outlet E.contents reasons.old) (outlet E.contents reasons.new)
        (why_line number (Some why)) }
{
    put_why(number, Some(why), reasons);
    reasons.flush();
}
