//! Which versions are due at moments, and what their removal frees. A contract sees their text, and a printer as its outlet.
ghost use Rattle.std.specs.Prelude.{◌≡◌, ◌≢◌, ◌∷◌, [], IfOk, OnErr, decimal};
ghost use Rattle.std.specs.List.{AllZip, flat_map};
ghost use Rattle.ele_output.specs.Prints.{Prints};
ghost use Rattle.ele_space.specs.Removals.{AreRemovals, IsDueThen, bytes_words, due_line, policy_part, removals_text};

use ele_forecast::Forecast;
use ele_forecast_text::{Details, Plan, Staying, bytes_of, listed_at, stamp_of};
use ele_moment::{NoMemory, VersionNo};
use ele_output::{Printer, put_with_number};
use itoa::Buffer;
use std::alloc::Global;
use std::io::Write;

/// The versions that are due under a policy, at each of some moments.
#[derive(Drop)]
pub struct Removals {
    /// The word by which the policy was given.
    pub word: Vec<u8>,
    pub due: Vec<Staying>,
}

/// Returns which versions are due under each plan at each of its moments. `NoMemory` if memory is refused; without plans
/// it takes none.
pub fn removals_of(alloc: Global, plans: &[Plan]) -> Result<Vec<Removals>, NoMemory>
    ensures ok { IfOk result (λ removals. AllZip AreRemovals plans.now removals.items) }
    ensures err { OnErr result (plans.now ≢ []) }
{
    let mut removals = Vec::new(alloc);
    for plan in plans {
        removals.push(removals_under(alloc, plan)?)?;
    }
    Ok(removals)
}

// The versions that are due under a plan at each of its moments.
fn removals_under(alloc: Global, plan: &Plan) -> Result<Removals, NoMemory>
    ensures { IfOk result (AreRemovals plan.now) }
{
    let mut word = Vec::new(alloc);
    word.extend_from_slice(plan.word.as_slice())?;
    let forecasts = plan.forecasts.as_slice();
    let due = due_of(alloc, forecasts, plan.stayings.as_slice())?;
    Ok(Removals { word, due })
}

// The versions that are due at each of these moments.
fn due_of(
    alloc: Global,
    forecasts: &[Forecast],
    stayings: &[Staying],
) -> Result<Vec<Staying>, NoMemory>
    ensures { IfOk result (λ due. AllZip (IsDueThen forecasts.now) stayings.now due.items) }
{
    let mut due = Vec::new(alloc);
    for staying in stayings {
        let numbers = listed_at(alloc, false, forecasts, staying)?;
        due.push(Staying {
            at: staying.at,
            numbers,
        })?;
    }
    Ok(due)
}

/// Puts a line for each policy and moment with the versions that are due, and the bytes that their removal frees. It
/// names the policy if `named` holds.
pub fn put_removals<W: Write>(
    named: bool,
    details: &Details,
    removals: &[Removals],
    printer: &mut Printer<'_, W>,
)
    ensures { Prints W.contents printer.old printer.new
        (removals_text named details.now removals.now) }
{
    for removal in removals {
        let word = removal.word.as_slice();
        put_due(named, details, word, removal.due.as_slice(), printer);
    }
}

// Puts the lines of the policy of that word.
fn put_due<W: Write>(
    named: bool,
    details: &Details,
    word: &[u8],
    due: &[Staying],
    printer: &mut Printer<'_, W>,
)
    ensures { Prints W.contents printer.old printer.new
        (flat_map (due_line named details.now word.now) due.now) }
{
    for staying in due {
        printer.put(b"at ");
        printer.put(&stamp_of(staying.at));
        put_word_if(named, word, printer);
        put_freed(details, staying.numbers.as_slice(), printer);
    }
}

// Puts a space and a word if `named` holds.
fn put_word_if<W: Write>(named: bool, word: &[u8], printer: &mut Printer<'_, W>)
    ensures { Prints W.contents printer.old printer.new (policy_part named word.now) }
{
    if named {
        printer.put_byte(b' ');
        printer.put(word);
    }
}

// Ends a line with the versions of these numbers.
fn put_freed<W: Write>(details: &Details, numbers: &[VersionNo], printer: &mut Printer<'_, W>)
    ensures { Prints W.contents printer.old printer.new (bytes_words details.now numbers.now) }
{
    let mut digits = Buffer::new();
    let bytes = bytes_of(details.sizes.as_slice(), numbers);
    put_with_number(b" free ", numbers.len() as u64, printer);
    printer.put(b" with ");
    printer.put(digits.format(bytes).as_bytes());
    printer.put(b" bytes:");
    for number in numbers {
        put_with_number(b" ", number.0, printer);
    }
    printer.put(b"\n");
}
