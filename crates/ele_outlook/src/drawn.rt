//! The bytes that stay, as the points of a drawing's curves. A contract sees rows as lists of numbers.
ghost use Rattle.std.specs.Prelude.{◌≡◌, ◌≢◌, [], IfOk, OnErr};
ghost use Rattle.std.specs.List.{AllZip};
ghost use Rattle.ele_outlook.specs.Told.{IsByteRow, drawn_bytes};

use ele_forecast_forms::Counts;
use ele_moment::NoMemory;
use ele_space::{Amount, Amounts};
use std::alloc::Global;

// The bytes that stay, as a curve shows them: at most the largest number of 64 bits.
fn drawn_bytes(amount: &Amount) -> usize
    ensures { result ≡ drawn_bytes amount.now }
{
    amount.bytes.min(u64::MAX as u128) as usize
}

// The points at the moment of these amounts.
fn byte_row(alloc: Global, row: &Amounts) -> Result<Counts, NoMemory>
    ensures { IfOk result (λ drawn. IsByteRow row.now drawn) }
{
    let counts = row.amounts.iter().map(drawn_bytes).collect(alloc)?;
    Ok(Counts { at: row.at, counts })
}

/// Returns the points of the curves that show the bytes of these amounts. `NoMemory` if memory is refused; without amounts
/// this takes none.
pub(crate) fn byte_rows(alloc: Global, rows: &[Amounts]) -> Result<Vec<Counts>, NoMemory>
    ensures ok { IfOk result (λ drawn. AllZip IsByteRow rows.now drawn.items) }
    ensures err { OnErr result (rows.now ≢ []) }
{
    let mut drawn = Vec::new(alloc);
    for row in rows {
        drawn.push(byte_row(alloc, row)?)?;
    }
    Ok(drawn)
}
