//! Rows in order of numbers: the first that isn't, and the row of a number.
//! A contract sees the numbers of the rows.
ghost use Rattle.std.specs.Prelude.{◌≡◌, ◌<◌, IfNone, IfSome, find};
ghost use Rattle.std.specs.Option.{option_copied};
ghost use Rattle.ele_lists.specs.Keys.{Rises, stands_by};
ghost use Rattle.ele_well_formed.specs.Wrong.{IsMisplaced};

use ele_model::{DirectoryRow, DraftRow, FileRow, HandleRow};

/// A row with the number by which its list is ordered.
pub trait Numbered {
    ghost use Rattle.std.specs.Prelude.{◌≡◌, ℕ};

    ghost number: { Self → ℕ };

    /// Returns the number.
    fn number(&self) -> u64
        ensures { result ≡ number self.now };
}

impl Numbered for DirectoryRow {
    ghost number = { λ row. row.id };

    fn number(&self) -> u64 {
        self.id.0
    }
}

impl Numbered for FileRow {
    ghost number = { λ row. row.id };

    fn number(&self) -> u64 {
        self.id.0
    }
}

impl Numbered for DraftRow {
    ghost number = { λ row. row.file };

    fn number(&self) -> u64 {
        self.file.0
    }
}

impl Numbered for HandleRow {
    ghost number = { λ row. row.number };

    fn number(&self) -> u64 {
        self.number.0
    }
}

/// Returns the place of the first row whose number isn't above that of the row before it. None if
/// the numbers rise.
pub fn first_misplaced<T: Numbered>(rows: &[T]) -> Option<usize>
    ensures none { IfNone result (Rises T.number rows.now) }
    ensures some { IfSome result
        (IsMisplaced (λ earlier later. T.number earlier < T.number later) rows.now) }
{
    for place in 0..rows.len().saturating_sub(1) {
        let earlier = rows[place].number();
        if rows[place + 1].number() <= earlier {
            return Some(place + 1);
        }
    }
    None
}

/// Returns the row of a number, by a binary search.
pub fn row_of<T: Numbered>(rows: &[T], number: u64) -> Option<&T>
    requires { Rises T.number rows.now }
    ensures { option_copied result ≡ find (stands_by T.number number) rows.now }
{
    let at = rows.partition_point(|row| row.number() < number);
    let row = rows.get(at)?;
    if row.number() == number {
        Some(row)
    } else {
        None
    }
}
