//! The version that a file had at a moment. A contract sees its number.
ghost use Rattle.std.specs.Prelude.{◌≡◌};
ghost use Rattle.ele_changes.specs.Changes.{is_same_number, may_differ, number_at};
ghost use Rattle.ele_model.specs.Tagged.{had_life};
ghost use Rattle.ele_model.specs.declared.rows.Target.TheVariants.{File};

use crate::change::Span;
use ele_model::{Target, VersionRow};
use ele_moment::{FileId, Moment, VersionNo};

/// Returns the number of the version that the file had at the moment. None if it had none, if that
/// one isn't held, and for a directory.
pub(crate) fn number_at(
    versions: &[VersionRow],
    moment: Moment,
    target: &Target,
) -> Option<VersionNo>
    ensures { result ≡ number_at versions.now moment target.now }
{
    match target {
        Target::File(file) => number_of(versions, moment, *file),
        Target::Directory(_) => None,
    }
}

// The same of a file.
fn number_of(versions: &[VersionRow], moment: Moment, file: FileId) -> Option<VersionNo>
    ensures { result ≡ number_at versions.now moment (File file) }
{
    versions
        .iter()
        .find(|row| had_life(row, file, moment))
        .map(|row| row.number)
}

// Whether the row is a version of the file that lived at the moment.
fn had_life(row: &VersionRow, file: FileId, moment: Moment) -> bool
    ensures { result ≡ had_life file moment row.now }
{
    row.file == file && row.closed <= moment && row.ended.is_none_or(|end| moment < end)
}

/// Whether the target is a file of which it isn't known that it had one version at both moments.
pub(crate) fn may_differ(versions: &[VersionRow], span: &Span, target: &Target) -> bool
    ensures { result ≡ may_differ versions.now span.now target.now }
{
    match target {
        Target::File(file) => {
            let before = number_of(versions, span.first, *file);
            let after = number_of(versions, span.second, *file);
            !is_same_number(before, after)
        }
        Target::Directory(_) => false,
    }
}

// Whether it is known that both are one version.
fn is_same_number(first: Option<VersionNo>, second: Option<VersionNo>) -> bool
    ensures { result ≡ is_same_number first second }
{
    match (first, second) {
        (Some(first), Some(second)) => first == second,
        _ => false,
    }
}
