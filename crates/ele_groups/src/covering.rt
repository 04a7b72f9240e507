//! How long marks hold what was current in a span.
//! A contract sees the groups as their rows, each under its name.
ghost use Rattle.std.specs.Prelude.{◌≡◌};
ghost use Rattle.std.specs.Map.{values_of};
ghost use Rattle.std.specs.Option.{option_copied, option_map_or};
ghost use Rattle.ele_model.specs.declared.cover.Cover.TheVariants.{Free};
ghost use Rattle.ele_groups.specs.Except.{cover_but, row_cover};
ghost use Rattle.ele_groups.specs.Kept.{AreKept, row_at};

use crate::group::Group;
use crate::memberships::{Membership, Memberships};
use crate::span::Span;
use ele_model::Cover;
use ele_moment::{FileId, Name};
use indexmap::IndexMap;

/// Returns how long marks of groups that have the file hold it, without the marks that are left
/// out. It looks at the file's groups only, and stops at one that holds it forever.
pub fn cover(
    rows: &IndexMap<Name, Group>,
    memberships: &Memberships,
    file: FileId,
    span: &Span,
) -> Cover
    requires { AreKept rows.now.entries memberships.now }
    ensures { result ≡ cover_but span.now.except (values_of rows.now.entries) file
        span.now.closed span.now.ended }
{
    let mut cover = Cover::Free;
    for membership in memberships.of(file) {
        cover = cover.longer(cover_in(rows, membership, span));
        if let Cover::Always = cover {
            return Cover::Always;
        }
    }
    cover
}

// How long the marks of one group of a file hold it, without those that are left out.
fn cover_in(rows: &IndexMap<Name, Group>, membership: &Membership, span: &Span) -> Cover
    ensures { result
        ≡ option_map_or (row_cover span.now.except span.now.closed span.now.ended)
        (row_at rows.now.entries membership.now.name) Free }
{
    match group_of(rows, membership) {
        Some(group) => group.cover(span),
        None => Cover::Free,
    }
}

// The group of that membership. The old place is tried first, since few groups are dropped.
fn group_of<'a>(rows: &'a IndexMap<Name, Group>, membership: &Membership) -> Option<&'a Group>
    ensures { option_copied result ≡ row_at rows.now.entries membership.now.name }
{
    match rows.get_index(membership.place) {
        Some((name, group)) if *name == membership.name => Some(group),
        _ => rows.get(&membership.name),
    }
}

/// Returns how long marks of the group of that name hold it, without those that are left out.
pub fn cover_at(rows: &IndexMap<Name, Group>, name: &Name, span: &Span) -> Cover
    ensures { result
        ≡ option_map_or (row_cover span.now.except span.now.closed span.now.ended)
        (row_at rows.now.entries name.now) Free }
{
    match rows.get(name) {
        Some(group) => group.cover(span),
        None => Cover::Free,
    }
}
