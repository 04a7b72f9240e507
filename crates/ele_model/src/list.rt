//! The lists that replies hold.
ghost use Rattle.std.specs.Prelude.{◌≡◌, ◌++◌, ◌∷◌, [], IfOk, OnOk, map};
ghost use Rattle.ele_model.specs.Restorable.{row_of, triple_of};

use crate::rows::{DeletedName, GroupRow, Target, VersionInfo};
use ele_due::Key;
use ele_lists::ListOf;
use ele_moment::{DirId, Name, NoMemory};
use ele_path::KeptName;
use std::alloc::Global;

/// Keys of versions, in order.
pub type KeyList = ListOf<Key>;

/// Restorable names, by directory and then by the bytes of the name.
pub type DeletedNameList = ListOf<DeletedName>;

/// Versions of one file, by number.
pub type StampsList = ListOf<VersionInfo>;

/// The same list, by the name of the reply that holds it.
pub type Rows = StampsList;

/// Groups in order of making.
pub type GroupList = ListOf<GroupRow>;

/// The names of a directory and what they mean, by the bytes of the names.
pub type NameList = ListOf<(KeptName, Target)>;

/// Returns the names as triples of a directory, a name in it and what that name last meant.
///
/// `NoMemory` if memory is refused.
/// Cost: grows with the names, which it copies.
pub fn triples_of(names: &DeletedNameList) -> Result<Vec<(DirId, Name, Target)>, NoMemory>
    ensures { IfOk result (λ triples. triples.items ≡ map triple_of names.now) }
{
    Ok(
        names
            .as_slice()
            .iter()
            .map(|row| (row.directory, row.name.get(), row.target))
            .collect(names.allocator())?,
    )
}

/// Returns the list of the names that are given as triples of a directory, a name in it and what that
/// name last meant.
///
/// `NoMemory` if memory is refused.
/// Cost: grows with the names, which it copies.
pub fn deleted_names(
    alloc: Global,
    triples: &[(DirId, Name, Target)],
) -> Result<DeletedNameList, NoMemory>
    ensures { IfOk result (λ names. names ≡ map row_of triples.now) }
{
    let mut names = Vec::with_capacity(alloc, triples.len())?;
    for triple in triples {
        push_name(alloc, triple, &mut names)?;
    }
    Ok(ListOf::from_vec(names))
}

// Adds the name of a triple.
fn push_name(
    alloc: Global,
    triple: &(DirId, Name, Target),
    names: &mut Vec<DeletedName>,
) -> Result<(), NoMemory>
    ensures { OnOk result (names.new.items ≡ names.old.items ++ row_of triple.now ∷ []) }
{
    let name = KeptName::new(alloc, triple.1)?;
    names.push(DeletedName {
        directory: triple.0,
        name,
        target: triple.2,
    })?;
    Ok(())
}

/// Returns the list of the names that are given, with what each means.
///
/// `NoMemory` if memory is refused.
/// Cost: grows with the names, which it copies.
pub fn name_list(alloc: Global, given: &[(Name, Target)]) -> Result<NameList, NoMemory>
    ensures { IfOk result (λ names. names ≡ given.now) }
{
    let mut names = Vec::with_capacity(alloc, given.len())?;
    for (name, target) in given {
        names.push((KeptName::new(alloc, *name)?, *target))?;
    }
    Ok(ListOf::from_vec(names))
}
