//! Changes of the keys of a queue.
//! A contract sees which keys come and which go.
ghost use Rattle.std.specs.Prelude.{◌≡◌, ◌++◌, ◌||◌, ◌&&◌, not, Some, None, OnOk, OnErr};
ghost use Rattle.ele_due.specs.declared.key.Key.{Key};
ghost use Rattle.ele_due.specs.HasKey.{has_key};
ghost use Rattle.ele_fates.specs.Keys.{IsRekeyed, comes, goes, if_changed};

use ele_due::{DueQueue, Key};
use ele_moment::{FileId, Moment, NoMemory, VersionNo};

/// Adds the key of the version with that moment, if there is one.
///
/// `NoMemory` if memory is refused; the queue is then as it was.
pub fn put(
    queue: &mut DueQueue,
    file: FileId,
    number: VersionNo,
    moment: Option<Moment>,
) -> Result<(), NoMemory>
    ensures ok { OnOk result (IsRekeyed file number None moment queue.old queue.new) }
    ensures err { OnErr result (queue.new ≡ queue.old) }
{
    let Some(ripe) = moment else {
        return Ok(());
    };
    queue.insert(Key { ripe, file, number })
}

/// Removes the key of the version with that moment, if there is one. It takes no memory.
pub fn take(queue: &mut DueQueue, file: FileId, number: VersionNo, moment: Option<Moment>)
    ensures { IsRekeyed file number moment None queue.old queue.new }
{
    if let Some(ripe) = moment {
        let _was = queue.remove(&Key { ripe, file, number });
    }
}

/// A change of a version's ripe moment: the queue loses its old key, if it has one, and gets the
/// new one, if there is one.
#[derive(Clone, Copy)]
pub struct KeyChange {
    /// The file.
    pub file: FileId,
    /// The version's number.
    pub number: VersionNo,
    /// Its old moment.
    pub was: Option<Moment>,
    /// Its new moment.
    pub is: Option<Moment>,
}

/// Returns the addition of a key, if there is a moment, for a version that had none.
pub fn new_key(file: FileId, number: VersionNo, moment: Option<Moment>) -> KeyChange
    ensures { result ≡ record { file = file; number = number; was = None; is = moment } }
{
    KeyChange {
        file,
        number,
        was: None,
        is: moment,
    }
}

/// Adds the change, if there is one and the two moments differ.
///
/// `NoMemory` if memory is refused.
pub fn add_change(changes: &mut Vec<KeyChange>, change: Option<KeyChange>) -> Result<(), NoMemory>
    ensures { OnOk result (changes.new.items ≡ changes.old.items ++ if_changed change) }
{
    if let Some(change) = change {
        if change.was != change.is {
            changes.push(change)?;
        }
    }
    Ok(())
}

/// Adds all new keys, or none if memory is refused. None of them is in the queue.
///
/// `NoMemory` if memory is refused.
pub fn put_changed(queue: &mut DueQueue, changes: &[KeyChange]) -> Result<(), NoMemory>
    ensures ok { OnOk result
        ((k : Key) → has_key k queue.new ≡ (comes changes.now k || has_key k queue.old)) }
    ensures err { OnErr result
        ((k : Key) → has_key k queue.new ≡ (not (comes changes.now k) && has_key k queue.old)) }
{
    for change in changes {
        if let Err(refused) = put(queue, change.file, change.number, change.is) {
            take_back(queue, changes);
            return Err(refused);
        }
    }
    Ok(())
}

/// Removes all new keys. It takes no memory.
pub fn take_back(queue: &mut DueQueue, changes: &[KeyChange])
    ensures { (k : Key) → has_key k queue.new ≡ (not (comes changes.now k) && has_key k queue.old) }
{
    for change in changes {
        take(queue, change.file, change.number, change.is);
    }
}

/// Removes all old keys. It takes no memory.
pub fn remove_old_keys(queue: &mut DueQueue, changes: &[KeyChange])
    ensures { (k : Key) → has_key k queue.new ≡ (not (goes changes.now k) && has_key k queue.old) }
{
    for change in changes {
        take(queue, change.file, change.number, change.was);
    }
}
