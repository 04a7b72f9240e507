//! Changes of groups, and the new ripe moments of versions that were current at their marks.
ghost use Rattle.std.specs.Prelude.{◌≡◌, ◌==◌, ◌∷◌, [], IfOk, OnOk, OnErr, true};
ghost use Rattle.std.specs.List.{list_any};
ghost use Rattle.ele_fates.specs.Change.{HasLeaving, change_of, cover_after, files_of, moments_of};
ghost use Rattle.ele_fates.specs.Keys.{if_changed};
ghost use Rattle.ele_model.proofs.GroupMoments.{is_touched};
ghost use Rattle.ele_model.specs.Bounds.{AreBounds};
ghost use Rattle.ele_model.specs.Change.{after_change};
ghost use Rattle.ele_model.specs.RipeRows.{ripe_at};
ghost use Rattle.ele_model.specs.May.{May};
ghost use Rattle.ele_model.specs.Neighbours.{rule_of};
ghost use Rattle.ele_state.specs.Inside.{world_of, IsSound, IsTracked};
ghost use Rattle.ele_state.specs.Queued.{AreChanges, moments_by};

use crate::moments::{case, rule};
use crate::rows::Rows;
use ele_fates::{
    GroupChange, KeyChange, add_change, covers, put_changed, remove_old_keys, take_back,
};
use ele_model::{FileId, Moment, NoMemory};
use ele_policy::Rule;

// The change of the ripe moment of the version that was current at the mark, in the file of that
// rule. None if it stays. If marks hold the version for as long as before, nothing else is
// computed.
fn change_at(
    rows: &Rows,
    change: &GroupChange,
    rule: &Option<Rule>,
    file: FileId,
    mark: Moment,
) -> Option<KeyChange>
    requires sound { IsSound rows.now }
    requires leaving { HasLeaving change.now rows.now.groups }
    requires member { list_any (λ member. member == file) (files_of change.now rows.now.groups)
        ≡ true }
    requires rule { rule.now ≡ rule_of (world_of rows.now) file }
    ensures { AreChanges (is_touched (file ∷ []) (mark ∷ []) rows.now.files.versions)
        (ripe_at (world_of rows.now))
        (moments_by (world_of rows.now) (cover_after change.now rows.now.groups))
        (if_changed result) }
{
    let info = rows.files.version_at(file, mark)?;
    let ended = info.ended?;
    let covers = &covers(&rows.groups, change, file, info.closed, ended);
    if covers.0 == covers.1 || rows.files.is_open(file, info.number) {
        return None;
    }
    let rule = (*rule)?;
    // The borrow checker's proof needs a local of the type in a rule.
    let _policy = rule.policy;
    let ripe = case(&rows.files, file, rule, &info).ripe(ended)?;
    Some(KeyChange {
        file,
        number: info.number,
        was: covers.0.ripe_past(ripe),
        is: covers.1.ripe_past(ripe),
    })
}

// The changes of the ripe moments of the versions that were current at these marks in these files.
// A version may be there more than once.
fn changes_by(
    rows: &Rows,
    change: &GroupChange,
    files: &[FileId],
    marks: &[Moment],
) -> Result<Vec<KeyChange>, NoMemory>
    requires sound { IsSound rows.now }
    requires leaving { HasLeaving change.now rows.now.groups }
    requires files { files.now ≡ files_of change.now rows.now.groups }
    ensures { IfOk result (λ changes. AreChanges
        (is_touched files.now marks.now rows.now.files.versions) (ripe_at (world_of rows.now))
        (moments_by (world_of rows.now) (cover_after change.now rows.now.groups)) changes.items) }
{
    let mut changes = Vec::new(rows.alloc);
    for file in files {
        let rule = &rule(rows, *file);
        for mark in marks {
            add_change(&mut changes, change_at(rows, change, rule, *file, *mark))?;
        }
    }
    Ok(changes)
}

// Changes the group, and counts what is made.
fn make(rows: &mut Rows, change: &GroupChange) -> Result<(), NoMemory>
    requires may { May (world_of rows.old) (change_of change.now) }
    requires bounds { AreBounds rows.old.limits }
    ensures ok { OnOk result (world_of rows.new
        ≡ after_change (world_of rows.old) (change_of change.now)) }
    ensures err { OnErr result (rows.new ≡ rows.old) }
    ensures kept { rows.new ≡ record rows.old { groups = rows.new.groups; made = rows.new.made } }
{
    match change {
        GroupChange::Marked(name, mark) => {
            rows.groups.add_mark(name, mark)?;
            rows.made.marks += 1;
        }
        GroupChange::Unmarked(name, mark) => rows.groups.take_mark(name, *mark),
        GroupChange::Joined(name, file) => {
            rows.groups.add_member(name, *file)?;
            rows.made.members += 1;
        }
        GroupChange::Left(name, file) => rows.groups.take_member(name, *file),
        GroupChange::Dropped(name) => rows.groups.take_group(name),
    }
    Ok(())
}

// Changes the group, and updates the queue. The change touches these files and these marks.
pub fn regroup(
    rows: &mut Rows,
    change: &GroupChange,
    files: &[FileId],
    marks: &[Moment],
) -> Result<(), NoMemory>
    requires sound { IsSound rows.old }
    requires may { May (world_of rows.old) (change_of change.now) }
    requires leaving { HasLeaving change.now rows.old.groups }
    requires files { files.now ≡ files_of change.now rows.old.groups }
    requires marks { marks.now ≡ moments_of change.now rows.old.groups }
    ensures ok { OnOk result (world_of rows.new
        ≡ after_change (world_of rows.old) (change_of change.now)) }
    ensures err { OnErr result (world_of rows.new ≡ world_of rows.old) }
    ensures tracked { IsTracked rows.new }
{
    let changes = changes_by(rows, change, files, marks)?;
    // All new keys are added before an old one is removed, so that a refused one leaves no trace.
    put_changed(&mut rows.queue, &changes)?;
    if let Err(refused) = make(rows, change) {
        take_back(&mut rows.queue, &changes);
        return Err(refused);
    }
    remove_old_keys(&mut rows.queue, &changes);
    Ok(())
}
