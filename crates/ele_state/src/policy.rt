//! The policy of a file, and the ripe moments that change with it, or with a file's first or last
//! live name.
ghost use Rattle.std.specs.Prelude.{◌≡◌, ◌<◌, ◌+◌, ◌||◌, IfOk, OnOk, OnErr};
ghost use Rattle.ele_due.specs.declared.key.Key.{Key};
ghost use Rattle.ele_fates.specs.Keys.{comes, if_changed};
ghost use Rattle.ele_files.specs.FileHead.{Stands};
ghost use Rattle.ele_lists.specs.Lists.{AllLater};
ghost use Rattle.ele_policy.specs.Policy.{IsPolicy};
ghost use Rattle.ele_model.specs.Change.{SetFilePolicy, after_change};
ghost use Rattle.ele_model.specs.WellFormed.{ArePlaced};
ghost use Rattle.ele_model.specs.World.{next_of};
ghost use Rattle.ele_state.specs.Inside.{IsSound};
ghost use Rattle.ele_state.specs.Queued.{AreChanges, IsInfoOf, is_freed, is_one, is_own, unread_under};

use crate::State;
use crate::append::with_newer;
use crate::moments::case;
use crate::rows::Rows;
use ele_fates::{KeyChange, add_change, case_moment, new_key, put_changed, remove_old_keys};
use ele_files::FileHead;
use ele_model::{FileId, NoMemory, VersionInfo};
use ele_policy::{Case, Policy, Rule};

impl State {
    /// Sets the policy of the file. Its versions get other keys, and count for the policy's kind.
    ///
    /// `NoMemory` if memory is refused; the world stays as it was.
    #[tactic(auto, using(crate::proofs::Words::nat_tests, crate::proofs::Bounded::rows_few, crate::proofs::Governed::uses_within, crate::proofs::Governed::uses_fit))]
    pub fn set_policy(&mut self, file: FileId, policy: Policy) -> Result<(), NoMemory>
        requires { 0 < next_of self.old.world.files file }
        ensures ok { OnOk result
            (self.new.world ≡ after_change self.old.world (SetFilePolicy file policy)) }
        ensures err { OnErr result (self.new.world ≡ self.old.world) }
        ensures valid { IsPolicy policy }
    {
        policy.lemma_valid();
        let Some(was) = self.rows.files.policy_of(file) else {
            unreachable!()
        };
        let usage = self.rows.files.usage_of(file)?;
        let is_live = self.rows.names.is_live(file);
        let rule = &was.rule_in(is_live);
        let changes = changes_under(&self.rows, file, rule, &policy.rule_in(is_live))?;
        // All new keys are added before an old one is removed, so that a refused one leaves no
        // trace.
        put_changed(&mut self.rows.queue, &changes)?;
        remove_old_keys(&mut self.rows.queue, &changes);
        self.rows.files.set_policy(file, policy);
        self.rows.book.move_file(was.kind(), policy.kind(), usage);
        Ok(())
    }
}

// The change of the ripe moment of the file's version with this info, from the old rule to the new
// one. None if a handle reads the version.
fn change_under(
    rows: &Rows,
    file: FileId,
    was: &Rule,
    is: &Rule,
    info: &VersionInfo,
) -> Option<KeyChange>
    requires { IsInfoOf rows.now.files file info.now }
    ensures { AreChanges (is_one file info.now.number)
        (unread_under rows.now.groups was.now rows.now.files)
        (unread_under rows.now.groups is.now rows.now.files)
        (if_changed result) }
{
    let number = info.number;
    if rows.files.is_open(file, number) {
        return None;
    }
    let ended = info.ended?;
    let case = &case(&rows.files, file, *was, info);
    let then = &Case {
        policy: is.policy,
        enough: rows.files.has_newer(file, number, is.newer),
        ..*case
    };
    Some(KeyChange {
        file,
        number,
        was: case_moment(&rows.groups, file, case, ended),
        is: case_moment(&rows.groups, file, then, ended),
    })
}

// The changes of the ripe moments of the file's versions, from the old rule to the new one. One
// walk looks at each version once.
fn changes_under(
    rows: &Rows,
    file: FileId,
    was: &Rule,
    is: &Rule,
) -> Result<Vec<KeyChange>, NoMemory>
    requires { IsSound rows.now }
    ensures { IfOk result (λ changes. AreChanges (is_own file)
        (unread_under rows.now.groups was.now rows.now.files)
        (unread_under rows.now.groups is.now rows.now.files) changes.items) }
{
    let held = rows.files.stamps_of_file(file)?;
    let mut changes = Vec::new(rows.alloc);
    for info in held.as_slice() {
        add_change(&mut changes, change_under(rows, file, was, is, info))?;
    }
    Ok(changes)
}

// The key that the held version with so many newer ones has if the policy asks for no newer ones.
// An unended version ends now. None if a handle reads the version. The head describes the file;
// under its policy other versions don't matter.
fn freed_key(rows: &Rows, file: FileId, head: &FileHead, newer: u64) -> Option<KeyChange>
    requires stands { Stands rows.now.files file head.now }
    requires placed { AllLater ArePlaced rows.now.files.versions }
    ensures { (k : Key) → is_freed rows.now.groups rows.now.files file head.now.policy
        rows.now.moment (newer + 1) k ≡ (is_freed rows.now.groups rows.now.files file
        head.now.policy rows.now.moment newer k || comes (if_changed result) k) }
{
    let info = with_newer(&rows.files, file, head, newer)?;
    if rows.files.is_open(file, info.number) {
        return None;
    }
    let case = &Case {
        policy: head.policy,
        closed: info.closed,
        next_closed: None,
        enough: true,
    };
    let ended = info.ended.unwrap_or(rows.moment);
    let moment = case_moment(&rows.groups, file, case, ended);
    Some(new_key(file, info.number, moment))
}

// The keys that the file's newest versions get, so many, if the rule no longer asks for newer ones.
// Under a policy that may ask for newer ones, no other version matters.
pub fn freed(
    rows: &Rows,
    file: FileId,
    head: &FileHead,
    newest: u64,
) -> Result<Vec<KeyChange>, NoMemory>
    requires stands { Stands rows.now.files file head.now }
    requires placed { AllLater ArePlaced rows.now.files.versions }
    ensures { IfOk result (λ changes. (k : Key) → comes changes.items k ≡ is_freed rows.now.groups
        rows.now.files file head.now.policy rows.now.moment newest k) }
{
    let mut changes = Vec::new(rows.alloc);
    for newer in 0..newest {
        add_change(&mut changes, freed_key(rows, file, head, newer))?;
    }
    Ok(changes)
}
