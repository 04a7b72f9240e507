//! A new version of a file: where its content comes from, the keys that are added with it, and what
//! it uses.
ghost use Rattle.std.specs.Prelude.{◌≡◌, ◌<◌, ◌-◌, ◌||◌, true, false, Some, IfOk, OnOk, OnErr, length, option_and_then};
ghost use Rattle.std.specs.Option.{option_map};
ghost use Rattle.ele_content.specs.Content.{content_of};
ghost use Rattle.ele_due.specs.declared.key.Key.{Key};
ghost use Rattle.ele_due.specs.HasKey.{has_key};
ghost use Rattle.ele_fates.specs.Keys.{comes};
ghost use Rattle.ele_files.specs.Held.{Became};
ghost use Rattle.ele_files.specs.FileHead.{Stands};
ghost use Rattle.ele_lists.specs.Lists.{AllLater};
ghost use Rattle.ele_model.specs.Change.{after_changes};
ghost use Rattle.ele_model.specs.Neighbours.{with_newer};
ghost use Rattle.ele_model.specs.Told.{info_of};
ghost use Rattle.ele_model.specs.WellFormed.{ArePlaced};
ghost use Rattle.ele_model.specs.World.{next_of};
ghost use Rattle.ele_state.specs.Inside.{world_of};
ghost use Rattle.ele_state.specs.Queued.{former_key, former_moment, own_key};
ghost use Rattle.ele_state.specs.Source.{IsReady, IsRoomy, appending, coming, origin, source_cells};
ghost use Rattle.ele_state.specs.Tracked.{IsBooked};

use crate::book::{blocks, charge_blocks, one_version};
use crate::rows::Rows;
use ele_fates::{KeyChange, case_moment, case_of, new_key, put_changed, ripens_alone, take_back};
use ele_files::{FileHead, Files, NewVersion};
use ele_model::{FileId, Moment, NoMemory, VersionInfo, VersionNo};
use ele_policy::Rule;
use ele_sessions::FoundHandle;

// The source of a file's next version: the draft that was opened then, with its last handle, the
// held version of that number, or the bytes that are passed with it.
#[derive(Clone, Copy)]
pub enum Source {
    Draft(FoundHandle, Moment),
    Version(VersionNo),
    Bytes,
}

// The head of the file, which exists.
#[tactic(auto, using(crate::proofs::Words::nat_tests))]
pub fn head(files: &Files, file: FileId) -> FileHead
    requires { 0 < next_of files.now.files file }
    ensures { Stands files.now file result }
{
    let Some(head) = files.head(file) else {
        unreachable!()
    };
    head
}

// The info of the held version with so many newer ones. The head has the info of the newest
// version.
#[tactic(auto, using(crate::proofs::Words::nat_tests, crate::proofs::Questions::newest_told))]
pub fn with_newer(files: &Files, file: FileId, head: &FileHead, newer: u64) -> Option<VersionInfo>
    requires stands { Stands files.now file head.now }
    requires placed { AllLater ArePlaced files.now.versions }
    ensures { result ≡ option_map info_of (with_newer files.now.versions file newer) }
{
    if newer == 0 {
        return head.newest;
    }
    files.with_newer(file, newer)
}

// The ripe moment that the version of `gaining` gets as the next one closes now. None if a handle
// reads it, or if it keeps the ripe moment that it had. It keeps it under every rule that asks for
// no newer versions and looks at no other version.
#[tactic(auto, using(crate::proofs::Questions::former_told, crate::proofs::Words::nat_tests))]
fn former_moment(rows: &Rows, file: FileId, rule: &Rule, gaining: &VersionInfo) -> Option<Moment>
    requires { option_map info_of (with_newer rows.now.files.versions file (rule.now.newer - 1))
        ≡ Some gaining.now }
    ensures { result ≡ option_and_then
        (former_moment rows.now.groups rows.now.files rule.now file rows.now.moment)
        (with_newer rows.now.files.versions file (rule.now.newer - 1)) }
{
    if rows.files.is_open(file, gaining.number) {
        return None;
    }
    if ripens_alone(&rows.groups, file, rule, gaining) {
        return None;
    }
    let case = &case_of(rule, gaining.closed, Some(rows.moment), true);
    case_moment(
        &rows.groups,
        file,
        case,
        gaining.ended.unwrap_or(rows.moment),
    )
}

// The key of the held version that has enough newer ones once the next one closes. None if the file
// is restored and its rule asks for newer ones: the version got its key while the rule asked for
// none.
#[tactic(auto, using(crate::proofs::Words::nat_tests))]
fn former_key(rows: &Rows, file: FileId, head: &FileHead, rule: &Rule, again: bool) -> KeyChange
    requires stands { Stands rows.now.files file head.now }
    requires placed { AllLater ArePlaced rows.now.files.versions }
    ensures { result
        ≡ former_key rows.now.groups rows.now.files rule.now file rows.now.moment again }
{
    if again && rule.newer != 0 {
        return new_key(file, VersionNo(0), None);
    }
    // If a rule asks for no newer versions, the newest one gains.
    match &with_newer(&rows.files, file, head, rule.newer.saturating_sub(1)) {
        Some(gaining) => new_key(
            file,
            gaining.number,
            former_moment(rows, file, rule, gaining),
        ),
        None => new_key(file, VersionNo(0), None),
    }
}

// The key of the file's next version, which closes now, if it also ends now.
fn own_key(rows: &Rows, file: FileId, head: &FileHead, rule: &Rule, ends: bool) -> KeyChange
    requires { Stands rows.now.files file head.now }
    ensures { result ≡ own_key rows.now.groups rows.now.files rule.now file rows.now.moment ends }
{
    let now = rows.moment;
    let moment = if ends {
        case_moment(&rows.groups, file, &case_of(rule, now, None, true), now)
    } else {
        None
    };
    new_key(file, head.next, moment)
}

// Adds the file's next version to the files, and returns its number and its length.
#[tactic(auto, using(crate::proofs::Saved::length_by))]
fn put_version(
    files: &mut Files,
    file: FileId,
    source: Source,
    bytes: &[u8],
    now: Moment,
    is_live: bool,
) -> Result<NewVersion, NoMemory>
    requires { IsReady files.old now file (origin source bytes.now) }
    ensures number { IfOk result (λ made. made.number ≡ next_of files.old.files file) }
    ensures length { IfOk result
        (λ made. made.length
        ≡ length (content_of (source_cells files.old file (origin source bytes.now)))) }
    ensures ok { OnOk result
        (Became files.old now file is_live
        (appending files.old now file (origin source bytes.now)) files.new) }
    ensures err { OnErr result (files.new ≡ files.old) }
{
    match source {
        Source::Draft(handle, opened) => files.finish(&handle, file, opened, now, is_live),
        Source::Version(number) => files.restore(file, number, now, is_live),
        Source::Bytes => files.save(file, bytes, now, is_live),
    }
}

// Adds the file's next version, which closes now, and ends the version before it. The head
// describes the file, which may get a name again. It also adds the new keys, none of which was
// there. If memory is refused, all is as it was.
#[tactic(auto, using(crate::proofs::Words::nat_tests, crate::proofs::Appended::refused, crate::proofs::Appended::taken_back))]
pub fn append(
    rows: &mut Rows,
    file: FileId,
    head: &FileHead,
    again: bool,
    source: Source,
    bytes: &[u8],
) -> Result<VersionNo, NoMemory>
    requires booked { IsBooked rows.old.files rows.old.book }
    requires absent { (k : Key) → comes (coming rows.old head.now.policy file again) k ≡ true
        → has_key k rows.old.queue ≡ false }
    requires roomy { IsRoomy rows.old.made.versions rows.old.book }
    requires stands { Stands rows.old.files file head.now }
    requires ready { IsReady rows.old.files rows.old.moment file (origin source bytes.now) }
    ensures number { IfOk result (λ number. number ≡ next_of rows.old.files.files file) }
    ensures ok { OnOk result (world_of rows.new ≡ after_changes (world_of rows.old)
        (appending rows.old.files rows.old.moment file (origin source bytes.now))) }
    ensures err { OnErr result (rows.new ≡ record rows.old { queue = rows.new.queue }) }
    ensures come { OnOk result ((k : Key) → has_key k rows.new.queue
        ≡ (comes (coming rows.old head.now.policy file again) k || has_key k rows.old.queue)) }
    ensures same { OnErr result
        ((k : Key) → has_key k rows.new.queue ≡ has_key k rows.old.queue) }
    ensures book { IsBooked rows.new.files rows.new.book }
    ensures limits { rows.new.limits ≡ rows.old.limits }
{
    let is_live = rows.names.is_live(file);
    let now = rows.moment;
    let kind = head.policy.kind();
    let before = blocks(&rows.files);
    let rule = &head.policy.rule_in(is_live);
    let changes = [
        former_key(rows, file, head, rule, again),
        own_key(rows, file, head, rule, !is_live),
    ];
    // All keys are added before the version, so that a refused one leaves no trace.
    put_changed(&mut rows.queue, &changes)?;
    let put = put_version(&mut rows.files, file, source, bytes, now, is_live);
    let made = match put {
        Ok(made) => made,
        Err(refused) => {
            take_back(&mut rows.queue, &changes);
            return Err(refused);
        }
    };
    rows.book.add(kind, one_version(made.length));
    charge_blocks(&mut rows.book, &rows.files, kind, before);
    rows.made.versions += 1;
    Ok(made.number)
}
