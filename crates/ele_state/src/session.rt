//! Handles and drafts: what they read, and how they open, change and close.
ghost use Rattle.std.specs.Prelude.{◌≡◌, ◌<◌, ◌≤◌, ◌+◌, ◌∷◌, [], true, false, Some, None, Ok, IfOk, OnOk, OnErr, find, length};
ghost use Rattle.std.specs.Option.{option_map};
ghost use Rattle.std.specs.Result.{result_map_both};
ghost use Rattle.ele_content.specs.Content.{content_of, longest_content};
ghost use Rattle.ele_files.specs.Closing.{left_by, opening_by};
ghost use Rattle.ele_files.specs.Copied.{IsCopied};
ghost use Rattle.ele_files.specs.Held.{with_rows};
ghost use Rattle.ele_model.specs.Change.{DropIdle, OpenHandle, StartDraft, TruncateDraft, WriteDraft, after_change, after_changes};
ghost use Rattle.ele_model.specs.Step.{cells_read, step, versions_made};
ghost use Rattle.ele_model.specs.World.{file_by, has_draft, is_draft, is_held, next_of, reads_by};
ghost use Rattle.ele_model.specs.declared.event.Event.TheVariants as event;
ghost use Rattle.ele_model.specs.declared.reply.Reply.TheVariants.{Closed, Done};
ghost use Rattle.ele_model.specs.declared.rows.Reads.TheVariants.{Draft, Version};
ghost use Rattle.ele_sessions.specs.Found.{StandsAt};
ghost use Rattle.ele_state.specs.Inside.{world_of, IsTracked, IsSound};

use crate::State;
use crate::append::{Source, append, head};
use crate::book::{blocks, follow_blocks};
use crate::file::drop_idle;
use crate::moments::free_moment;
use crate::rows::Rows;
use ele_fates::{put, take};
use ele_files::Copied;
use ele_model::{ByteList, FileId, Handle, HandleRow, Moment, NoMemory, Reads, Refusal, VersionNo};
use ele_sessions::FoundHandle;

impl State {
    /// Returns what the handle reads. Refused: `NoHandle`.
    pub fn reads_by(&self, handle: Handle) -> Result<Reads, Refusal>
        ensures { result ≡ reads_by self.now.world.handles handle }
    {
        self.rows.files.reads_by(handle)
    }

    /// Returns the open handles, by number.
    pub fn handles(&self) -> &[HandleRow]
        ensures { result.now ≡ self.now.world.handles }
    {
        self.rows.files.handles()
    }

    /// Returns when the file's draft was opened. None if the file has no draft.
    pub fn draft_opened(&self, file: FileId) -> Option<Moment>
        ensures { result
            ≡ option_map (λ draft. draft.opened) (find (is_draft file) self.now.world.drafts) }
    {
        self.rows.files.draft_opened(file)
    }

    /// Returns the open handle of that number, and its place. Refused: `NoHandle`.
    pub fn handle(&self, handle: Handle) -> Result<FoundHandle, Refusal>
        ensures number { IfOk result (λ found. found.row.number ≡ handle) }
        ensures stands { IfOk result (StandsAt self.now.world.handles) }
        ensures reads { result_map_both (λ found. found.row.reads) (λ refusal. refusal) result
            ≡ reads_by self.now.world.handles handle }
    {
        self.rows.files.handle(handle)
    }

    /// Returns the file that the handle writes, which has a draft. Refused: `NoHandle`,
    /// `NotWriter`.
    pub fn file_by(&self, handle: Handle) -> Result<FileId, Refusal>
        ensures file { result ≡ file_by self.now.world.handles handle }
        ensures drafted { IfOk result (λ file. has_draft self.now.world file ≡ true) }
    {
        self.rows.files.file_by(handle)
    }

    /// Returns the bytes of the draft or the version.
    ///
    /// `NoMemory` if memory is refused.
    #[tactic(auto, using(crate::proofs::Words::nat_tests, crate::proofs::ClosedSums::draft_short, crate::proofs::ClosedSums::version_short))]
    pub fn bytes_of(&self, reads: Reads) -> Result<ByteList, NoMemory>
        ensures bytes { IfOk result
            (λ bytes. bytes ≡ content_of (cells_read self.now.world reads)) }
        ensures short { IfOk result (λ bytes. length bytes ≤ longest_content) }
    {
        match reads {
            Reads::Draft(file) => self.rows.files.draft_content(file),
            Reads::Version(file, number) => self.rows.files.version_content(file, number),
        }
    }

    /// Copies the bytes of the draft or the version from the offset on, as many as fit, to the
    /// start of the caller's buffer.
    pub fn copy_bytes(&self, reads: Reads, offset: u64, into: &mut [u8]) -> Copied
        ensures { IsCopied (content_of (cells_read self.now.world reads)) offset
            into.old into.new result }
    {
        match reads {
            Reads::Draft(file) => self.rows.files.copy_draft(file, offset, into),
            Reads::Version(file, number) => {
                self.rows.files.copy_version(file, number, offset, into)
            }
        }
    }

    /// Opens a handle that writes the file, and returns its number. It begins a draft if there is
    /// none.
    ///
    /// `NoMemory` if memory is refused; the world stays as it was.
    pub fn open_write(&mut self, file: FileId) -> Result<Handle, NoMemory>
        requires there { 0 < next_of self.old.world.files file }
        requires handles { self.old.world.made.handles < self.old.world.limits.handles }
        requires versions { has_draft self.old.world file ≡ false
            → versions_made self.old.world < self.old.world.limits.versions }
        ensures number { IfOk result (λ number. number ≡ self.old.world.made.handles + 1) }
        ensures first { has_draft self.old.world file ≡ false → IfOk result (λ number.
            self.new.world ≡ after_changes self.old.world
            (StartDraft file ∷ OpenHandle number (Draft file) ∷ [])) }
        ensures more { has_draft self.old.world file ≡ true → IfOk result (λ number.
            self.new.world ≡ after_changes self.old.world (OpenHandle number (Draft file) ∷ [])) }
        ensures err { OnErr result (self.new.world ≡ self.old.world) }
    {
        let before = blocks(&self.rows.files);
        let number = self.rows.files.open_write(file, self.rows.moment)?;
        follow_blocks(&mut self.rows.book, &self.rows.files, file, before);
        Ok(number)
    }

    /// Opens a handle that reads the version, and returns its number. The version loses its key,
    /// since it isn't due while the handle is open.
    ///
    /// `NoMemory` if memory is refused; the world stays as it was.
    pub fn open_read(&mut self, file: FileId, number: VersionNo) -> Result<Handle, NoMemory>
        requires held { is_held self.old.world file number ≡ true }
        requires room { self.old.world.made.handles < self.old.world.limits.handles }
        ensures number { IfOk result (λ handle. handle ≡ self.old.world.made.handles + 1) }
        ensures ok { IfOk result (λ handle. self.new.world
            ≡ after_change self.old.world (OpenHandle handle (Version file number))) }
        ensures err { OnErr result (self.new.world ≡ self.old.world) }
    {
        let moment = free_moment(&self.rows, file, number);
        let handle = self.rows.files.open_read(file, number)?;
        take(&mut self.rows.queue, file, number, moment);
        Ok(handle)
    }

    /// Writes the bytes into the file's draft, from that offset on.
    ///
    /// `NoMemory` if memory is refused; the world stays as it was.
    pub fn write(&mut self, file: FileId, offset: u64, bytes: &[u8]) -> Result<(), NoMemory>
        requires drafted { has_draft self.old.world file ≡ true }
        requires short { offset + length bytes.now ≤ longest_content }
        ensures ok { OnOk result (self.new.world
            ≡ after_change self.old.world (WriteDraft file offset bytes.now)) }
        ensures err { OnErr result (self.new.world ≡ self.old.world) }
    {
        let before = blocks(&self.rows.files);
        self.rows.files.write(file, offset, bytes)?;
        follow_blocks(&mut self.rows.book, &self.rows.files, file, before);
        Ok(())
    }

    /// Sets the length of the file's draft to so many bytes.
    ///
    /// `NoMemory` if memory is refused; the world stays as it was.
    pub fn truncate(&mut self, file: FileId, size: u64) -> Result<(), NoMemory>
        requires drafted { has_draft self.old.world file ≡ true }
        requires short { size ≤ longest_content }
        ensures ok { OnOk result
            (self.new.world ≡ after_change self.old.world (TruncateDraft file size)) }
        ensures err { OnErr result (self.new.world ≡ self.old.world) }
    {
        let before = blocks(&self.rows.files);
        self.rows.files.truncate(file, size)?;
        follow_blocks(&mut self.rows.book, &self.rows.files, file, before);
        Ok(())
    }

    /// Closes the handle. With a file's last writer the draft is discarded: a changed one becomes
    /// the file's next version, and the call returns that version's number. A file without live
    /// name, version and draft is dropped. A version that no other handle reads gets its key again.
    ///
    /// `NoMemory` if memory is refused; the world stays as it was.
    pub fn close(&mut self, handle: &FoundHandle) -> Result<Option<VersionNo>, NoMemory>
        requires { StandsAt self.old.world.handles handle.now }
        ensures ok { IfOk result (λ number. (Closed number, self.new.world)
            ≡ step self.old.world (event.Close handle.now.row.number)) }
        ensures err { OnErr result (self.new.world ≡ self.old.world) }
    {
        match handle.row.reads {
            Reads::Draft(file) => unwrite(&mut self.rows, handle, file),
            Reads::Version(file, number) => unread(&mut self.rows, handle, file, number),
        }
    }
}

impl State {
    /// Ends a handle that writes the file. If no other handle writes it, its draft is discarded,
    /// and makes no version. A file without live name, version and draft is then dropped. It takes
    /// no memory.
    pub fn abandon(&mut self, handle: &FoundHandle, file: FileId)
        requires stands { StandsAt self.old.world.handles handle.now }
        requires reads { handle.now.row.reads ≡ Draft file }
        ensures { (Done, self.new.world)
            ≡ step self.old.world (event.Abandon handle.now.row.number) }
    {
        leave(&mut self.rows, handle, file);
    }
}

// Closes the last handle of a changed draft, which becomes the file's next version.
#[tactic(auto, using(crate::proofs::ClosedSteps::numbered, crate::proofs::ClosedSteps::past, crate::proofs::ClosedSteps::writes_file))]
fn finish(
    rows: &mut Rows,
    handle: &FoundHandle,
    file: FileId,
    opened: Moment,
) -> Result<Option<VersionNo>, NoMemory>
    requires sound { IsSound rows.old }
    requires stands { StandsAt rows.old.files.handles handle.now }
    requires reads { reads_by rows.old.files.handles handle.now.row.number ≡ Ok (Draft file) }
    requires changed { opening_by rows.old.files handle.now.row.number ≡ Some opened }
    ensures step { IfOk result
        (λ number. (Closed number, world_of rows.new)
        ≡ step (world_of rows.old) (event.Close handle.now.row.number)) }
    ensures err { OnErr result (world_of rows.new ≡ world_of rows.old) }
    ensures tracked { IsTracked rows.new }
{
    let head = head(&rows.files, file);
    let source = Source::Draft(*handle, opened);
    let number = append(rows, file, &head, false, source, &[])?;
    Ok(Some(number))
}

// Removes a handle of a draft that stays, or is removed without a version. A file without live
// name, version and draft is then dropped.
#[tactic(auto, using(crate::proofs::Words::nat_tests, crate::proofs::Booked::fits, crate::proofs::ClosedSums::left_owed))]
fn leave(rows: &mut Rows, handle: &FoundHandle, file: FileId)
    requires sound { IsSound rows.old }
    requires stands { StandsAt rows.old.files.handles handle.now }
    requires reads { reads_by rows.old.files.handles handle.now.row.number ≡ Ok (Draft file) }
    ensures world { world_of rows.new ≡ after_change
        (with_rows (world_of rows.old) (left_by rows.old.files handle.now.row.number))
        (DropIdle file) }
    ensures tracked { IsTracked rows.new }
{
    let before = blocks(&rows.files);
    rows.files.leave(handle);
    follow_blocks(&mut rows.book, &rows.files, file, before);
    drop_idle(rows, file);
}

// Closes a handle that reads a version. With its last reader the version gets its key again, if it
// has one. The key is added before the handle is removed, so that a refused one leaves all as it
// was. It is removed again if others still read.
#[tactic(auto, using(crate::proofs::Words::nat_tests, crate::proofs::OpenedKeys::unread_queue))]
fn unread(
    rows: &mut Rows,
    handle: &FoundHandle,
    file: FileId,
    number: VersionNo,
) -> Result<Option<VersionNo>, NoMemory>
    requires sound { IsSound rows.old }
    requires stands { StandsAt rows.old.files.handles handle.now }
    requires reads { reads_by rows.old.files.handles handle.now.row.number
        ≡ Ok (Version file number) }
    ensures step { IfOk result
        (λ number. (Closed number, world_of rows.new)
        ≡ step (world_of rows.old) (event.Close handle.now.row.number)) }
    ensures err { OnErr result (world_of rows.new ≡ world_of rows.old) }
    ensures tracked { IsTracked rows.new }
{
    let moment = &free_moment(rows, file, number);
    put(&mut rows.queue, file, number, *moment)?;
    rows.files.leave(handle);
    if !rows.files.is_open(file, number) {
        return Ok(None);
    }
    take(&mut rows.queue, file, number, *moment);
    Ok(None)
}

// Closes a handle that writes a file.
#[tactic(auto, using(crate::proofs::ClosedSums::left_answer))]
fn unwrite(
    rows: &mut Rows,
    handle: &FoundHandle,
    file: FileId,
) -> Result<Option<VersionNo>, NoMemory>
    requires sound { IsSound rows.old }
    requires stands { StandsAt rows.old.files.handles handle.now }
    requires reads { reads_by rows.old.files.handles handle.now.row.number ≡ Ok (Draft file) }
    ensures step { IfOk result
        (λ number. (Closed number, world_of rows.new)
        ≡ step (world_of rows.old) (event.Close handle.now.row.number)) }
    ensures err { OnErr result (world_of rows.new ≡ world_of rows.old) }
    ensures tracked { IsTracked rows.new }
{
    match rows.files.changed_draft(handle) {
        Some(opened) => finish(rows, handle, file, opened),
        None => {
            leave(rows, handle, file);
            Ok(None)
        }
    }
}
