//! Rows of directories, files, names, handles and groups as bytes.
//! A contract sees a row, and its bytes.
ghost use Rattle.ele_checkpoint.specs.Number.{number_text};
ghost use Rattle.ele_checkpoint.specs.PartsRead.{number_at, directory_at, file_at, group_at, handle_at, mark_at, name_row_at};
ghost use Rattle.ele_checkpoint.specs.Rows.{directory_text, file_text, group_text, handle_text, mark_text, name_text};

use crate::coded::{Coded, list_of, put_list};
use crate::fault::Stop;
use crate::number::{number_of, put_number};
use crate::value::{
    maybe_of, moment_of, name_of, policy_of, put_maybe, put_moment, put_policy, put_reads,
    put_string, put_target, reads_of, target_of,
};
use ele_lists::ListOf;
use ele_model::{DirectoryRow, FileRow, GroupRow, HandleRow, MarkRow, NameRow};
use ele_moment::{DirId, FileId, Handle, NoMemory, VersionNo};
use std::alloc::Global;

impl Coded for DirectoryRow {
    ghost spelling = { directory_text };

    ghost reading = { directory_at };

    fn put(&self, out: &mut Vec<u8>) -> Result<(), NoMemory> {
        put_number(out, self.id.0)?;
        put_policy(out, &self.default)
    }

    #[tactic(auto, unfolding(crate::specs::PartsRead::directory_at))]
    fn get(alloc: Global, bytes: &[u8]) -> Result<(DirectoryRow, &[u8]), Stop> {
        let (id, rest) = number_of(bytes)?;
        let (default, rest) = taken!(policy_of(alloc, rest));
        let id = DirId(id);
        Ok((DirectoryRow { id, default }, rest))
    }
}

impl Coded for FileRow {
    ghost spelling = { file_text };

    ghost reading = { file_at };

    fn put(&self, out: &mut Vec<u8>) -> Result<(), NoMemory> {
        put_number(out, self.id.0)?;
        put_policy(out, &self.policy)?;
        put_number(out, self.next.0)
    }

    #[tactic(auto, unfolding(crate::specs::PartsRead::file_at))]
    fn get(alloc: Global, bytes: &[u8]) -> Result<(FileRow, &[u8]), Stop> {
        let (id, rest) = number_of(bytes)?;
        let (policy, rest) = taken!(policy_of(alloc, rest));
        let (next, rest) = number_of(rest)?;
        let id = FileId(id);
        let next = VersionNo(next);
        Ok((FileRow { id, policy, next }, rest))
    }
}

impl Coded for NameRow {
    ghost spelling = { name_text };

    ghost reading = { name_row_at };

    fn put(&self, out: &mut Vec<u8>) -> Result<(), NoMemory> {
        put_number(out, self.directory.0)?;
        put_string(out, self.name.bytes())?;
        put_target(out, self.target)?;
        put_moment(out, self.birth)?;
        put_maybe(out, self.death)
    }

    #[tactic(auto, unfolding(crate::specs::PartsRead::name_row_at))]
    fn get(_alloc: Global, bytes: &[u8]) -> Result<(NameRow, &[u8]), Stop> {
        let (directory, rest) = number_of(bytes)?;
        let (name, rest) = taken!(name_of(rest));
        let (target, rest) = taken!(target_of(rest));
        let (birth, rest) = taken!(moment_of(rest));
        let (death, rest) = taken!(maybe_of(rest));
        let row = NameRow {
            directory: DirId(directory),
            name,
            target,
            birth,
            death,
        };
        Ok((row, rest))
    }
}

impl Coded for HandleRow {
    ghost spelling = { handle_text };

    ghost reading = { handle_at };

    fn put(&self, out: &mut Vec<u8>) -> Result<(), NoMemory> {
        put_number(out, self.number.0)?;
        put_reads(out, self.reads)
    }

    #[tactic(auto, unfolding(crate::specs::PartsRead::handle_at))]
    fn get(_alloc: Global, bytes: &[u8]) -> Result<(HandleRow, &[u8]), Stop> {
        let (number, rest) = number_of(bytes)?;
        let (reads, rest) = taken!(reads_of(rest));
        let number = Handle(number);
        Ok((HandleRow { number, reads }, rest))
    }
}

impl Coded for FileId {
    ghost spelling = { number_text };

    ghost reading = { number_at };

    fn put(&self, out: &mut Vec<u8>) -> Result<(), NoMemory> {
        put_number(out, self.0)
    }

    fn get(_alloc: Global, bytes: &[u8]) -> Result<(FileId, &[u8]), Stop> {
        let (id, rest) = number_of(bytes)?;
        Ok((FileId(id), rest))
    }
}

impl Coded for MarkRow {
    ghost spelling = { mark_text };

    ghost reading = { mark_at };

    fn put(&self, out: &mut Vec<u8>) -> Result<(), NoMemory> {
        put_moment(out, self.at)?;
        put_maybe(out, self.until)
    }

    #[tactic(auto, unfolding(crate::specs::PartsRead::mark_at))]
    fn get(_alloc: Global, bytes: &[u8]) -> Result<(MarkRow, &[u8]), Stop> {
        let (at, rest) = taken!(moment_of(bytes));
        let (until, rest) = taken!(maybe_of(rest));
        Ok((MarkRow { at, until }, rest))
    }
}

impl Coded for GroupRow {
    ghost spelling = { group_text };

    ghost reading = { group_at };

    fn put(&self, out: &mut Vec<u8>) -> Result<(), NoMemory> {
        put_string(out, self.name.bytes())?;
        put_list(out, self.members.as_slice())?;
        put_list(out, self.marks.as_slice())
    }

    #[tactic(auto, unfolding(crate::specs::PartsRead::group_at))]
    fn get(alloc: Global, bytes: &[u8]) -> Result<(GroupRow, &[u8]), Stop> {
        let (name, rest) = taken!(name_of(bytes));
        let (members, rest) = taken!(list_of::<FileId>(alloc, rest));
        let (marks, rest) = taken!(list_of::<MarkRow>(alloc, rest));
        let row = GroupRow {
            name,
            members: ListOf::from_vec(members),
            marks: ListOf::from_vec(marks),
        };
        Ok((row, rest))
    }
}
