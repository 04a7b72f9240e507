//! Events as values: `apply` finds the call of an event, and returns its reply.
ghost use Rattle.std.specs.Prelude.{◌≡◌, ◌≢◌, Err, IfOk, OnErr, true};
ghost use Rattle.ele_events.specs.Does.{Does, removed, revived, stat_told};
ghost use Rattle.ele_events.specs.Reads.{IsRead};
ghost use Rattle.ele_events.specs.declared.halt.Halt.TheVariants as halt;
ghost use Rattle.ele_model.specs.declared.reply.Reply.{Reply};
ghost use Rattle.ele_model.specs.declared.event.Event.TheVariants as event;
ghost use Rattle.ele_model.specs.declared.reply.Reply.TheVariants.{Done, UsageList};
ghost use Rattle.ele_model.specs.Ready.{takes_no_memory};
ghost use Rattle.ele_model.specs.Run.{IsEvent};
ghost use Rattle.ele_model.specs.Usage.{usages};

use crate::Core;
use ele_events::{Halt, Stat};
use ele_model::{
    Boxed, DirectoryRow, Event, FileStat, Key, NoMemory, Reply, TaggedPath, VersionNo,
};
use std::alloc::Global;

// The reply to a clean, which removed the version of the key, or none.
fn removed(key: Option<Key>) -> Reply
    ensures { result ≡ removed key }
{
    match key {
        Some(key) => Reply::Removed(key),
        None => Reply::Nothing,
    }
}

// The reply to an undelete.
fn revived(number: Option<VersionNo>) -> Reply
    ensures { result ≡ revived number }
{
    match number {
        Some(number) => Reply::Version(number),
        None => Reply::Done,
    }
}

// The reply to a stat. It takes each row apart, since no proof is made of a box if no value has the
// types of its fields.
fn stat_told(alloc: Global, stat: Stat) -> Result<Reply, NoMemory>
    ensures { IfOk result (λ reply. reply ≡ stat_told stat) }
{
    match stat {
        Stat::File(FileStat { file, info, policy }) => {
            Boxed::new(alloc, FileStat { file, info, policy }).map(Reply::FileStat)
        }
        Stat::Directory(DirectoryRow { id, default }) => {
            Boxed::new(alloc, DirectoryRow { id, default }).map(Reply::DirStat)
        }
    }
}

// The reply that holds no value.
fn done(_unit: ()) -> Reply
    ensures { result ≡ Done }
{
    Reply::Done
}

impl Core {
    // Replies to a stat. It is a function of its own, so that its proof stays small.
    #[inline(never)]
    fn stat_reply(&self, tagged: &TaggedPath) -> Result<Reply, Halt>
        ensures { Does (λ reply. reply)
            self.now.world (event.Stat tagged.now) result self.now.world }
    {
        match self.stat(tagged) {
            Ok(stat) => Ok(stat_told(self.state.allocator(), stat)?),
            Err(refusal) => Err(Halt::Refused(refusal)),
        }
    }

    // Replies with the usage of each kind of policy. It is a function of its own, so that its proof
    // stays small.
    fn usage_reply(&self) -> Result<Reply, NoMemory>
        ensures { IfOk result (λ reply. reply ≡ UsageList (usages self.now.world)) }
    {
        let usage = Boxed::new(self.state.allocator(), self.usage())?;
        Ok(Reply::UsageList(usage))
    }

    // Answers the event, and makes its change. The events that only set the clock or ask the queue
    // are answered here, without the stack that `answer_any` takes for the other kinds.
    pub(crate) fn answer(&mut self, event: &Event) -> Result<Reply, Halt>
        requires { self.old.rows_read ≡ 0 }
        ensures does { Does (λ reply. reply) self.old.world event.now result self.new.world }
        ensures event { IsEvent event.now }
        ensures ready { takes_no_memory event.now ≡ true → result ≢ Err halt.NoMemory }
        ensures read { IfOk result (λ reply. IsRead event.now reply self.new.rows_read) }
        ensures refused { OnErr result ((reply : Reply) → IsRead event.now reply self.new.rows_read) }
    {
        match event {
            Event::Clock(to) => return Ok(Reply::Now(self.clock(*to)?)),
            Event::Due => return Ok(Reply::DueList(self.due_keys()?)),
            _ => {}
        }
        self.answer_any(event)
    }

    // Answers any event.
    #[inline(never)]
    fn answer_any(&mut self, event: &Event) -> Result<Reply, Halt>
        requires { self.old.rows_read ≡ 0 }
        ensures does { Does (λ reply. reply) self.old.world event.now result self.new.world }
        ensures event { IsEvent event.now }
        ensures ready { takes_no_memory event.now ≡ true → result ≢ Err halt.NoMemory }
        ensures read { IfOk result (λ reply. IsRead event.now reply self.new.rows_read) }
        ensures refused { OnErr result ((reply : Reply) → IsRead event.now reply self.new.rows_read) }
    {
        match event {
            Event::Clock(to) => Ok(Reply::Now(self.clock(*to)?)),
            Event::Tick(seconds) => Ok(Reply::Now(self.tick(*seconds)?)),
            Event::MakeDir(path) => self.make_dir(path).map(Reply::Directory),
            Event::RemoveDir(path) => Ok(done(self.remove_dir(path)?)),
            Event::Create(path) => self.create(path).map(Reply::File),
            Event::Link(from, to) => self.link(from, to).map(done),
            Event::Unlink(path) => self.unlink(path).map(done),
            Event::Rename(from, to) => self.rename(from, to).map(done),
            Event::Undelete(path) => self.undelete(path).map(revived),
            Event::OpenWrite(path) => self.open_write(path).map(Reply::Handle),
            Event::OpenRead(tagged) => self.open_read(tagged).map(Reply::Handle),
            Event::Write(handle, offset, bytes) => self.write(*handle, *offset, bytes).map(done),
            Event::Truncate(handle, size) => self.truncate(*handle, *size).map(done),
            Event::Close(handle) => self.close(*handle).map(Reply::Closed),
            Event::Abandon(handle) => Ok(done(self.abandon(*handle)?)),
            Event::Save(path, bytes) => self.save(path, bytes).map(Reply::Version),
            Event::Revert(path, number) => self.revert(path, *number).map(Reply::Version),
            Event::Restore(path, moment) => self.restore(path, *moment).map(Reply::Version),
            Event::SetPolicy(path, policy) => self.set_policy(path, *policy.get()).map(done),
            Event::SetDefault(path, policy) => Ok(done(self.set_default(path, *policy.get())?)),
            Event::GroupMake(name) => self.make_group(&name.get()).map(done),
            Event::GroupDrop(name) => self.drop_group(&name.get()).map(done),
            Event::GroupAdd(name, path) => self.add_to_group(&name.get(), path).map(done),
            Event::GroupRemove(name, path) => self.remove_from_group(&name.get(), path).map(done),
            Event::Mark(name, moment, until) => self.mark(&name.get(), *moment, until).map(done),
            Event::Unmark(name, moment) => self.unmark(&name.get(), *moment).map(done),
            Event::CleanOne => Ok(removed(self.clean_one())),
            Event::Note(bytes) => Ok(done(self.note(bytes)?)),
            Event::Read(source) => self.read(source).map(Reply::Bytes),
            Event::Stat(tagged) => self.stat_reply(tagged),
            Event::Versions(at) => self.versions(at).map(Reply::Rows),
            Event::List(at) => self.list(at).map(Reply::NameList),
            Event::Restorable => Ok(Reply::RestoreList(self.deleted_names()?)),
            Event::Due => Ok(Reply::DueList(self.due_keys()?)),
            Event::UsageAll => Ok(self.usage_reply()?),
            Event::GroupsAll => Ok(Reply::GroupList(self.groups()?)),
        }
    }
}
