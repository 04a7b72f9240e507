//! The events of groups: their files and their marks.
ghost use Rattle.ele_events.specs.Does.{Does, done};
ghost use Rattle.ele_model.specs.declared.event.Event.TheVariants as event;

use crate::Core;
use ele_events::Halt;
use ele_model::{Moment, Name, Path};

impl Core {
    /// Makes a group of that name, without files and marks. Refused: `GroupExists`, `Full`.
    /// Cost: constant time, amortized, by one look-up of the name; takes memory for a group.
    #[tactic(auto, using(crate::proofs::Reached::does))]
    pub fn make_group(&mut self, name: &Name) -> Result<(), Halt>
        ensures { Does done self.old.world (event.GroupMake name.now) result self.new.world }
    {
        ele_events::make_group(&mut self.state, name)
    }

    /// Removes the group and its marks. Refused: `NoGroup`.
    /// Cost: grows with the group's files times its marks, each pair with the file's groups and the
    /// logarithms of files, its versions and queued keys; groups made later move. Its memory grows
    /// with the group's files and marks, and the keys that change.
    #[tactic(auto, using(crate::proofs::Reached::does))]
    pub fn drop_group(&mut self, name: &Name) -> Result<(), Halt>
        ensures { Does done self.old.world (event.GroupDrop name.now) result self.new.world }
    {
        ele_events::drop_group(&mut self.state, name)
    }

    /// Adds the file at the path to the group. Refused: `NoGroup`, as `open_write`,
    /// `AlreadyMember`, `Full`.
    /// Cost: grows with the path's names, and for each mark of the group with the file's groups and
    /// the logarithms of files, versions and queued keys. Its memory grows with the group's marks
    /// and the keys that change; a membership takes 88 bytes.
    #[tactic(auto, using(crate::proofs::Reached::does))]
    pub fn add_to_group(&mut self, name: &Name, path: &Path) -> Result<(), Halt>
        ensures { Does done
            self.old.world (event.GroupAdd name.now path.now) result self.new.world }
    {
        ele_events::add_to_group(&mut self.state, name, path)
    }

    /// Removes the file at the path from the group. Refused: `NoGroup`, `NoEntry`, `NotDirectory`,
    /// `IsDirectory`, `NotMember`.
    /// Cost: the time of `add_to_group`, and a search for the file among the group's files. Its
    /// memory grows with the group's marks and the keys that change.
    #[tactic(auto, using(crate::proofs::Reached::does))]
    pub fn remove_from_group(&mut self, name: &Name, path: &Path) -> Result<(), Halt>
        ensures { Does done
            self.old.world (event.GroupRemove name.now path.now) result self.new.world }
    {
        ele_events::remove_from_group(&mut self.state, name, path)
    }

    /// Marks the group at a moment before now, for good or until a moment after now. Refused:
    /// `NoGroup`, `NotPast`, `NotAhead`, `MarkExists`, `Full`.
    /// Cost: grows with the group's files, for each with its groups and the logarithms of files,
    /// versions and queued keys. Its memory grows with the group's files and the keys that change;
    /// a mark takes some 60 bytes.
    #[tactic(auto, using(crate::proofs::Reached::does))]
    pub fn mark(&mut self, name: &Name, moment: Moment, until: &Option<Moment>) -> Result<(), Halt>
        ensures { Does done
            self.old.world (event.Mark name.now moment until.now) result self.new.world }
    {
        ele_events::mark(&mut self.state, name, moment, until)
    }

    /// Removes the group's mark at the moment. Refused: `NoGroup`, `NoMark`.
    /// Cost: the time of `mark`, and a search for the mark among the group's marks. Its memory
    /// grows with the group's files and the keys that change.
    #[tactic(auto, using(crate::proofs::Reached::does))]
    pub fn unmark(&mut self, name: &Name, moment: Moment) -> Result<(), Halt>
        ensures { Does done self.old.world (event.Unmark name.now moment) result self.new.world }
    {
        ele_events::unmark(&mut self.state, name, moment)
    }
}
