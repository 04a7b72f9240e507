//! What the events of groups change. Each law is the contract of a function that does nothing.
ghost use Rattle.ele_world.specs.GroupsCome.{GroupComes, GroupGoes};
ghost use Rattle.ele_world.specs.MarkGoes.{MarkGoes};
ghost use Rattle.ele_world.specs.MembersChange.{MemberComes, MemberGoes};

use ele_policy::laws;

/// After a `group make` there is a group of that name, without files and marks; every other group
/// is as it was.
pub fn group_comes()
    ensures { GroupComes }
{
    laws::policies_are_lawful();
}

/// After a `group drop` there is no group of that name; every other group is as it was.
pub fn group_goes()
    ensures { GroupGoes }
{
    laws::policies_are_lawful();
}

/// After a `group add` the group has the file beside its others, and its marks; every other group
/// is as it was.
pub fn member_comes()
    ensures { MemberComes }
{
    laws::policies_are_lawful();
}

/// After a `group remove` the group has its other files, and its marks; every other group is as it
/// was.
pub fn member_goes()
    ensures { MemberGoes }
{
    laws::policies_are_lawful();
}

/// After an `unmark` the group has its other marks, and its files; every other group is as it was.
pub fn mark_goes()
    ensures { MarkGoes }
{
    laws::policies_are_lawful();
}
