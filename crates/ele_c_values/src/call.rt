//! The calls that C makes by their numbers.
ghost use Rattle.std.specs.Prelude.{◌≡◌, slice_get};
ghost use Rattle.ele_c_values.specs.Call.{call_at, early, late, middle};

/// A call that runs an event.
#[derive(Clone, Copy)]
pub enum Call {
    Clock,
    Tick,
    MakeDir,
    RemoveDir,
    Create,
    Link,
    Unlink,
    Rename,
    Undelete,
    OpenWrite,
    OpenRead,
    Write,
    Truncate,
    Close,
    Revert,
    SetPolicy,
    SetDefault,
    GroupMake,
    GroupDrop,
    GroupAdd,
    GroupRemove,
    Mark,
    Unmark,
    CleanOne,
    Read,
    ReadHandle,
    Stat,
    Versions,
    ListNames,
    Restorable,
    Due,
    UsageAll,
    GroupsAll,
    Save,
    Abandon,
    Restore,
    Note,
}

// The calls in the order of their numbers, which is that of the type, in three tables that a proof looks
// through.
static EARLY: [Call; 11] = [
    Call::Clock,
    Call::Tick,
    Call::MakeDir,
    Call::RemoveDir,
    Call::Create,
    Call::Link,
    Call::Unlink,
    Call::Rename,
    Call::Undelete,
    Call::OpenWrite,
    Call::OpenRead,
];

static MIDDLE: [Call; 11] = [
    Call::Write,
    Call::Truncate,
    Call::Close,
    Call::Revert,
    Call::SetPolicy,
    Call::SetDefault,
    Call::GroupMake,
    Call::GroupDrop,
    Call::GroupAdd,
    Call::GroupRemove,
    Call::Mark,
];

static LATE: [Call; 15] = [
    Call::Unmark,
    Call::CleanOne,
    Call::Read,
    Call::ReadHandle,
    Call::Stat,
    Call::Versions,
    Call::ListNames,
    Call::Restorable,
    Call::Due,
    Call::UsageAll,
    Call::GroupsAll,
    Call::Save,
    Call::Abandon,
    Call::Restore,
    Call::Note,
];

fn early(place: u32) -> Option<Call>
    ensures { result ≡ slice_get early place }
{
    match EARLY.get(place as usize) {
        Some(call) => Some(*call),
        None => None,
    }
}

fn middle(place: u32) -> Option<Call>
    ensures { result ≡ slice_get middle place }
{
    match MIDDLE.get(place as usize) {
        Some(call) => Some(*call),
        None => None,
    }
}

fn late(place: u32) -> Option<Call>
    ensures { result ≡ slice_get late place }
{
    match LATE.get(place as usize) {
        Some(call) => Some(*call),
        None => None,
    }
}

/// Returns the call of a number, if there is one.
pub fn call_of(number: u32) -> Option<Call>
    ensures { result ≡ call_at number }
{
    if number < 11 {
        return early(number);
    }
    if number < 22 {
        return middle(number - 11);
    }
    late(number - 22)
}
