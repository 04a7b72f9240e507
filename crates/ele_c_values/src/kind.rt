//! The kinds of answers in numbers, which C asks for by their numbers.
ghost use Rattle.std.specs.Prelude.{◌≡◌, slice_get};
ghost use Rattle.ele_c_values.specs.Kept.{kinds};

/// A kind of answer.
#[derive(Clone, Copy)]
pub enum Kind {
    Now,
    Detail,
    History,
    Pass,
    Why,
    Key,
    Removed,
    Version,
    Name,
    Usage,
    Group,
    Member,
    Mark,
    Stat,
    Rung,
    Counts,
    Hold,
}

// The kinds in the order of their numbers, which is that of the type.
static KINDS: [Kind; 17] = [
    Kind::Now,
    Kind::Detail,
    Kind::History,
    Kind::Pass,
    Kind::Why,
    Kind::Key,
    Kind::Removed,
    Kind::Version,
    Kind::Name,
    Kind::Usage,
    Kind::Group,
    Kind::Member,
    Kind::Mark,
    Kind::Stat,
    Kind::Rung,
    Kind::Counts,
    Kind::Hold,
];

/// Returns the kind of a number, if there is one.
pub fn kind_of(number: u32) -> Option<Kind>
    ensures { result ≡ slice_get kinds number }
{
    match KINDS.get(number as usize) {
        Some(kind) => Some(*kind),
        None => None,
    }
}
