//! Where moments stand in the lines of an answer. A contract sees, for each word of a line, whether
//! it is a moment.
ghost use Rattle.std.specs.Prelude.{◌≡◌};
ghost use Rattle.std.specs.Option.{option_copied, option_map};
ghost use Rattle.ele_dialog.specs.Places.{columns_behind, columns_of, columns_of_row, columns_of_story, names_mark, names_moment, places_of, places_of_reply};

use ele_model::Reply;
use ele_runs::Said;

/// Where the moments of an answer stand.
#[derive(Clone, Copy)]
pub(crate) enum Places {
    /// In the rows of `versions`.
    Versions,
    /// In the rows of `groups`.
    Groups,
    /// In rows that begin with a moment, as those of `due`.
    Firsts,
    /// In the rows of `handles`.
    Handles,
    /// In rows that have when a name ended, as those of `removals`.
    Names,
    /// In the rows of `story`.
    Story,
    /// In the answer to `stat` of a file.
    File,
    /// In the answer to `clean`.
    Cleaned,
    /// In the words of a fate, as in the answer to `why`.
    Fate,
}

/// Returns where the moments of an answer stand, whose reply is the last one. None if it has none.
pub(crate) fn places_of(said: &Said, last: Option<&Reply>) -> Option<Places>
    ensures { result ≡ places_of said.now (option_copied last.entry) }
{
    match said {
        Said::Replied => places_of_reply(last),
        Said::Why(Ok(_)) => Some(Places::Fate),
        Said::WhyHeld(_, _) => Some(Places::Fate),
        Said::WhyRemoved(_) => Some(Places::Fate),
        Said::Ahead(Ok(_)) => Some(Places::Firsts),
        Said::Gone(_) => Some(Places::Firsts),
        Said::Handles(_) => Some(Places::Handles),
        Said::Removals(_) => Some(Places::Names),
        Said::Expiring(Ok(_)) => Some(Places::Names),
        Said::Story(Ok(_)) => Some(Places::Story),
        _ => None,
    }
}

// Where the moments of a reply stand.
fn places_of_reply(last: Option<&Reply>) -> Option<Places>
    ensures { result ≡ places_of_reply (option_copied last.entry) }
{
    match last {
        Some(Reply::Rows(_)) => Some(Places::Versions),
        Some(Reply::DueList(_)) => Some(Places::Firsts),
        Some(Reply::GroupList(_)) => Some(Places::Groups),
        Some(Reply::FileStat(_)) => Some(Places::File),
        Some(Reply::Removed(_)) => Some(Places::Cleaned),
        _ => None,
    }
}

/// Returns for the first words of a line whether each is a moment; behind them only a fate has some.
/// None if the line has no moments.
pub(crate) fn columns_of(places: Places, line: &[u8]) -> Option<&'static [bool]>
    ensures { option_map (λ columns. columns.now) result ≡ columns_of places line.now }
{
    match places {
        Places::Versions => columns_of_row(&[false, false, true, true, true], line),
        Places::Groups => columns_of_row(&[false, false, false, false, false, true], line),
        Places::Firsts => columns_of_row(&[false, true], line),
        Places::Handles => columns_of_row(&[false, false, false, false, true], line),
        Places::Names => columns_of_row(&[false, true, false, false, false, true], line),
        Places::Story => columns_of_row(columns_of_story(line), line),
        Places::File => Some(&[
            false, false, false, false, false, false, true, false, true, false, true,
        ]),
        Places::Cleaned => Some(&[false, false, true]),
        Places::Fate => Some(&[]),
    }
}

// These columns, of a row.
fn columns_of_row(columns: &'static [bool], line: &[u8]) -> Option<&'static [bool]>
    ensures { option_map (λ columns. columns.now) result ≡ columns_of_row columns.now line.now }
{
    if line.starts_with(b"- ") {
        Some(columns)
    } else {
        None
    }
}

// The columns of a row of `story`: of a name, or of a version.
fn columns_of_story(line: &[u8]) -> &'static [bool]
    ensures { result.now ≡ columns_of_story line.now }
{
    if line.starts_with(b"- name ") {
        &[false, false, true, true]
    } else {
        &[false, false, false, true, true]
    }
}

/// Returns for the words behind a word of a fate whether each is a moment.
pub(crate) fn columns_behind(word: &[u8]) -> &'static [bool]
    ensures { result.now ≡ columns_behind word.now }
{
    if names_moment(word) {
        &[true]
    } else if names_mark(word) {
        &[false, true]
    } else {
        &[]
    }
}

// Whether a moment is behind a word of a fate.
fn names_moment(word: &[u8]) -> bool
    ensures { result ≡ names_moment word.now }
{
    word == b"due".as_slice() || word == b"until".as_slice() || word == b"removed".as_slice()
}

// Whether a group and its mark are behind a word of a fate.
fn names_mark(word: &[u8]) -> bool
    ensures { result ≡ names_mark word.now }
{
    word == b"held".as_slice() || word == b"marked".as_slice()
}
