//! Which changes are asked for. A contract sees a path as its names.
ghost use Rattle.std.specs.Prelude.{◌≡◌, false};
ghost use Rattle.std.specs.Option.{option_map_or};
ghost use Rattle.ele_name_paths.specs.LivePath.{names_in};
ghost use Rattle.ele_change_paths.specs.PathChanges.{is_within, touches};

use ele_moment::Name;
use ele_path::Path;

/// Whether one of the paths is at the path that is asked for, or below it; without one, any is.
pub(crate) fn touches(
    within: &Option<Path>,
    from: &Option<Vec<Name>>,
    to: &Option<Vec<Name>>,
) -> bool
    ensures { result ≡ touches within.now (names_in from.now) (names_in to.now) }
{
    match within {
        Some(path) => has_begin(path, from) || has_begin(path, to),
        None => true,
    }
}

// Whether there is a path that begins with these names.
fn has_begin(path: &Path, names: &Option<Vec<Name>>) -> bool
    ensures { result ≡ option_map_or (is_within path.now) (names_in names.now) false }
{
    match names {
        Some(names) => is_within(path, names.as_slice()),
        None => false,
    }
}

// Whether the names begin with these of the path.
fn is_within(path: &Path, names: &[Name]) -> bool
    ensures { result ≡ is_within path.now names.now }
{
    let mut rest = names;
    for step in path.names() {
        let [name, after @ ..] = rest else {
            return false;
        };
        if *name != step {
            return false;
        }
        rest = after;
    }
    true
}
