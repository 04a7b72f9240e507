//! Rows of names, in numbers.
ghost use Rattle.std.specs.Prelude.{◌≡◌};
ghost use Rattle.std.specs.Option.{option_copied};
ghost use Rattle.ele_c_values.specs.Kept.{name_in};
ghost use Rattle.ele_c_values.specs.Numbers.{target_numbers};

use crate::codes::{NO_RESULT, NO_ROW};
use crate::numbers::{NONE, Numbers};
use ele_model::{DirId, KeptName, Reply, Target};

// `elephant_name_row`: directory, is_directory, id, name_length.
fn target_numbers(directory: DirId, name: &KeptName, target: Target) -> Numbers
    ensures { result ≡ target_numbers directory name.now target }
{
    let length = name.bytes().len() as u64;
    match target {
        Target::File(file) => Numbers {
            first: directory.0,
            third: file.0,
            fourth: length,
            ..NONE
        },
        Target::Directory(id) => Numbers {
            first: directory.0,
            second: 1,
            third: id.0,
            fourth: length,
            ..NONE
        },
    }
}

/// The row of a name.
pub(crate) fn name_in(reply: Option<&Reply>, index: u64) -> Result<Numbers, i32>
    ensures { result ≡ name_in (option_copied reply.entry) index }
{
    match reply {
        Some(Reply::NameList(names)) => match names.as_slice().get(index as usize) {
            Some(named) => Ok(target_numbers(DirId(0), &named.0, named.1)),
            None => Err(NO_ROW),
        },
        Some(Reply::RestoreList(names)) => match names.as_slice().get(index as usize) {
            Some(dead) => Ok(target_numbers(dead.directory, &dead.name, dead.target)),
            None => Err(NO_ROW),
        },
        _ => Err(NO_RESULT),
    }
}
