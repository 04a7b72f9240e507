//! What some files and their versions use.
//! A contract sees four numbers.
ghost use Rattle.std.specs.Prelude.{◌≡◌};
ghost use Rattle.ele_usage.specs.Sums.{Fits};
ghost use Rattle.ele_usage.specs.Adding.{plus, IsWithin};

/// What some files and their versions use. The default is nothing.
#[derive(Clone, Copy, Default, PartialEq, Eq)]
pub struct Usage {
    /// How many files are held.
    pub files: u64,
    /// How many versions are held.
    pub versions: u64,
    /// The sum of the lengths of the versions' contents, in bytes.
    pub bytes: u64,
    /// How many distinct blocks the versions and drafts have.
    pub blocks: u64,
}

impl Usage {
    // The sum of both.
    pub(crate) fn plus(self, other: Usage) -> Usage
        requires { Fits (plus self other) }
        ensures { result ≡ plus self other }
    {
        Usage {
            files: self.files + other.files,
            versions: self.versions + other.versions,
            bytes: self.bytes + other.bytes,
            blocks: self.blocks + other.blocks,
        }
    }

    // The difference of both.
    pub(crate) fn minus(self, part: Usage) -> Usage
        requires { IsWithin part self }
        ensures { plus result part ≡ self }
    {
        Usage {
            files: self.files - part.files,
            versions: self.versions - part.versions,
            bytes: self.bytes - part.bytes,
            blocks: self.blocks - part.blocks,
        }
    }
}
