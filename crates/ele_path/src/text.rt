//! The texts of paths, in place if they are short. A contract sees a short text as its bytes.
ghost use Rattle.std.specs.Prelude.{◌≡◌, ◌+◌, ◌≤◌, ◌++◌, ◌∷◌, [], length, is_ok, if◌then◌else◌, IfOk, OnOk};
ghost use Rattle.ele_path.specs.Text.{bytes_of};

use std::alloc::{AllocError, Global};
use std::boxed::Box;
use std::marker::Model;

/// A text: in place if it has at most 22 bytes, else in memory of its own.
pub(crate) enum Text {
    Short(Short),
    Long(Box<Vec<u8>>),
}

// By hand, so that a drop of an event is one call for each path in it: a derived one would be a
// choice of two for each, wherever an event is dropped.
impl Drop for Text {
    fn drop(self) {
        match self {
            Text::Short(_short) => {}
            Text::Long(_long) => {}
        }
    }
}

impl Text {
    /// Makes an empty text. It takes no memory.
    pub(crate) fn empty() -> Text
        ensures { bytes_of result ≡ [] }
    {
        Text::Short(Short::new())
    }

    /// Makes an empty text with room for so many bytes. It takes no memory for 22 or fewer.
    pub(crate) fn with_room(alloc: Global, bytes: usize) -> Result<Text, AllocError>
        ensures { IfOk result (λ text. bytes_of text ≡ []) }
    {
        if bytes <= Short::MOST_BYTES {
            return Ok(Text::empty());
        }
        let bytes = Vec::with_capacity(alloc, bytes)?;
        Ok(Text::Long(Box::new(alloc, bytes)?))
    }

    /// Makes the text of these bytes.
    pub(crate) fn new(alloc: Global, bytes: &[u8]) -> Result<Text, AllocError>
        ensures { IfOk result (λ text. bytes_of text ≡ bytes.now) }
    {
        let mut text = Text::with_room(alloc, bytes.len())?;
        text.push(bytes)?;
        Ok(text)
    }

    /// Writes the bytes behind the text. `AllocError` if there is no room for them.
    pub(crate) fn push(&mut self, bytes: &[u8]) -> Result<(), AllocError>
        ensures { bytes_of self.new ≡ (if is_ok result then bytes_of self.old ++ bytes.now else bytes_of self.old) }
    {
        match self {
            Text::Short(short) => short.push(bytes),
            Text::Long(long) => long.extend_from_slice(bytes),
        }
    }

    /// Writes a slash and a name behind the text. `AllocError` if there is no room for them.
    #[tactic(auto, using(crate::proofs::Basics::append_assoc))]
    pub(crate) fn push_name(&mut self, name: &[u8]) -> Result<(), AllocError>
        ensures { OnOk result (bytes_of self.new ≡ bytes_of self.old ++ 47 ∷ name.now) }
    {
        self.push(b"/")?;
        self.push(name)
    }

    /// Returns the bytes.
    pub(crate) fn as_slice(&self) -> &[u8]
        ensures { result.now ≡ bytes_of self.now }
    {
        match self {
            Text::Short(short) => short.as_slice(),
            Text::Long(long) => long.as_slice(),
        }
    }
}

/// A text of at most 22 bytes.
#[derive(Drop)]
pub(crate) struct Short {
    bytes: [u8; Short::MOST_BYTES],
    len: u8,
}

impl Model for Short {
    ghost use Rattle.std.specs.Prelude.{List, ℕ};

    ghost Value = { List ℕ };

    ghost use Rattle.ele_path.specs.Short.{short_bytes, IsShort};

    ghost view = { short_bytes };

    ghost invariant = { IsShort };
}

impl Short {
    const MOST_BYTES: usize = 22;

    // No bytes.
    pub(crate) fn new() -> Short
        ensures { result ≡ [] }
    {
        Short {
            bytes: [0; Short::MOST_BYTES],
            len: 0,
        }
    }

    // Returns the bytes.
    pub(crate) fn as_slice(&self) -> &[u8]
        ensures { result.now ≡ self.now }
    {
        &self.bytes[..usize::from(self.len)]
    }

    // Writes the bytes behind the others, if there is room for them.
    pub(crate) fn push(&mut self, bytes: &[u8]) -> Result<(), AllocError>
        ensures { self.new ≡ (if is_ok result then self.old ++ bytes.now else self.old) }
    {
        let begin = usize::from(self.len);
        if bytes.len() > Short::MOST_BYTES - begin {
            return Err(AllocError);
        }
        let end = begin + bytes.len();
        self.bytes[begin..end].copy_from_slice(bytes);
        self.len = end as u8;
        Ok(())
    }
}
