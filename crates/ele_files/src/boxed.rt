//! A boxed file, so that few bytes move when another is removed from the list of files.
//! A contract sees the file.
ghost use Rattle.std.specs.Prelude.{◌≡◌, IfOk};
ghost use Rattle.std.specs.Borrow.{Lends, sem};
ghost use Rattle.ele_files.specs.contracts.boxed.BoxedFile.{the_row};
ghost use Rattle.ele_files.specs.contracts.file.File.{the_row as file_row};

use crate::file::File;
use ele_lists::Keyed;
use ele_moment::NoMemory;
use std::alloc::Global;
use std::marker::Model;

/// A file in an allocation of its own.
#[derive(Drop)]
pub struct BoxedFile {
    file: Box<File>,
}

impl Model for BoxedFile {
    ghost use Rattle.ele_files.specs.declared.file.File.{File};

    ghost Value = { File };

    ghost view = { λ boxed. boxed.file.value };
}

impl Keyed for BoxedFile {
    ghost key = { λ file. file.id };

    fn key(&self) -> u64 {
        self.file.id.0
    }
}

impl BoxedFile {
    /// Moves the file into an allocation of its own.
    pub fn new(alloc: Global, file: File) -> Result<BoxedFile, NoMemory>
        ensures { IfOk result (λ boxed. boxed ≡ file) }
    {
        let file = Box::new(alloc, file)?;
        Ok(BoxedFile { file })
    }

    /// Returns the file.
    pub fn get(&self) -> &File
        ensures { result.now ≡ self.now }
    {
        &self.file
    }

    /// Returns the file, for changes.
    pub fn get_mut(&mut self) -> &mut File
        ensures* writes_back { sem 𝓛 (Lends the_row file_row self.entry result (λ w. w)) }
        ensures value { result.now ≡ self.old }
    {
        &mut self.file
    }
}
