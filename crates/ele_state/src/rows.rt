//! The rows of a state: directories by number, names, files and groups, and beside them the queue
//! of keys and the book of usage.
use ele_due::DueQueue;
use ele_files::{Files, Meter};
use ele_groups::Groups;
use ele_model::{DirectoryRow, Limits, Moment};
use ele_names::Names;
use ele_usage::UsageBook;
use std::alloc::Global;

// How many of each kind were ever made; the files count the handles.
#[derive(Clone, Copy)]
pub struct Made {
    pub files: u64,
    pub directories: u64,
    pub names: u64,
    pub versions: u64,
    pub groups: u64,
    pub members: u64,
    pub marks: u64,
}

// All rows and counts. The meter has the number of version rows that the last clean read.
#[derive(Drop)]
pub struct Rows {
    pub moment: Moment,
    pub directories: Vec<DirectoryRow>,
    pub names: Names,
    pub files: Files,
    pub groups: Groups,
    pub queue: DueQueue,
    pub book: UsageBook,
    pub made: Made,
    pub limits: Limits,
    pub meter: Meter,
    pub alloc: Global,
}
