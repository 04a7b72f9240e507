//! A cell: one slot of a content.
//! A contract sees the writer's number and the bytes.
use ele_lists::ByteList;
use ele_moment::VersionNo;

/// The bytes of one slot, 512 or in the last slot maybe fewer, and the version whose session last
/// wrote it.
#[derive(Drop, PartialEq, Eq)]
pub struct Cell {
    pub writer: VersionNo,
    pub bytes: ByteList,
}
