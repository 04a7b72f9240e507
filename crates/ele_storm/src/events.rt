//! The paths and bytes in the events of a storm.
ghost use Rattle.std.specs.Prelude.{◌≡◌, ◌<◌, IfOk};
ghost use Rattle.std.specs.Int.{to_be_bytes, w64};
ghost use Rattle.ele_storm.specs.Rounds.{file_of, handle_in, tagged};

use ele_model::{ByteList, Handle, NoMemory, Path, Reply, Tag, TaggedPath};
use std::alloc::Global;

/// The path of the writer's file.
pub(crate) fn file_of(alloc: Global, writer: u64) -> Result<Path, NoMemory>
    ensures { IfOk result (λ path. path ≡ file_of writer) }
{
    let text = format!(in alloc; "/w{writer}")?;
    Path::read(alloc, text.as_bytes()).or(Err(NoMemory))
}

/// The same path, with this tag.
pub(crate) fn tagged_file(alloc: Global, writer: u64, tag: Tag) -> Result<TaggedPath, NoMemory>
    ensures { IfOk result (λ path. path ≡ tagged (file_of writer) tag) }
{
    Ok(TaggedPath::new(file_of(alloc, writer)?, tag))
}

/// The round's number as 8 bytes, the most significant first.
pub(crate) fn bytes_of(alloc: Global, round: u64) -> Result<ByteList, NoMemory>
    ensures { IfOk result (λ bytes. bytes ≡ to_be_bytes w64 round) }
{
    Ok(ByteList::from_vec(Vec::from_slice(alloc, &round.to_be_bytes())?))
}

/// The handle in the reply, or 0 if the reply has none.
pub(crate) fn handle_in(reply: &Reply) -> Handle
    ensures { result ≡ handle_in reply.now }
{
    match reply {
        Reply::Handle(handle) => *handle,
        _ => Handle(0),
    }
}
