//! How long a content may be.
//! A contract sees the bound as a number of bytes.
ghost use Rattle.std.specs.Prelude.{◌≡◌, ◌+◌, nat_lt};
ghost use Rattle.ele_content.specs.Content.{longest_content};

/// The largest length of a content, in bytes.
const LONGEST_CONTENT: u64 = 1_048_576;

/// Whether bytes of this length from the offset on would make a content too long.
pub fn is_too_long(offset: u64, length: u64) -> bool
    ensures { result ≡ nat_lt longest_content (offset + length) }
{
    offset > LONGEST_CONTENT || length > LONGEST_CONTENT - offset
}
