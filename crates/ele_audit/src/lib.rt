//! What an audit asks of a history: which versions were removed and why, which handles are open, and
//! what is known of one file. A contract sees the answers as rows, and their text as bytes.
#![tactic(auto)]

mod cleaned;
mod gone;
mod held;
mod hold_text;
mod last_copy;
mod listing;
mod meant;
mod row;
mod seen;
mod stories;
mod story_file;
mod story_info;
mod story_row;
mod story_text;
mod text;
mod version;

pub use gone::{has_removals, removed};
pub use held::hold_at;
pub use hold_text::put_hold;
pub use last_copy::{advance, copy_of};
pub use listing::open_handles;
pub use row::{OpenHandle, Removed};
pub use seen::name_story;
pub use stories::{story, story_alone, version_story};
pub use story_row::{NameStory, Story, VersionStory};
pub use story_text::{put_fate_or_dash, put_story};
pub use text::{
    put_answers, put_gone, put_handles, put_path, put_since, put_why_gone, put_why_held,
};
pub use version::removed_version;
