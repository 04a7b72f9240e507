//! Answered events, as a history keeps them.
use crate::event::Event;
use crate::reply::Reply;

/// An answered event and its reply.
#[derive(Drop)]
pub struct Entry {
    pub event: Event,
    pub reply: Reply,
}
