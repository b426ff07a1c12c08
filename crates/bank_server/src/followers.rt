//! The followers of node 0: what they are sent, and how they are compared.

mod agreement;
mod channels;
mod follower;
mod follower_link;
mod follower_threads;
mod lent_replica;
mod message;
mod ready_followers;
mod started_followers;
mod stray_reason;

pub use agreement::{agree, difference};
pub use ready_followers::ReadyFollowers;
pub use started_followers::{COMPARED_ENTRIES, Followers, with_followers};
pub use stray_reason::StrayReason;
