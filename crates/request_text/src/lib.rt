//! Lines of scripts and of connections, read over a policy, and the texts of replies and of the
//! log.
#![tactic(auto)]

mod asked;
mod entries;
mod forms;
mod laws;
mod lines;
mod phrases;
mod reading;
mod replies;
mod rooms;
mod sizes;
mod verbs;
mod writing;

pub use entries::{LONGEST_ENTRY, put_birth, put_entries};
pub use laws::{
    lines_are_read, logs_are_told, long_is_told, phrases_are_spelled, replies_answer,
    replies_are_told, replies_can_be_written, requests_are_told, walks_are_brief,
};
pub use lines::{Line, LineFault};
pub use phrases::{NamedRequest, Phrase};
pub use reading::read_line;
pub use replies::put_reply;
pub use rooms::{PAGE_SIZE, Page};
pub use sizes::{LONGEST_REPLY, reply_fits};
pub use writing::{push_reply, write_entry, write_log, write_reply};
