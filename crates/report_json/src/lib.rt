//! Question lines and replies: what a line of the questions asks, and the line of JSON that answers it.
#![tactic(auto)]

mod ask;
mod counts;
mod find_text;
mod numbers;
mod parts;
mod paths;
mod reply;
mod texts;

pub use ask::{Ask, BadQuestion, a_line_asks_one_thing, read_question, what_is_found_is_asked};
pub use counts::Counts;
pub use find_text::FindText;
pub use reply::{Reply, replies_are_lines, reply_text};
