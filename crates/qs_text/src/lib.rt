//! What texts of a program are made of: bytes, numbers, names, requests, states, blocks and the names that are held,
//! and writing with an eye on failures.
#![tactic(auto)]

mod blocks;
mod bytes;
pub mod fates;
mod held;
pub mod laws;
mod names;
mod requests;
mod sorted;
mod states;
mod variables;
mod watching;

pub use blocks::{Block, BlockWriter, put_blocks};
pub use bytes::{put_count, put_count_line, put_digits, put_number, put_short, put_word};
pub use held::held_at;
pub use names::{put_named, put_names};
pub use qs_diagnosis::{put, put_all};
pub use qs_program::{client_name, declared_name, object_name, short_name, variable_name};
pub use requests::{ended_word, put_args, put_reply, put_request, put_whole_request};
pub use sorted::sorted_text;
pub use states::put_state;
pub use variables::put_variables;
pub use watching::{Watch, write_text, write_texts};
