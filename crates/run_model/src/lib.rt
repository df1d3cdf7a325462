//! What a run of a script is: its lines and their answers, the record that it keeps, and what it promises at every instant.
//! Definitions and laws alone.
//!
//! A script is a list of lines (`specs/Scripts.antt`), and what a line is answered depends on how the pool serves and on its
//! objects (`specs/Replies.antt`). A run keeps a record of its lines and intervals; read in order these are its items
//! (`specs/Records.antt`, `specs/Items.antt`). What was said is a list of pieces (`specs/Pieces.antt`, `specs/Answers.antt`).
//! `specs/Headline.antt` has the promise, and `specs/Validity.antt` says when a record is that of a run.
//!
//! The script `full a 0102` and `get a` has two items after those of its interval: the line `full` with the answer `ok`, and the
//! line `get` with `ok 0102`. At depth 4 a commit point stands between them.
#![tactic(auto)]

mod laws;

pub use laws::{
    activations_add_entries, agreement_is_enough, answers_are_told, answers_tell_updates,
    entries_add_items, failures_come_later, fronts_are_whole_pieces, items_grow_history,
    lines_add_entries, lines_are_answered_in_order, lines_are_spelled, said_is_read_once,
    serving_pools_answer_as_memory, turns_add_entries,
};
