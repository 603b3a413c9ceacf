//! What scripts are told by runs of `metad`, over any runs before, crashes and lost drives: a law in a user's words.
#![tactic(auto)]

mod law;

pub use law::{
    blocks_keep_their_values, databases_stay, lines_are_answered, lives_begin, prints_are_told,
    runs_keep_their_word, runs_live_on, volumes_go,
};
