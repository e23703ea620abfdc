//! Kinds of lexemes and of frames in code: what a lexeme is, what a frame waits for, and when a part ends it.
//!
//! Answers exactly what the tests and tables of `expr_grammar` say; of a part with a frame of its own
//! `child` gives only the wait. Knows nothing of what lexemes do to frames.
#![tactic(auto)]

mod frames;
mod kinds;

pub use frames::{absorbs, child, finishes, is_expression, list_of, mode};
pub use kinds::{
    is_always, is_arrow, is_bang, is_colon, is_comma, is_define, is_dot, is_else, is_equal,
    is_except, is_in_word, is_instance, is_left_angle, is_left_arrow, is_left_bracket,
    is_left_paren, is_maps_to, is_member, is_name, is_negative, is_other, is_right_angle,
    is_right_angle_subscript, is_right_brace, is_right_bracket, is_right_bracket_subscript,
    is_right_paren, is_then, is_underscore, is_with,
};
