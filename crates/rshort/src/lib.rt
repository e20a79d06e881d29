//! Which bytes of records can be left out without a change of what they mean. For a reader that takes a text part by part.
#![tactic(auto)]

mod cutter;
mod ending;
mod joint;
mod laws;
mod step;

pub use cutter::{cut_text, shorten};
pub use ending::{cut_place, last_end};
pub use laws::{
    a_cut_record_has_its_code, a_long_piece_takes_no_more, a_text_may_be_cut_before_a_line_end,
    cut_records_have_the_same_fault, cut_records_say_the_same, what_is_cut_again_is_cut,
    what_may_be_left_out_changes_no_record,
};
