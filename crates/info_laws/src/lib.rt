//! Laws of the text of `info`: it gives the steps that `gain` takes, and agrees with the files that commands write. Nothing
//! here runs.
#![tactic(auto)]

mod laws;

pub use laws::{
    counted_texts_agree, info_says_the_steps, main_data_fit, piece_texts_agree, written_texts_agree,
};
