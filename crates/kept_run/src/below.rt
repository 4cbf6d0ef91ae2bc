//! What crates above name of crates that they don't list.

pub use run_keeper::Keeper;
pub use teseo_program::below::{
    Input, Names, files_are_loadable, kind_of, leaves_of, load_is_legal, read_schedule, read_script,
};
pub use teseo_program::{
    Left, Outcome, Prepared, blamed_source, end_with, hand_out, is_full, make_files, output_of,
    outputs_of, read_input, run, say_line, say_outcome, summary_of, write_and_say,
};
