//! What does a command line ask for, when do its requests come, and how does it end?
//!
//! It also says what the commands on a shop's file ask of whoever has the files.
#![tactic(auto)]

pub mod advice;
pub mod argument;
pub mod console;
pub mod devices;
pub mod ended;
pub mod fault;
pub mod files;
pub mod laws;
pub mod line;
pub mod saying;
pub mod ticks;
pub mod values;
pub mod words;

pub use advice::Advice;
pub use argument::Argument;
pub use console::Console;
pub use devices::counted;
pub use ended::LineEnd;
pub use fault::RunFault;
pub use files::{HouseFiles, ServeOptions};
pub use line::{answer_line, tell_fault, tell_report, tell_run, tell_words};
pub use saying::{end_said, say};
pub use ticks::{FeedTicks, Pace};
pub use values::{Report, ReportFault, feed_values, is_token, read_options, report_of};
pub use words::{
    FeedLine, FileLine, ImportLine, InitLine, Line, ReportLine, ServeLine, TokenLine, plain_words,
    program_version, read_line,
};
