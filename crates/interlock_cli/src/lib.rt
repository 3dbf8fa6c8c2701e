//! The top call: what the program does with its words, its files and its streams.
#![tactic(auto)]

mod answer;
mod audit_command;
mod check_command;
mod command;
mod compare_command;
mod compile_command;
mod content;
mod end;
mod explain_command;
mod formats;
mod loading;
mod make_command;
mod node_command;
mod order_command;
mod out_text;
mod plan_command;
mod program_command;
mod replay_command;
mod state_command;
mod station_command;
mod status;
mod stored_command;
mod stored_top;
mod stored_words;
mod tell;
mod tests_command;
mod top;
mod trips_command;
mod why_command;
mod words;
mod work_command;

pub use status::Status;
pub use stored_top::run_stored;
pub use top::run;
