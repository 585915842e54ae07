//! The command line of the program `moc`: its subcommands, their arguments, and their help.
#![tactic(auto)]

mod commands;
mod help;
mod subcommands;
mod suggestions;

pub use commands::command_line;
pub use help::FAULTS;
pub use suggestions::suggest;
