//! Schedules of steps, scripts that run on several threads, and theorems on both languages.
#![tactic(auto)]

mod crews;
mod player;
mod schedule;
mod step;
mod theorems;

pub use crews::{Gate, Lanes, OpenGate, crew, crews_answer_each_line};
pub use schedule::play;
pub use theorems::{
    lines_of_one_command, lines_without_order, schedules_have_one_order,
    schedules_of_single_commands, schedules_without_order, scripts_of_single_commands,
    scripts_without_order,
};
