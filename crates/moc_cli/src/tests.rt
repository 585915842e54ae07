//! Command lines, and the calls for an input, over memory and over devices that fail.
mod arguments;
mod combining;
mod failing;
mod inputs;
mod lines;
mod notes;
mod numbers;
mod pictures;
mod program_end;
mod texts;
