//! The library's C API.
//!
//! C holds a store, which `moc_store_open` creates and `moc_store_close` frees. The store owns coverages, each with an
//! id. A client handle, which `moc_client_open` creates and `moc_client_close` frees, is a thread's client of a shared
//! map. Every other call returns a `CallResult`: the result, or the code of an error and its position.
#![tactic(auto)]

mod arrays;
mod box_parts;
mod call_result;
mod cells;
mod client_handle;
mod client_opening;
mod client_state;
mod codes;
mod commands;
mod conversion;
mod error;
mod lookup;
mod member;
mod opening;
mod queries;
mod range;
mod set_operations;
mod sharing;
mod store;
mod table;
mod texts;
