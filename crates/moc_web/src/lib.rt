//! The calls of a page in a browser, as a module of WebAssembly: operations on texts of coverages.
//!
//! Each exported function, a job, takes a text and a buffer. It writes its output to the front of the buffer, and
//! returns a `JobResult`: a status, and the length of the output. If the text is invalid, the output is the report of
//! the first error. If the buffer is too short, it is unchanged, and the length is the one that the call needs.
//!
//! Formats, operations, changes and orders are numbers. An invalid number gets the status `BAD_NUMBER`.
#![tactic(auto)]

mod choices;
mod examining;
mod job_result;
mod jobs;
mod measuring;
mod scripts;
mod text_sink;
mod text_source;
