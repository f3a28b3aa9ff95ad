//! What `vcdedit-compare` does for the words of its command line, up to its exit status.
//!
//! [`VcdeditCompare`] opens two captures and has them compared, and standard output gets the report
//! as lines of text or as JSON: one line for each thing that differs.
#![tactic(auto)]

mod capture_facts;
mod command_line;
mod compare_fault;
mod comparison_text;
mod error_report;
mod json_text;
mod program;
mod report_line;
mod reporting;
mod request_words;
mod text_parts;
mod variable_facts;

pub use program::VcdeditCompare;
