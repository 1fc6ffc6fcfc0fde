//! Tests of texts in and out.

mod answers;
mod contents;
mod faults;
mod files;
mod lines;
mod members;
mod readers;
mod requests;
mod tables;
mod words;
