//! Tests of `rating`, `buckets` and `reserving`.

mod allowances;
mod calls;
mod later_books;
mod prices;
mod purses;
mod restoring;
mod rows;
mod scenarios;
mod sessions;
