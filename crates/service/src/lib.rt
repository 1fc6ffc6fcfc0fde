//! What the program's words do over the database of a file. It is made, brought to the latest
//! version or opened by its path. A tariff book or a file of vouchers is added, an operator's
//! command is carried out, and an account's month is printed. Connections of HTTP/1.1 on a port of
//! 127.0.0.1 are served.
#![tactic(auto)]

mod adding;
mod civil_clock;
mod clock;
mod commanding;
mod database_files;
mod fault;
mod file_header;
mod files;
mod first_page;
mod importing;
mod laws;
mod listening;
mod making;
mod migrating;
mod office_clock;
mod opening;
mod serving;
mod stating;
mod telling;
mod unruled;

pub use crate::adding::{add_book, add_over, add_text};
pub use crate::civil_clock::{clock_office, clock_over};
pub use crate::clock::{command_moment, machine_moment};
pub use crate::commanding::{command_office, command_over};
pub use crate::database_files::{ConnectFault, DatabaseFiles, open_database};
pub use crate::fault::DatabaseFault;
pub use crate::files::open_file;
pub use crate::importing::{ImportFault, import_file, import_office, import_over};
pub use crate::laws::the_next_process_finds_what_a_stop_left;
pub use crate::listening::{serve_database, serve_over};
pub use crate::making::{book_text, make_database, make_over, make_tables};
pub use crate::migrating::{migrate_database, migrate_over, migrate_tables};
pub use crate::office_clock::OfficeClock;
pub use crate::opening::{Office, open_office, open_tables};
pub use crate::serving::{Connections, serve_connections};
pub use crate::stating::{state_office, state_over};
