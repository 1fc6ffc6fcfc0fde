//! The tables, empty, in memory.

ghost use Rattle.database_tests.specs.Ready.{IsReady};
ghost use Rattle.sqlite.specs.Held.{state};
ghost use Rattle.sqlite.specs.Steps.{over_memory};

use sql_tables::create_in_memory;
use sqlite::{Connection, MemStore};
use std::alloc::Global;
use std::process::Abort;

pub(crate) fn new_tables(rt: &impl Abort, alloc: Global) -> Connection<MemStore>
    ensures ready { IsReady (state over_memory result) }
{
    create_in_memory(alloc).expect(rt, "tables")
}
