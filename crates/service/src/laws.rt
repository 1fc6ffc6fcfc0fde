//! What is proved of definitions alone: from one process to the next.

ghost use Rattle.service.specs.NextRun.{IsFoundByNext};

use sqlite_disk::Disk;

/// What a stop of a process leaves in the files of a keeper is what the next process finds there,
/// whole, under the same text and the same books; and it is refused for no row.
// rule: stop, stop-process
pub fn the_next_process_finds_what_a_stop_left<D: Disk, E: Disk>()
    ensures { IsFoundByNext D.Disk E.Disk }
{}
