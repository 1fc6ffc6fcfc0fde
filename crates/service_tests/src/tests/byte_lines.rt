//! Lines of a reader, and texts that are written whole.

use std::alloc::Global;
use std::process::Abort;
use texts::{next_line, write_whole};

/// Writes the next line, or a dot where none is left, and a bar.
fn copy_line(rt: &impl Abort, alloc: Global, reader: &mut &[u8], written: &mut Vec<u8>) {
    match next_line(alloc, reader).expect(rt, "a line") {
        Some(line) => write_whole(written, &line).expect(rt, "memory"),
        None => write_whole(written, b".").expect(rt, "memory"),
    }
    write_whole(written, b"|").expect(rt, "memory");
}

// rule: lines
#[test]
fn lines_and_texts(rt: HostRuntime) {
    let alloc = rt.alloc();
    let mut reader = b"one\n\nlast".as_slice();
    let mut written = Vec::new(alloc);
    for _ in 0..4 {
        copy_line(&rt, alloc, &mut reader, &mut written);
    }
    assert_eq!(rt; written.as_slice(), b"one||last|.|".as_slice());
}
