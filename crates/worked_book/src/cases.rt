//! Tables of cases: a case is a line of a constant text.

use std::alloc::Global;
use std::test::Fail;

/// The text on fewer lines: one that begins with two spaces goes on with the one before it.
///
/// # Errors
/// The test fails: out of memory.
pub fn joined(alloc: Global, text: &str) -> Result<String, Fail> {
    Ok(text.replace(alloc, "\n  ", "")?)
}

/// The document with the changes of a case, joined by `&`, each `OLD -> NEW`.
///
/// # Errors
/// The test fails: a change's old text isn't there, or it is no change; out of memory.
pub fn changed(alloc: Global, document: &str, changes: &str) -> Result<String, Fail> {
    let mut text = joined(alloc, document)?;
    for change in changes.split(" & ") {
        let (old, new) = change.split_once(" -> ").ok_or("a change")?;
        if !text.as_str().contains(old) {
            return Err(Fail::new(change));
        }
        text = text.as_str().replace(alloc, old, new)?;
    }
    Ok(text)
}
