//! The path of a file.

ghost use Rattle.std.specs.Prelude.{◌≡◌, IfOk, Some, None, IsTrue, if◌then◌else◌};
ghost use Rattle.operator.specs.Paths.{is_file_path};

use std::alloc::{AllocError, Global};
use std::marker::Model;

/// The path of a file: 1 byte or more (profile).
///
/// Contracts see the list of its bytes.
#[derive(Drop)]
pub struct FilePath {
    text: String,
}

impl Model for FilePath {
    ghost use Rattle.std.specs.Prelude.{List, ℕ, string_bytes, IsTrue};
    ghost use Rattle.operator.specs.Paths.{is_file_path};

    ghost Value = { List ℕ };

    ghost view = { λ s. string_bytes s.text };

    ghost invariant = { λ s. IsTrue (is_file_path (string_bytes s.text)) };
}

impl FilePath {
    /// The path that the text is; None where it is empty.
    ///
    /// # Errors
    /// Out of memory.
    pub fn new(alloc: Global, text: &str) -> Result<Option<FilePath>, AllocError>
        ensures { IfOk result (λ o. o ≡ if is_file_path text.now then Some text.now else None) }
    {
        if 1 <= text.len() {
            let text = String::from_str(alloc, text)?;
            Ok(Some(FilePath { text }))
        } else {
            Ok(None)
        }
    }

    /// The path as a text, which isn't empty.
    pub fn as_str(&self) -> &str
        ensures value { result.now ≡ self.now }
        ensures rule { IsTrue (is_file_path self.now) }
    {
        self.text.as_str()
    }
}
