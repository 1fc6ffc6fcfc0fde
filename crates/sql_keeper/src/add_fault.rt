//! Why a book isn't added.

use keepers::StoreFault;
use shelves::ShelfFault;
use tariffs::BookFault;
use thiserror::Error;

/// Why a book isn't added, in the order in which it is looked for (profile).
#[derive(Clone, Copy, Debug, Drop, Error)]
pub enum AddFault {
    /// The text isn't that of a book.
    #[error("book fault {}", .0.number())]
    Book(BookFault),
    /// The book may not follow those of the shelf.
    #[error("shelf fault {}", .0.number())]
    Shelf(ShelfFault),
    /// The store failed, or memory was refused for a call of it.
    #[error("store fault {}", .0.number())]
    Store(StoreFault),
}
