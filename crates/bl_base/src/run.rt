//! How a run ends.
ghost use Rattle.std.specs.Prelude.{◌≡◌, ◌*◌, length};

use crate::list::List;
use crate::text::Text;
use crate::trap::Trap;

/// A memory's pages and its bytes at a run's end.
#[derive(Debug, Drop)]
pub struct Pages {
    /// The number of pages of 65,536 bytes.
    pub pages: u32,
    /// Exactly the bytes of these pages.
    pub bytes: Text,
    pub ghost exact: { length bytes ≡ pages * 65536 },
}

/// The outcome of a run that was given so many steps.
#[derive(Debug, Drop)]
pub enum Run {
    /// The function returned.
    Returned {
        /// Its results.
        values: List<u64>,
        /// Each memory at the end.
        memories: List<Pages>,
    },
    /// The run trapped.
    Trapped {
        /// Why.
        kind: Trap,
        /// Each memory at the end.
        memories: List<Pages>,
    },
    /// The run had not ended when its steps were spent.
    Spent,
}
