//! What has a name.
ghost use Rattle.std.specs.Prelude.{◌≡◌, ℕ};

use crate::record::{Message, Task};

/// What has a name, as tasks and messages have. It need not be a kind of record: nothing is asked of its bytes.
pub trait Named {
    ghost label: { Self → ℕ };

    /// The name, by which a table orders and finds it.
    fn name(&self) -> u16
        ensures { result ≡ label self.now };
}

impl Named for Task {
    ghost label = { λ t. t.name };

    fn name(&self) -> u16 {
        self.name
    }
}

impl Named for Message {
    ghost label = { λ m. m.name };

    fn name(&self) -> u16 {
        self.name
    }
}
