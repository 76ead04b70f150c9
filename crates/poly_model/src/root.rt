//! The cobasis under which a search runs.
ghost use Rattle.std.specs.Prelude.{◌≡◌};

use crate::Key;

/// The root of a search: its key. Rows outside the root come before those of the root in every order
/// that is relative to it.
#[derive(Clone, Copy, PartialEq, Eq, Debug)]
pub struct Root {
    key: Key,
}

impl Root {
    /// The root of this key.
    pub fn new(key: Key) -> Root
        ensures { result.key ≡ key }
    {
        Root { key }
    }

    /// The labels of the root.
    pub fn key(&self) -> Key
        ensures { result ≡ self.now.key }
    {
        self.key
    }
}
