//! Bytes that were taken and are no longer retained. They exist only in proofs.

ghost use Rattle.std.specs.Prelude.{◌≡◌, ℕ, List, [], ◌++◌};
ghost use Rattle.std.specs.Borrow.{ftrue};

use std::marker::Model;

/// The bytes that were released. It takes no memory.
#[derive(Drop)]
pub struct Released {
    /// The bytes, in order.
    pub ghost text: { List ℕ },
}

impl Model for Released {
    ghost also_owns = { λ _. ftrue };
}

impl Released {
    /// None.
    pub fn none() -> Released
        ensures { result.text ≡ [] }
    {
        Released {}
    }

    /// These, and more after them.
    pub fn and(&self, _more: &[u8]) -> Released
        ensures { result.text ≡ self.now.text ++ _more.now }
    {
        Released {}
    }
}
