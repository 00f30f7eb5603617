//! Seals the methods of `Part` that only the parts of this library may define, so that `to_str` can rely on them.

/// An argument of the sealed methods of `Part`. No other crate can name this type, so no other crate can define or call
/// a method that takes it.
#[doc(hidden)]
#[derive(Clone, Copy, Debug, Drop)]
pub struct Sealed;
