use book::{BuiltBook, OpenBook};

/// The book of a run, open or built.
#[derive(Drop)]
pub enum HeldBook {
    Open(OpenBook),
    Built(BuiltBook),
}
