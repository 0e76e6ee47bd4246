//! How a server passes on the bytes of its files.

#[derive(Clone, Copy, Drop)]
pub enum Passing {
    /// By reference.
    Shared,
    Copied,
}

impl Passing {
    /// The one that a word names.
    pub fn of_word(word: &str) -> Option<Passing> {
        match word {
            "shared" => Some(Passing::Shared),
            "copied" => Some(Passing::Copied),
            _ => None,
        }
    }
}
