//! Parts of a range.

/// The bytes `from..to` of a file.
#[derive(Clone, Copy, Debug, PartialEq, Eq)]
pub struct Span {
    pub from: u32,
    pub to: u32,
}

/// The hits and the gaps of a range, each in order: a hit for each extent that it meets, and the gaps between them.
#[derive(Drop)]
pub struct Found {
    pub hits: Vec<Span>,
    pub gaps: Vec<Span>,
}
