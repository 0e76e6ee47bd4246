//! The files below a folder, as a store.
//!
//! [`Index`](index::Index) lists the files below a folder and in its folders, by byte order of their paths, each with a stamp
//! by which a change of it is detected. [`TreeBacking`](backing::TreeBacking) is a store of these files: either of their
//! bytes, which were read into memory ([`read_all`](contents::read_all)), and then it is honest; or of the folder, about
//! whose bytes it promises nothing.
//!
//!     let index = Index::of(&rt, "site")?;
//!     let contents = read_all(&rt, &index)?;
//!     let store = TreeBacking::in_memory(&rt, index, contents)?;
#![tactic(auto)]

pub mod backing;
pub mod contents;
pub mod index;
pub mod stamp;
mod walk;
