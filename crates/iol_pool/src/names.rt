//! The domains that a pool's list names.
ghost use Rattle.std.specs.Prelude.{◌≡◌, ℕ, ◌+◌, ◌≤◌, ◌==◌, true, List, length, take, min};
ghost use Rattle.std.specs.List.{list_any};
ghost use Rattle.iol_core.specs.Prelude.{distinct, has_place, with_name};
ghost use Rattle.iol_pool.specs.Names.{NotesNames};

use iol_core::limits::MAX_LISTED;
use iol_core::numbers::DomainId;
use std::marker::Model;

/// Domains, each once, in the order in which they were first listed. It takes no memory.
#[derive(Drop)]
pub struct Names {
    list: [DomainId; MAX_LISTED],
    len: usize,
}

impl Model for Names {
    ghost use Rattle.std.specs.Prelude.{ℕ, ◌≤◌, List, take};
    ghost use Rattle.iol_core.specs.declared.limits.TheConstants.{MAX_LISTED};

    ghost Value = { List ℕ };

    ghost view = { λ n. take n.len n.list };

    ghost invariant = { λ n. n.len ≤ MAX_LISTED };
}

// Whether a list has the domain.
fn is_named(list: &[DomainId], d: DomainId) -> bool
    ensures { result ≡ list_any (λ e. e == d) list.now }
{
    list.iter().any(|e| *e == d)
}

// Writes each domain of a list once, and returns their number. If they are more than the room, the number is one more than
// the room.
fn note_distinct(found: &mut [DomainId; MAX_LISTED], list: &[DomainId]) -> usize
    ensures count { result ≡ min (MAX_LISTED + 1) (length (distinct list.now)) }
    ensures found { result ≤ MAX_LISTED → take result found.new ≡ distinct list.now }
{
    let mut count = 0;
    for d in list {
        if is_named(&found[..count], *d) {
            continue;
        }
        if count == MAX_LISTED {
            return MAX_LISTED + 1;
        }
        found[count] = *d;
        count += 1;
    }
    count
}

impl Names {
    /// The domains of a list, each once. `None` exactly if they are more than sixteen.
    pub fn of(list: &[DomainId]) -> Option<Names>
        ensures { NotesNames list.now result }
    {
        let mut found = [DomainId::new(0); MAX_LISTED];
        let len = note_distinct(&mut found, list);
        if len > MAX_LISTED {
            return None;
        }
        Some(Names { list: found, len })
    }

    /// The domains, each once.
    pub fn as_slice(&self) -> &[DomainId]
        ensures { result.now ≡ self.now }
    {
        &self.list[..self.len]
    }

    /// Whether the domain is one of them.
    pub fn has(&self, d: DomainId) -> bool
        ensures { result ≡ list_any (λ e. e == d) self.now }
    {
        is_named(self.as_slice(), d)
    }

    /// Whether the domain is one of them, or there is a place for it.
    pub fn has_place(&self, d: DomainId) -> bool
        ensures { result ≡ has_place self.now d }
    {
        self.has(d) || self.as_slice().len() < MAX_LISTED
    }

    /// Adds the domain at the end, unless it is listed. It takes no memory.
    pub fn add(&mut self, d: DomainId)
        requires { has_place self.old d ≡ true }
        ensures { self.new ≡ with_name self.old d }
    {
        if self.has(d) {
            return;
        }
        self.list[self.len] = d;
        self.len += 1;
    }
}
