//! Typed calls and outside events: one method for each, with a result of the call's or event's own
//! type.
//!
//! [`Domain`](domain::Domain) borrows a system and makes the calls of one of its domains. A method
//! returns the value in the call's reply, or its refusal; `docs/RULES.md` lists the refusals of
//! each call. Each contract is that of [`System::step`](iol_system::system::System::step), with
//! the reply as a typed result.
//!
//! [`Outside`](outside::Outside) has the events outside a world: a peer connects, bytes arrive, a
//! peer closes. Each contract is that of
//! [`World::step_outside`](iol_proc::world::World::step_outside).
//!
//!     let store = MemoryBacking::new(Slots::new(alloc));
//!     let mut system = System::new(alloc, Config::DEFAULT, store)?;
//!     let (one, two) = (DomainId::new(1), DomainId::new(2));
//!     let mut first = Domain::new(alloc, &mut system, one);
//!     first.domain_new()?;
//!     let pool = first.pool_create(1, &[one, two])?;
//!     first.set_pool(pool)?;
//!     let hello = first.agg_make(b"hello")?;
//!     let given = first.agg_give(hello, two)?;
//!     let bytes = Domain::new(alloc, &mut system, two).show(given)?;
#![tactic(auto)]

pub mod domain;
pub mod outside;
mod replies;
