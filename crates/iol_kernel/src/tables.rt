//! Effects on the table of domains, whose aggregates are slices of a store. Memory is reserved
//! first, so that a refusal changes nothing.
ghost use Rattle.std.specs.Prelude.{◌≡◌, []};
ghost use Rattle.std.specs.List.{list_all};
ghost use Rattle.iol_hold.specs.Prelude.{Covers};
ghost use Rattle.iol_desc.specs.Prelude.{domains_of, domain_in};
ghost use Rattle.iol_kernel.specs.HoldCounts.{bufs_in};
ghost use Rattle.iol_kernel.specs.Denials.{pool_hidden};
ghost use Rattle.iol_kernel.specs.AggregateCalls.{GivesNext, JoinsNext, MayGiveIn, MayJoinIn, MaySplitIn, ReleasesAll, SplitsNext};

use iol_agg::Agg;
use iol_core::numbers::{AggId, DomainId, PoolId};
use iol_desc::entries::Taken;
use iol_desc::table::Table;
use iol_hold::{Slice, Store};
use iol_pool::pools::Pools;
use std::alloc::{AllocError, Global};

/// Whether each domain of a list is live.
pub(crate) fn are_live(domains: &Table<Agg>, list: &[DomainId]) -> bool
    ensures { result ≡ list_all (λ d. (domain_in (domains_of domains.now) d).live) list.now }
{
    list.iter().all(|d| domains.live(*d))
}

/// Splits a domain's aggregate into its next two.
#[tactic(auto, using(crate::proofs::AggregateCalls::Exchanges::table_rules))]
pub(crate) fn split_agg(
    alloc: Global,
    store: &mut Store,
    domains: &mut Table<Agg>,
    d: DomainId,
    agg: AggId,
    at: u32,
) -> Result<(AggId, AggId), AllocError>
    requires { MaySplitIn store.old (domains_of domains.old) d agg at }
    ensures { SplitsNext store.old store.new domains.old domains.new d agg at result }
{
    domains.reserve_aggs(d, 2)?;
    let whole = domains.swap_agg(d, agg, Agg::new(alloc));
    match whole.split(store, at) {
        Ok((front, back)) => {
            domains.take_agg(d, agg);
            let first = domains.add_agg(d, front);
            let second = domains.add_agg(d, back);
            Ok((first, second))
        }
        Err(error) => {
            domains.swap_agg(d, agg, error.value);
            Err(AllocError)
        }
    }
}

/// Joins two aggregates of a domain to its next one.
#[tactic(auto, using(crate::proofs::AggregateCalls::Exchanges::table_rules))]
pub(crate) fn join_aggs(
    alloc: Global,
    domains: &mut Table<Agg>,
    d: DomainId,
    first: AggId,
    second: AggId,
) -> Result<AggId, AllocError>
    requires { MayJoinIn (domains_of domains.old) d first second }
    ensures { JoinsNext (domains_of domains.old) (domains_of domains.new) d first second result }
{
    domains.reserve_aggs(d, 1)?;
    let front = domains.swap_agg(d, first, Agg::new(alloc));
    let back = domains.swap_agg(d, second, Agg::new(alloc));
    match front.join(back) {
        Ok(whole) => {
            domains.take_agg(d, first);
            domains.take_agg(d, second);
            Ok(domains.add_agg(d, whole))
        }
        Err(error) => {
            let (front, back) = error.value;
            domains.swap_agg(d, second, back);
            domains.swap_agg(d, first, front);
            Err(AllocError)
        }
    }
}

/// The pool of the first slice that the domain may not read.
pub(crate) fn first_hidden(slices: &[Slice], pools: &Pools, d: DomainId) -> Option<PoolId>
    ensures { result ≡ pool_hidden pools.now d slices.now }
{
    let hidden = slices
        .iter()
        .find(|slice| !pools.names(slice.hold.pool(), d))?;
    Some(hidden.hold.pool())
}

/// Takes an aggregate from one domain, and adds it to another as its next one.
pub(crate) fn move_agg(
    domains: &mut Table<Agg>,
    from: DomainId,
    agg: AggId,
    to: DomainId,
) -> Result<AggId, AllocError>
    requires { MayGiveIn (domains_of domains.old) from agg to }
    ensures { GivesNext (domains_of domains.old) (domains_of domains.new) from agg to result }
{
    domains.reserve_aggs(to, 1)?;
    let given = domains.take_agg(from, agg);
    Ok(domains.add_agg(to, given))
}

/// Releases all references that aggregates hold.
#[tactic(auto, using(crate::proofs::Queues::ClosedEnds::same_rules))]
pub(crate) fn release_all(store: &mut Store, aggs: Taken<Agg>)
    requires { Covers store.old (bufs_in aggs) }
    ensures { ReleasesAll store.old store.new aggs [] }
{
    let mut left = aggs;
    while let Some((_, agg)) = left.pop() {
        agg.release(store);
    }
}
