//! The calls in the lines of a script.
ghost use Rattle.std.specs.Prelude.{◌≡◌, IfOk};
ghost use Rattle.iolite.specs.declared.names.CallName.TheVariants as name;
ghost use Rattle.iolite.specs.Calls.{CanBeMade, IsBare, IsCall, IsCalled, IsNamed, call_of};
ghost use Rattle.iolite.specs.Reads.{Reads, ReadsAs};

use crate::names::{CallName, find_name};
use crate::words::{
    are_domains, can_repeat, decode_text, list_domains, parse_mode, parse_u32, parse_u64,
    repeat_text, split_word,
};
use iol_core::descriptors::Mode;
use iol_core::events::Call;
use iol_core::numbers::{AggId, Fd, PoolId};
use std::alloc::{AllocError, Global};

/// A call as parsed from a line, with its texts still encoded.
#[derive(Drop)]
pub enum CallLine<'a> {
    /// A call without a text.
    Whole(Call),
    PoolCreate { chunks: u32, domains: &'a str },
    AggMake { text: &'a str },
    AggFill { count: u32, text: &'a str },
    Write { fd: Fd, text: &'a str },
    FileNew { file: &'a str, pool: PoolId },
    OpenFile { file: &'a str, mode: Mode },
}

/// Parses a call: its name and, after one space, its arguments. Allocates nothing.
pub fn read_call(text: &str) -> Option<CallLine<'_>>
    ensures { ReadsAs (IsCall text.now) call_of CanBeMade result }
{
    match read_bare(text) {
        Some(call) => Some(CallLine::Whole(call)),
        None => read_named(text),
    }
}

/// Parses a call without arguments.
fn read_bare(text: &str) -> Option<Call>
    ensures { Reads (IsBare text.now) result }
{
    match text {
        "domain_new" => Some(Call::DomainNew),
        "exit" => Some(Call::Exit),
        "pipe" => Some(Call::Pipe),
        "accept" => Some(Call::Accept),
        _ => None,
    }
}

/// Parses a name and the arguments after it.
fn read_named(text: &str) -> Option<CallLine<'_>>
    ensures { ReadsAs (IsNamed text.now) call_of CanBeMade result }
{
    let (word, rest) = split_word(text);
    match find_name(word) {
        Some(name) => read_called(name, rest),
        None => None,
    }
}

/// Parses the arguments of a call.
fn read_called(name: CallName, rest: &str) -> Option<CallLine<'_>>
    ensures { ReadsAs (IsCalled name rest.now) call_of CanBeMade result }
{
    let call = match name {
        CallName::Number(call) => call.with(parse_u32(rest)?),
        CallName::Aggregate(call) => call.on(parse_u64(rest)?),
        CallName::Pair(call) => {
            let (first, second) = split_word(rest);
            call.with(parse_u32(first)?, parse_u32(second)?)
        }
        CallName::Part(call) => {
            let (agg, second) = split_word(rest);
            call.on(parse_u64(agg)?, parse_u32(second)?)
        }
        CallName::AggJoin => read_join(rest)?,
        CallName::IolWrite => read_iol_write(rest)?,
        CallName::AggCut => read_cut(rest)?,
        CallName::AggReplace => read_replace(rest)?,
        CallName::PoolCreate => return read_pool_create(rest),
        CallName::AggMake => return Some(CallLine::AggMake { text: rest }),
        CallName::AggFill => return read_fill(rest),
        CallName::Write => return read_write(rest),
        CallName::FileNew => return read_file_new(rest),
        CallName::OpenFile => return read_open_file(rest),
    };
    Some(CallLine::Whole(call))
}

fn read_join(rest: &str) -> Option<Call>
    ensures { Reads (IsCalled name.AggJoin rest.now) result }
{
    let (first, second) = split_word(rest);
    let first = AggId::new(parse_u64(first)?);
    let second = AggId::new(parse_u64(second)?);
    Some(Call::AggJoin { first, second })
}

fn read_iol_write(rest: &str) -> Option<Call>
    ensures { Reads (IsCalled name.IolWrite rest.now) result }
{
    let (fd, agg) = split_word(rest);
    let fd = Fd::new(parse_u32(fd)?);
    let agg = AggId::new(parse_u64(agg)?);
    Some(Call::IolWrite { fd, agg })
}

fn read_cut(rest: &str) -> Option<Call>
    ensures { Reads (IsCalled name.AggCut rest.now) result }
{
    let (agg, range) = split_word(rest);
    let (from, to) = split_word(range);
    let agg = AggId::new(parse_u64(agg)?);
    let from = parse_u32(from)?;
    let to = parse_u32(to)?;
    Some(Call::AggCut { agg, from, to })
}

fn read_replace(rest: &str) -> Option<Call>
    ensures { Reads (IsCalled name.AggReplace rest.now) result }
{
    let (agg, range) = split_word(rest);
    let (from, last) = split_word(range);
    let (to, with) = split_word(last);
    let agg = AggId::new(parse_u64(agg)?);
    let from = parse_u32(from)?;
    let to = parse_u32(to)?;
    let with = AggId::new(parse_u64(with)?);
    Some(Call::AggReplace {
        agg,
        from,
        to,
        with,
    })
}

fn read_pool_create(rest: &str) -> Option<CallLine<'_>>
    ensures { ReadsAs (IsCalled name.PoolCreate rest.now) call_of CanBeMade result }
{
    let (chunks, domains) = split_word(rest);
    let chunks = parse_u32(chunks)?;
    if are_domains(domains) {
        Some(CallLine::PoolCreate { chunks, domains })
    } else {
        None
    }
}

fn read_fill(rest: &str) -> Option<CallLine<'_>>
    ensures { ReadsAs (IsCalled name.AggFill rest.now) call_of CanBeMade result }
{
    let (count, text) = split_word(rest);
    let count = parse_u32(count)?;
    if can_repeat(count, text) {
        Some(CallLine::AggFill { count, text })
    } else {
        None
    }
}

fn read_write(rest: &str) -> Option<CallLine<'_>>
    ensures { ReadsAs (IsCalled name.Write rest.now) call_of CanBeMade result }
{
    let (fd, text) = split_word(rest);
    let fd = Fd::new(parse_u32(fd)?);
    Some(CallLine::Write { fd, text })
}

fn read_file_new(rest: &str) -> Option<CallLine<'_>>
    ensures { ReadsAs (IsCalled name.FileNew rest.now) call_of CanBeMade result }
{
    let (file, pool) = split_word(rest);
    let pool = PoolId::new(parse_u32(pool)?);
    Some(CallLine::FileNew { file, pool })
}

fn read_open_file(rest: &str) -> Option<CallLine<'_>>
    ensures { ReadsAs (IsCalled name.OpenFile rest.now) call_of CanBeMade result }
{
    let (file, mode) = split_word(rest);
    let mode = parse_mode(mode)?;
    Some(CallLine::OpenFile { file, mode })
}

impl CallLine<'_> {
    /// Makes the call, with its texts decoded.
    pub fn make(self, alloc: Global) -> Result<Call, AllocError>
        requires { CanBeMade self }
        ensures { IfOk result (λ call. call ≡ call_of self.entry) }
    {
        match self {
            CallLine::Whole(call) => Ok(call),
            CallLine::PoolCreate { chunks, domains } => {
                let domains = list_domains(alloc, domains)?;
                Ok(Call::PoolCreate { chunks, domains })
            }
            CallLine::AggMake { text } => {
                let bytes = decode_text(alloc, text)?;
                Ok(Call::AggMake { bytes })
            }
            CallLine::AggFill { count, text } => {
                let bytes = repeat_text(alloc, count, text)?;
                Ok(Call::AggMake { bytes })
            }
            CallLine::Write { fd, text } => {
                let bytes = decode_text(alloc, text)?;
                Ok(Call::Write { fd, bytes })
            }
            CallLine::FileNew { file, pool } => {
                let name = decode_text(alloc, file)?;
                Ok(Call::FileNew { name, pool })
            }
            CallLine::OpenFile { file, mode } => {
                let name = decode_text(alloc, file)?;
                Ok(Call::OpenFile { name, mode })
            }
        }
    }
}
