//! The names of calls, by the kind of their arguments.
ghost use Rattle.std.specs.Prelude.{◌≡◌};
ghost use Rattle.iolite.specs.Calls.{named, of_aggregate, of_number, of_pair, of_part};

use iol_core::events::Call;
use iol_core::numbers::{AggId, DomainId, Fd, PoolId};

/// The name of a call with arguments.
#[derive(Clone, Copy, Debug, PartialEq, Eq)]
pub enum CallName {
    Number(NumberCall),
    Aggregate(AggregateCall),
    Pair(PairCall),
    Part(PartCall),
    AggJoin,
    IolWrite,
    AggCut,
    AggReplace,
    PoolCreate,
    AggMake,
    AggFill,
    Write,
    FileNew,
    OpenFile,
}

/// A call with one number: of a pool or a descriptor.
#[derive(Clone, Copy, Debug, PartialEq, Eq)]
pub enum NumberCall {
    PoolClose,
    SetPool,
    Close,
    Length,
    Fsync,
}

/// A call on one aggregate.
#[derive(Clone, Copy, Debug, PartialEq, Eq)]
pub enum AggregateCall {
    AggDup,
    AggDrop,
    Show,
}

/// A call with two numbers, the first that of a pool or a descriptor.
#[derive(Clone, Copy, Debug, PartialEq, Eq)]
pub enum PairCall {
    PoolAdmit,
    GiveFd,
    Seek,
    IolRead,
    Read,
}

/// A call on an aggregate, with one more number.
#[derive(Clone, Copy, Debug, PartialEq, Eq)]
pub enum PartCall {
    AggSplit,
    AggGive,
}

/// The call name of a word, if it is one.
pub fn find_name(word: &str) -> Option<CallName>
    ensures { result ≡ named word.now }
{
    let name = match word {
        "pool_close" => CallName::Number(NumberCall::PoolClose),
        "set_pool" => CallName::Number(NumberCall::SetPool),
        "close" => CallName::Number(NumberCall::Close),
        "length" => CallName::Number(NumberCall::Length),
        "fsync" => CallName::Number(NumberCall::Fsync),
        "agg_dup" => CallName::Aggregate(AggregateCall::AggDup),
        "agg_drop" => CallName::Aggregate(AggregateCall::AggDrop),
        "show" => CallName::Aggregate(AggregateCall::Show),
        "pool_admit" => CallName::Pair(PairCall::PoolAdmit),
        "give_fd" => CallName::Pair(PairCall::GiveFd),
        "seek" => CallName::Pair(PairCall::Seek),
        "iol_read" => CallName::Pair(PairCall::IolRead),
        "read" => CallName::Pair(PairCall::Read),
        "agg_split" => CallName::Part(PartCall::AggSplit),
        "agg_give" => CallName::Part(PartCall::AggGive),
        "agg_join" => CallName::AggJoin,
        "iol_write" => CallName::IolWrite,
        "agg_cut" => CallName::AggCut,
        "agg_replace" => CallName::AggReplace,
        "pool_create" => CallName::PoolCreate,
        "agg_make" => CallName::AggMake,
        "agg_fill" => CallName::AggFill,
        "write" => CallName::Write,
        "file_new" => CallName::FileNew,
        "open_file" => CallName::OpenFile,
        _ => return None,
    };
    Some(name)
}

impl NumberCall {
    /// The call with this number.
    pub fn with(self, number: u32) -> Call
        ensures { result ≡ of_number self number }
    {
        match self {
            NumberCall::PoolClose => Call::PoolClose {
                pool: PoolId::new(number),
            },
            NumberCall::SetPool => Call::SetPool {
                pool: PoolId::new(number),
            },
            NumberCall::Close => Call::Close {
                fd: Fd::new(number),
            },
            NumberCall::Length => Call::Length {
                fd: Fd::new(number),
            },
            NumberCall::Fsync => Call::Fsync {
                fd: Fd::new(number),
            },
        }
    }
}

impl AggregateCall {
    /// The call on the aggregate of this number.
    pub fn on(self, number: u64) -> Call
        ensures { result ≡ of_aggregate self number }
    {
        let agg = AggId::new(number);
        match self {
            AggregateCall::AggDup => Call::AggDup { agg },
            AggregateCall::AggDrop => Call::AggDrop { agg },
            AggregateCall::Show => Call::Show { agg },
        }
    }
}

impl PairCall {
    /// The call with these two numbers.
    pub fn with(self, first: u32, second: u32) -> Call
        ensures { result ≡ of_pair self first second }
    {
        match self {
            PairCall::PoolAdmit => Call::PoolAdmit {
                pool: PoolId::new(first),
                domain: DomainId::new(second),
            },
            PairCall::GiveFd => Call::GiveFd {
                fd: Fd::new(first),
                to: DomainId::new(second),
            },
            PairCall::Seek => Call::Seek {
                fd: Fd::new(first),
                at: second,
            },
            PairCall::IolRead => Call::IolRead {
                fd: Fd::new(first),
                count: second,
            },
            PairCall::Read => Call::Read {
                fd: Fd::new(first),
                count: second,
            },
        }
    }
}

impl PartCall {
    /// The call on the aggregate of the first number, with the second.
    pub fn on(self, number: u64, second: u32) -> Call
        ensures { result ≡ of_part self number second }
    {
        let agg = AggId::new(number);
        match self {
            PartCall::AggSplit => Call::AggSplit { agg, at: second },
            PartCall::AggGive => Call::AggGive {
                agg,
                to: DomainId::new(second),
            },
        }
    }
}
