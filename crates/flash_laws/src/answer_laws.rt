//! Laws of refusals and answers: the runs that are fair, and that a stream has one answer if
//! nothing is refused. The functions have no effect; their contracts are the laws.
ghost use Rattle.flash_laws.specs.SiteContents.OneAnswer.{StreamsHaveOneAnswer};
ghost use Rattle.flash_laws.specs.World.Fair.{AnyIsFair, NoneRefusesNothing, OwnIsFair, OwnIsLeast, FailureFreeIsFair};

use flash_http::one_answer;

/// The premise on refusals holds for a run in which no turn got TooMany, NoRoom, Fault or Memory,
/// with no refusal allowed; for any run with these four allowed; and for any run, and its parts,
/// with the refusals allowed that its turns got. These are the least set with which it is fair.
/// With no refusal allowed, nothing is refused (`RefusesNothing`).
pub fn runs_are_fair()
    ensures failure_free { FailureFreeIsFair }
    ensures any { AnyIsFair }
    ensures own { OwnIsFair }
    ensures least { OwnIsLeast }
    ensures none { NoneRefusesNothing }
{}

/// The response by the current files is possible, whatever is refused. If nothing is refused, it
/// is the only one, and a stream has one answer; bytes that begin an answer to it begin that one.
pub fn streams_have_one_answer()
    ensures { StreamsHaveOneAnswer }
{
    one_answer();
}
