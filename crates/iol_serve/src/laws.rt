//! A law of served connections. The function has no effect; its contract is the law.
ghost use Rattle.iol_serve.specs.Laws.{OverIsWhole};

use iol_proc::laws::histories_of_choices;
use iol_proc::process::Process;

/// If a connection is over and its peer was never reported as gone, all bytes written on it were
/// sent, in order.
pub fn over_is_whole<P: Process>()
    ensures { OverIsWhole P.turns }
{
    histories_of_choices::<P>();
}
