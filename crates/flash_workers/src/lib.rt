//! Workers advance.
//!
//! Each step of a worker brings its script nearer to its end, unless its call is refused and is to
//! be retried. The function here has no effect, and its contract is that law.
#![tactic(auto)]

ghost use Rattle.flash_workers.specs.Advance.{WorkersAdvance};

use iol_laws::laws;

/// A rank over the phases of a worker falls with each of its steps until the end of its output.
/// The step stays only if its call was refused, and then nothing changes. So a script ends after
/// finitely many of its worker's calls that are not retried. The rank is a pair of numbers: the
/// lines that are not begun with the stages of the one that is, and the calls of a stage. Events
/// of others do not change it. The law is about single steps of a worker, whether or not the pipe
/// of its output has a reader.
pub fn workers_advance()
    ensures { WorkersAdvance }
{
    laws::each_step_leaves_the_rest();
    laws::calls_serve_their_domain();
}
