//! Laws of a script's run, and of a client with requests of scripts. The functions have no effect;
//! their contracts are the laws.
ghost use Rattle.flash_laws.specs.Client.Holdings.{ClientsLeaveNothing};
ghost use Rattle.flash_laws.specs.Client.OfferedBytes.{ClientsAreOfferedTheResponse};
ghost use Rattle.flash_laws.specs.Run.Holdings.{RunsKeepNothing};
ghost use Rattle.flash_laws.specs.Run.OfferedBytes.{RunsOfferTheResponse};

use iol_laws::laws;

/// The bytes that the server offers for a script are the next bytes of the response, for every
/// further output; once the end of the output was read, of the response to that output. The law is
/// about single steps of a run, undisturbed or not, during which no call consumes or moves an
/// object that the run uses: it holds when a run begins, and after the reply to its own call the
/// machine has the data for the next step. The bytes that the connection took count as taken, until
/// the response is aborted, which happens only if the peer is gone or the server may not read the
/// output. A script is given up before it runs only if its worker's domain has ended or its job
/// pipe has no reader. The worker gets the pipe that the server reads, and then the job that names
/// it. No output is read while the bytes of a whole chunk are buffered. Each reply reduces the
/// rank, unless more output was read, or the call is retried later.
pub fn runs_law()
    ensures { RunsOfferTheResponse }
{
    laws::each_step_leaves_the_rest();
    laws::calls_serve_their_domain();
    laws::refusals_tell_why();
    laws::refusals_that_are_left();
}

/// A run keeps only what it uses: the result of a call belongs to the run for which it was made,
/// and aggregates and pipe ends that the run no longer uses are dropped or closed. Its calls
/// consume and move only its own objects, and touch only its own connection and pipe. The law is
/// about each call of the server, undisturbed or not, and not about objects that other domains give
/// to the server.
pub fn run_keeping_law()
    ensures { RunsKeepNothing }
{
    laws::aggregates_come_and_go();
    laws::calls_serve_their_domain();
}

/// The bytes that the server offers a client for a request, of a file or of a script, are the next
/// bytes of the response: for a file there is one response, for a script it depends on the further
/// output. The law is about each call for the client, undisturbed or not, during which no call
/// consumes or moves what it uses. The file's name is opened first; a script is read whole and runs
/// with its own text and the query of its request; HEAD runs none. The bytes that its connection
/// took count as taken. While a script runs the client behaves as its run. Replies leave the
/// request unchanged, and the buffered stream except that bytes read are appended. Each reply
/// reduces the rank of a request, unless more of the output was read, or its call is retried later.
pub fn clients_law()
    ensures { ClientsAreOfferedTheResponse }
{
    laws::each_step_leaves_the_rest();
    laws::calls_serve_their_domain();
    laws::file_calls_serve_their_domain();
    laws::refusals_that_are_left();
}

/// The server keeps nothing of a finished response, of a file or of a script: the result of a call
/// belongs to the client for which it was made, and aggregates, file descriptors and pipe ends that
/// the client no longer uses are dropped or closed. Only a client that will run a script holds its
/// text. The law is about each call of the server, undisturbed or not, and not about objects that
/// other domains give to the server.
pub fn client_keeping_law()
    ensures { ClientsLeaveNothing }
{
    laws::aggregates_come_and_go();
    laws::calls_serve_their_domain();
    laws::file_calls_serve_their_domain();
}
