//! The meaning of the contracts for the copying machine. The functions do nothing; their contracts
//! are the laws.
ghost use Rattle.iol_sock.specs.Meanings.{ArrivesAsMeant, ClosesAsMeant, FitsAsMeant, IsOverAsMeant, QueuesAsMeant, SendsAsMeant, TakesAsMeant, WantsAsMeant};

/// For every reading of places: the first refusal of a call on a connection, the number of bytes
/// that it takes, and the connection after its peer closes are those of the copying machine. A late
/// refusal is one of the machine's, and a connection is over exactly if the machine's is.
pub fn connections_are_the_machines()
    ensures arrive { ArrivesAsMeant }
    ensures arrive_count { TakesAsMeant }
    ensures arrive_late { WantsAsMeant }
    ensures queue { QueuesAsMeant }
    ensures queue_count { FitsAsMeant }
    ensures segment { SendsAsMeant }
    ensures peer_closed { ClosesAsMeant }
    ensures over { IsOverAsMeant }
{}
