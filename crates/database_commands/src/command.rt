//! What a command to a database is, whatever the database's store.
ghost use Rattle.std.specs.Prelude.{Result, IfErr, IfOk, ⊤};
ghost use Rattle.sqlite.specs.Held.{state};
ghost use Rattle.sqlite.specs.State.{State, HasCleanDisk};
ghost use Rattle.databases.specs.Held.{IsUntold};
ghost use Rattle.databases.specs.declared.fault.CommandFault.{CommandFault};

use databases::CommandFault;
use sqlite::{Alter, Connection};
use std::alloc::Global;

/// A command that came to its end: the connection, and what came of it or why nothing did.
#[derive(Drop)]
pub struct CommandEnd<S: Alter + Drop, A: Drop> {
    pub conn: Connection<S>,
    pub outcome: Result<A, CommandFault>,
}

/// A command with all that it is given. What is generic over it meets a database's own store in one
/// place, for all commands: each such place is dear to prove.
pub trait Command {
    /// What comes of it where it isn't refused.
    type Answer: Drop;

    // What the caller has to see to.
    ghost may_come: { Self → Type 0 } = { λ _. ⊤ };

    // What it does to a database, from the state before it to the one behind it.
    ghost does: { Self → Result Self.Answer CommandFault → State → State → Type 0 };

    // Of which form an answer is, whatever the disk does.
    ghost says: { Self → Self.Answer → Type 0 };

    // For what it is refused, whatever the disk does.
    ghost fails: { Self → CommandFault → Type 0 } = { λ _. IsUntold };

    /// Carries a command over a database out over an open connection.
    fn perform<S: Alter + Drop>(
        self,
        alloc: Global,
        conn: Connection<S>,
    ) -> CommandEnd<S, Self::Answer>
        requires { may_come self }
        ensures did { does self result.outcome (state S.Store conn) (state S.Store result.conn) }
        ensures clean { HasCleanDisk (state S.Store result.conn)
            → HasCleanDisk (state S.Store conn) }
        ensures line { IfOk result.outcome (says self) }
        ensures fault { IfErr result.outcome (fails self) };
}
