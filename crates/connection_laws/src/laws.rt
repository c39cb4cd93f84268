//! The law that a connection is told the same line by line and from its first line on.
ghost use Rattle.connection_laws.specs.Front.{IsToldFromTheFront, IsKeptByLonger};

/// Lines that were acted on one after the other get what they get when they are told from the first
/// line on. What a connection is told over a history is told over each longer one.
pub fn connections_are_told()
    ensures front { IsToldFromTheFront }
    ensures longer { IsKeptByLonger }
{}
