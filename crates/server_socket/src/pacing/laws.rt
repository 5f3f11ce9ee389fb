// What holds of the definitions alone.
ghost use Rattle.server_socket.specs.pacing.Bounds.{AddsUp, FitsPiece, IsMeasured, LeavesHalf, StaysFewer};

/// Tells what the bounds are for. While fewer deliveries wait for a connection than are many, those of another 4 KiB of messages
/// leave half of its outbox free, and those of a whole piece fit into one for 2,231 deliveries or more, if a message has one
/// delivery for it. A Take leaves them fewer than are many. What the publishers of all other workers may have entered untold is
/// together no more than many. A Take asks for 1 to 256 deliveries, which by their mean size have 64 KiB at most, or for one alone.
pub fn bounded()
    ensures half { LeavesHalf }
    ensures piece { FitsPiece }
    ensures fewer { StaysFewer }
    ensures untold { AddsUp }
    ensures takes { IsMeasured }
{}
