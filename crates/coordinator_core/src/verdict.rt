//! What becomes of what came for an attempt.
use poly_model::Overflow;

/// What becomes of an event.
#[derive(Clone, Copy, PartialEq, Eq, Debug)]
pub enum Verdict {
    /// The reply is to be recorded: the attempt was out, its job was not done, and the reply ends in `end` and gives
    /// back keys that are new and distinct.
    Accepted,
    /// A whole reply of an attempt that is not out, or of a job that is done: it is counted.
    Stray,
    /// No whole reply, or one that ends in `memory` or gives a known key back: it is counted, and where the attempt was
    /// out its key goes to the end of the queue.
    Loss,
    /// The reply ends in `overflow`, and so does the call.
    Ends(Overflow),
}
