//! The law of the state that a train's message leaves unchanged.

ghost use Rattle.law_promises.specs.Apart.Apart.{IsolationTheorem};

/// No train takes anything from another. In every state of the centres, and after every message of a train, each
/// centre's state of every other train is unchanged. All messages to trains and all frames are of that train. The
/// interlocking gets reports only of sections that were in use for it.
pub fn no_train_takes_from_another()
    ensures { IsolationTheorem }
{}
