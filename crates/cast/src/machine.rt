//! What a service is to a group: a state machine that takes what its node delivers.
ghost use Rattle.std.specs.Prelude.{List, [], ◌∷◌, ◌++◌};
ghost use Rattle.cast_message.specs.declared.message.Message.{Message};

use cast_message::Message;

/// A state machine, which takes one message after another. A node delivers the messages of one sender in the order of
/// its broadcast. Between senders, the order may differ at another node. So what machines should agree on must not
/// depend on it.
///
/// A machine may say how its state relates to the messages that it took, in order (`stands`); each step is then proved
/// to keep that. Without it, nothing is known about its state.
pub trait Machine {
    ghost stands: { Self → List Message → Type 0 } = { λ _ _. Unit {0} };

    fn apply(&mut self, message: &Message)
        ensures { (taken : List Message) → stands self.old taken
            → stands self.new (taken ++ message.now ∷ []) };
}
