//! What takes messages.
ghost use Rattle.std.specs.Prelude.{◌∷◌, ◌++◌, [], List, OnOk, IfErr};
ghost use Rattle.cesr_stream.specs.declared.message.Message.{Message as MessageValue};

use cesr_stream::Message;

/// Takes the messages of a stream, one by one.
pub trait Taker {
    /// Why it takes no more.
    type Stop: Copy;

    /// Since it had the first of these values it has taken these messages, in order.
    ghost has_taken: { Self → Self → List MessageValue → Type 0 };

    /// Since then it has stopped so at the last of these messages, and has taken those before it.
    ghost has_stopped: { Self → Self → Self.Stop → List MessageValue → Type 0 };

    /// Takes a message.
    fn take(&mut self, message: Message) -> Result<(), Self::Stop>
        ensures ok { OnOk result ((first : Self) (before : List MessageValue) → has_taken first self.old before
            → has_taken first self.new (before ++ message ∷ [])) }
        ensures err { IfErr result (λ stop. (first : Self) (before : List MessageValue)
            → has_taken first self.old before → has_stopped first self.new stop (before ++ message ∷ [])) };
}
