//! What takes the answers to a request.

use ptpm_codec::ErrorId;

/// A place that takes the answers to a request, one after the other, each of the clock or of a port.
pub trait Answers {
    ghost use Rattle.std.specs.Prelude.{◌≡◌, ◌≤◌, ◌<◌, ◌+◌, ◌∷◌, ◌++◌, [], ℕ, List, length};
    ghost use Rattle.ptpm_data.specs.Reply.{Answer, Done, Refused, Value};

    /// How many answers it takes, with those that it has taken.
    ghost most: { Self → ℕ };

    /// How many it has taken.
    ghost count: { Self → ℕ };

    /// The second is the first once it has taken these answers more.
    ghost taken: { Self → List Answer → Self → Type 0 };

    /// Takes a dataField, of 130 octets at most.
    fn take_value(&mut self, port: Option<u16>, octets: &[u8])
        requires room { count self.old < most self.old }
        requires small { length octets.now ≤ 130 }
        ensures { taken self.old
            (record { port = port; outcome = Value octets.now } ∷ []) self.new };

    /// Takes the success of a COMMAND.
    fn take_done(&mut self, port: Option<u16>)
        requires { count self.old < most self.old }
        ensures { taken self.old (record { port = port; outcome = Done } ∷ []) self.new };

    /// Takes the reason of a refusal.
    fn take_refusal(&mut self, port: Option<u16>, error: ErrorId)
        requires { count self.old < most self.old }
        ensures { taken self.old (record { port = port; outcome = Refused error } ∷ []) self.new };

    ghost none_taken: { (a : Self) → taken a [] a };

    ghost taken_after: { (a b c : Self) (xs ys : List Answer)
        → taken a xs b → taken b ys c → taken a (xs ++ ys) c };

    ghost counted: { (a b : Self) (xs : List Answer)
        → taken a xs b → count b ≡ count a + length xs };

    ghost as_many: { (a b : Self) (xs : List Answer) → taken a xs b → most b ≡ most a };
}
