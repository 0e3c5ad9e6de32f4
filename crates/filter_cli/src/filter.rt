// What a filter is.
ghost use Rattle.std.specs.Prelude.{◌≡◌, ◌++◌, ◌≤◌, ℕ, Bool, List, length, IfOk, OnOk};
ghost use Rattle.packet_codec.specs.Grammar.{AreBytes};
ghost use Rattle.filter_cli.specs.Pipe.{Adds};

use sub_number::NoMemory;

/// What is told at the end of a stream.
#[derive(Clone, Copy, Debug, PartialEq, Eq)]
pub struct StreamEnd {
    /// The exit status.
    pub status: u8,
    /// The stream ends inside a packet. So it is only of a stream that is read as packets.
    pub inside: bool,
}

/// A filter is fed a stream piece by piece, and appends what each piece decides of its text.
pub trait Filter {
    /// The text that the first bytes of a stream decide, whatever follows.
    ghost seen: { Self → List ℕ → List ℕ → Type 0 };

    /// The text of a whole stream, and its status.
    ghost whole: { Self → List ℕ → List ℕ → ℕ → Type 0 };

    /// Whether a whole stream ends inside a packet.
    ghost inside: { List ℕ → Bool };

    /// These bytes were fed, and this text was appended.
    ghost has: { Self → List ℕ → List ℕ → Type 0 };

    /// What it was made over may be called.
    ghost ready: { Self → Type 0 } = { λ _. Unit {0} };

    /// Takes the next bytes, at most 65,536, and appends what they decide.
    fn feed(&mut self, piece: &[u8], text: &mut Vec<u8>) -> Result<(), NoMemory>
        requires ready { ready self.old }
        requires piece { length piece.now ≤ 65536 }
        ensures ready { OnOk result (ready self.new) }
        ensures ok { (fed shown : List ℕ) → has self.old fed shown → OnOk result (Adds text.old.items text.new.items (λ more. has self.new (fed ++ piece.now) (shown ++ more))) }
        ensures seen { OnOk result ((fed shown : List ℕ) → seen self.new fed shown → seen self.old fed shown) }
        ensures whole { OnOk result ((fed all : List ℕ) (status : ℕ) → whole self.new fed all status → whole self.old fed all status) };

    /// The stream has ended: appends the rest of the text, and gives the status, and whether it ends inside a packet.
    fn close(self, text: &mut Vec<u8>) -> Result<StreamEnd, NoMemory>
        requires { ready self }
        ensures text { (fed shown : List ℕ) → has self fed shown → IfOk result (λ end. Adds text.old.items text.new.items (λ more. whole self fed (shown ++ more) end.status)) }
        ensures inside { (fed shown : List ℕ) → has self fed shown → IfOk result (λ end. end.inside ≡ inside fed) };

    /// Gives it up.
    fn let_go(self);

    // What was appended is all that the bytes fed decide.
    ghost is_seen: { (f : Self) (fed shown : List ℕ) → has f fed shown → seen f fed shown };

    // What first bytes decide comes first, whatever follows.
    ghost front: { (f : Self) (bytes more shown all : List ℕ) (status : ℕ) → AreBytes (bytes ++ more) → seen f bytes shown → whole f (bytes ++ more) all status → (rest : List ℕ) × (all ≡ shown ++ rest) };

    // A stream has one text and one status.
    ghost one: { (f : Self) (bytes all other : List ℕ) (status another : ℕ) → AreBytes bytes → whole f bytes all status → whole f bytes other another → (all ≡ other) × (status ≡ another) };
}
