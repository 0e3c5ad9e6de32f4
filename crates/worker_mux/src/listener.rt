//! Who hears what is added to a run.

ghost use Rattle.std.specs.Prelude.{◌∷◌, ◌++◌, [], ℕ, List, OnOk, OnErr};
ghost use Rattle.packet_codec.specs.Packets.{ArePackets};

use sub_number::NoMemory;

/// Hears what is added to a run, piece by piece and in order, on the thread that adds it.
pub trait Listener {
    /// What it has heard since it was the first of the two: these pieces, each of which is whole packets.
    ghost heard: { Self → Self → List (List ℕ) → Type 0 };

    /// What it keeps where it wanted memory: since it was the first of the two it was handed these pieces, and has heard all
    /// but the last one.
    ghost keeps: { Self → Self → List (List ℕ) → Type 0 };

    /// Hears the next piece, which is known to be whole packets and need not be tested. After `NoMemory` it
    /// has not heard the piece, and hears no more.
    fn hear(&mut self, piece: &[u8]) -> Result<(), NoMemory>
        requires packets { ArePackets piece.now }
        ensures hears { (begun : Self) (pieces : List (List ℕ)) → heard begun self.old pieces → OnOk result (heard begun self.new (pieces ++ piece.now ∷ [])) }
        ensures keeps { (begun : Self) (pieces : List (List ℕ)) → heard begun self.old pieces → OnErr result (keeps begun self.new (pieces ++ piece.now ∷ [])) };
}

/// Hears nothing.
#[derive(Drop)]
pub(crate) struct Deaf;

impl Listener for Deaf {
    ghost use Rattle.std.specs.Prelude.{⊤};

    ghost heard = { λ _ _ _. ⊤ };

    ghost keeps = { λ _ _ _. ⊤ };

    fn hear(&mut self, _piece: &[u8]) -> Result<(), NoMemory> {
        Ok(())
    }
}
