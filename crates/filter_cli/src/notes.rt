// Filters of notes.
ghost use Rattle.std.specs.Prelude.{◌≡◌, [], ◌∷◌, ◌++◌, List, IfOk, OnOk};
ghost use Rattle.packet_codec.specs.Canonical.{Fits};
ghost use Rattle.packet_codec.specs.Packet.{IsPacket, SpellsEvent};
ghost use Rattle.packet_codec.specs.declared.event.Event.{Event as AnEvent};
ghost use Rattle.stream_reader.specs.declared.note.Note.{Note as ANote};
ghost use Rattle.stream_reader.specs.declared.note.Note.TheVariants as note;
ghost use Rattle.stream_reader.specs.Notes.{stdout_event as event_of_bytes};
ghost use Rattle.filter_cli.specs.Plan.{Plan};

use packet_codec::Packet;
use sub_number::NoMemory;

/// A filter that goes by the notes of a stream, one after another.
pub trait NoteFilter {
    /// What it writes of any notes.
    ghost plan: { Self → Plan };

    /// It has taken these notes.
    ghost has: { Self → List ANote → Type 0 };

    /// What it was made over may be called.
    ghost ready: { Self → Type 0 } = { λ _. Unit {0} };

    /// Takes the next note, which is the event that this packet spells, and appends what it gives. The packet is lent
    /// where it stands, and a filter copies of it what it needs.
    fn take(&mut self, packet: &Packet<'_>, text: &mut Vec<u8>) -> Result<(), NoMemory>
        requires ready { ready self.old }
        requires packet { IsPacket packet.now }
        ensures ready { OnOk result (ready self.new) }
        ensures ok { (event : AnEvent) → SpellsEvent packet.now event → (notes : List ANote) → has self.old notes → OnOk result (has self.new (notes ++ note.Event event ∷ [])) }
        ensures text { (event : AnEvent) → SpellsEvent packet.now event → (notes : List ANote) → has self.old notes → OnOk result (text.new.items ≡ text.old.items ++ (plan self.old).gives notes (note.Event event)) }
        ensures plan { OnOk result (plan self.new ≡ plan self.old) };

    /// Takes the next note, which is these foreign bytes, and appends what it gives. The bytes stand where they were
    /// read, and as an event they have a packet.
    fn take_foreign(&mut self, bytes: &[u8], text: &mut Vec<u8>) -> Result<(), NoMemory>
        requires ready { ready self.old }
        requires packet { Fits (event_of_bytes bytes.now) }
        ensures ready { OnOk result (ready self.new) }
        ensures ok { (notes : List ANote) → has self.old notes → OnOk result (has self.new (notes ++ note.Foreign bytes.now ∷ [])) }
        ensures text { (notes : List ANote) → has self.old notes → OnOk result (text.new.items ≡ text.old.items ++ (plan self.old).gives notes (note.Foreign bytes.now)) }
        ensures plan { OnOk result (plan self.new ≡ plan self.old) };

    /// There are no further notes: appends what the end gives, and gives the status.
    fn close(self, text: &mut Vec<u8>) -> Result<u8, NoMemory>
        requires { ready self }
        ensures text { (notes : List ANote) → has self notes → IfOk result (λ status. text.new.items ≡ text.old.items ++ (plan self).at_end notes) }
        ensures status { (notes : List ANote) → has self notes → IfOk result (λ status. status ≡ (plan self).status notes) };

    /// Gives it up.
    fn let_go(self);
}
