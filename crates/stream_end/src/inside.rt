// Whether a stream ends inside a packet.
ghost use Rattle.std.specs.Prelude.{◌≡◌, ◌<◌, ◌==◌, ◌&&◌, length, nat_le, IfSome, IfNone};
ghost use Rattle.stream_end.specs.Inside.{ends_inside_behind as is_inside};

use crate::character::OpenCharacter;
use packet_codec::{Front, are_bytes, look_at_front};

/// Whether the bytes end inside a packet, where they stand behind this character. In front of a whole stream none is open.
pub fn ends_inside(behind: OpenCharacter, bytes: &[u8]) -> bool
    ensures { result ≡ is_inside behind bytes.now }
{
    let mut character = behind;
    let mut rest = bytes;
    while let Some(next) = behind_piece(&mut character, rest) {
        rest = next;
    }
    rest.len() >= 2 && character.is_none()
}

// What stands behind the packet or the foreign byte at the front, and which character is open there. None where more
// bytes are asked for.
fn behind_piece<'a>(character: &mut OpenCharacter, bytes: &'a [u8]) -> Option<&'a [u8]>
    ensures shorter { IfSome result (λ next. length next.now < length bytes.now) }
    ensures alike { IfSome result (λ next. is_inside character.old bytes.now ≡ is_inside character.new next.now) }
    ensures character { IfNone result (character.new ≡ character.old) }
    ensures stops { IfNone result (is_inside character.old bytes.now ≡ (nat_le 2 (length bytes.now) && character.old == 0)) }
{
    are_bytes(bytes);
    match look_at_front(bytes) {
        Front::Packet(size) => {
            *character = OpenCharacter::none();
            Some(&bytes[size..])
        }
        Front::No => {
            character.hear(&bytes[..1]);
            Some(&bytes[1..])
        }
        Front::More => None,
    }
}
