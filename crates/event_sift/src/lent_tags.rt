//! Lists of lent tags in the order of their bytes, each once. No tag is copied.

ghost use Rattle.std.specs.Prelude.{◌≡◌, ◌≤◌, ◌∷◌, ◌++◌, length, IfSome, IfNone, OnOk};
ghost use Rattle.std.specs.List.{insert};
ghost use Rattle.std.specs.List.Sorted.{IsStrictlySortedBy};
ghost use Rattle.std.specs.Ordering.{eq_by_cmp};
ghost use Rattle.packet_codec.specs.Retagging.{lent_bytes};
ghost use Rattle.outcome_fold.specs.Order.{among, in_byte_order, text_cmp, without};

use std::cmp::Ordering;
use sub_number::{NoMemory, Text};

// Puts the tags in order, each once.
pub fn put_in_order(tags: &mut Vec<&[u8]>)
    ensures { lent_bytes tags.new.items ≡ in_byte_order (lent_bytes tags.old.items) }
{
    tags.sort_unstable();
    tags.dedup();
}

// The place at which the tag is inserted into tags in order. None where it is one of them.
fn place_for(tags: &[&[u8]], tag: &[u8]) -> Option<usize>
    requires { IsStrictlySortedBy text_cmp (lent_bytes tags.now) }
    ensures place { IfSome result (λ place. place ≤ length tags.now) }
    ensures inserted { IfSome result (λ place. insert (lent_bytes tags.now) place tag.now ≡ in_byte_order (tag.now ∷ lent_bytes tags.now)) }
    ensures none { IfNone result (lent_bytes tags.now ≡ in_byte_order (tag.now ∷ lent_bytes tags.now)) }
{
    let mut place = tags.len();
    while place > 0 {
        match tags[place - 1].cmp(&tag) {
            Ordering::Less => return Some(place),
            Ordering::Equal => return None,
            Ordering::Greater => place -= 1,
        }
    }
    Some(0)
}

// Adds the tag to tags in order, where it is not one of them.
fn put<'t>(tags: &mut Vec<&'t [u8]>, tag: &'t [u8]) -> Result<(), NoMemory>
    requires { IsStrictlySortedBy text_cmp (lent_bytes tags.old.items) }
    ensures { OnOk result (lent_bytes tags.new.items ≡ in_byte_order (tag.now ∷ lent_bytes tags.old.items)) }
{
    if let Some(place) = place_for(tags, tag) {
        tags.insert(place, tag)?;
    }
    Ok(())
}

// Adds each of the texts to tags in order.
pub fn put_texts<'t>(tags: &mut Vec<&'t [u8]>, texts: &'t [Text]) -> Result<(), NoMemory>
    requires { IsStrictlySortedBy text_cmp (lent_bytes tags.old.items) }
    ensures { OnOk result (lent_bytes tags.new.items ≡ in_byte_order (lent_bytes tags.old.items ++ texts.now)) }
{
    for text in texts {
        put(tags, text.bytes())?;
    }
    Ok(())
}

// Whether the tag is this text.
fn is_text(text: &Text, tag: &[u8]) -> bool
    ensures { result ≡ eq_by_cmp text_cmp tag.now text.now }
{
    tag == text.bytes()
}

// Whether the tag is one of the texts.
fn is_among(texts: &[Text], tag: &[u8]) -> bool
    ensures { result ≡ among texts.now tag.now }
{
    texts.iter().any(|text| is_text(text, tag))
}

// Takes each of the texts out.
pub fn take_out(tags: &mut Vec<&[u8]>, texts: &[Text])
    ensures { lent_bytes tags.new.items ≡ without (lent_bytes tags.old.items) texts.now }
{
    tags.retain(|tag| !is_among(texts, tag));
}
