//! The texts of replies.
ghost use Rattle.std.specs.Prelude.{◌≡◌, ◌++◌, ◌∷◌, [], decimal, OnOk};
ghost use Rattle.moc_lines.specs.Language.{cover_text, replies_text, reply_text};

use itoa::Buffer;
use moc_parts::Reply;
use moc_ranges::{Coverage, Memory};
use moc_text::push_ascii;
use std::alloc::Global;

/// Appends the texts of replies, separated by ` ; `.
fn push_replies(alloc: Global, replies: &[Reply], text: &mut Vec<u8>) -> Result<(), Memory>
    ensures { OnOk result (text.new.items ≡ text.old.items ++ replies_text replies.now) }
{
    let Some((first, later)) = replies.split_first() else {
        return Ok(());
    };
    push_reply(alloc, first, text)?;
    for reply in later {
        text.extend_from_slice(b" ; ")?;
        push_reply(alloc, reply, text)?;
    }
    Ok(())
}

/// Appends the line of replies: their texts, separated by ` ; `, and a line feed. Linear in the length of the text.
///
/// # Errors
/// Fails with `Memory` if an allocation fails.
pub fn push_reply_line(alloc: Global, replies: &[Reply], text: &mut Vec<u8>) -> Result<(), Memory>
    ensures { OnOk result (text.new.items ≡ text.old.items ++ (replies_text replies.now ++ 10 ∷ [])) }
{
    push_replies(alloc, replies, text)?;
    text.extend_from_slice(b"\n")?;
    Ok(())
}

/// Appends the text of a reply.
fn push_reply(alloc: Global, reply: &Reply, text: &mut Vec<u8>) -> Result<(), Memory>
    ensures { OnOk result (text.new.items ≡ text.old.items ++ reply_text reply.now) }
{
    match reply {
        Reply::Changed(pixels) => push_count(b"changed ", *pixels, text)?,
        Reply::Claimed => text.extend_from_slice(b"claimed")?,
        Reply::Taken(pixels) => push_count(b"taken ", *pixels, text)?,
        Reply::Total(pixels) => push_count(b"total ", *pixels, text)?,
        Reply::Cover(set) => push_cover(alloc, set, text)?,
        Reply::Near(true) => text.extend_from_slice(b"near yes")?,
        Reply::Near(false) => text.extend_from_slice(b"near no")?,
    }
    Ok(())
}

/// Appends a word and a decimal number. Linear in the length of the appended text.
///
/// # Errors
/// Fails with `Memory` if an allocation fails.
pub fn push_count(word: &[u8], count: u64, text: &mut Vec<u8>) -> Result<(), Memory>
    ensures { OnOk result (text.new.items ≡ text.old.items ++ (word.now ++ decimal count)) }
{
    let mut digits = Buffer::new();
    text.extend_from_slice(word)?;
    text.extend_from_slice(digits.format(count).as_bytes())?;
    Ok(())
}

/// Appends the text of a `cover` reply: `cover`, and the ASCII format (MOC 2.0) of the set unless it is empty. Linear
/// in the length of the text.
///
/// # Errors
/// Fails with `Memory` if an allocation fails.
pub fn push_cover(alloc: Global, set: &Coverage, text: &mut Vec<u8>) -> Result<(), Memory>
    ensures { OnOk result (text.new.items ≡ text.old.items ++ cover_text set.now) }
{
    if set.is_empty() {
        text.extend_from_slice(b"cover")?;
        return Ok(());
    }
    text.extend_from_slice(b"cover ")?;
    push_ascii(alloc, set, text)
}
