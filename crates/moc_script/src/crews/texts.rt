//! Several texts in one buffer.
ghost use Rattle.std.specs.Prelude.{◌≡◌, ◌∷◌, [], None, IfSome, length};
ghost use Rattle.std.specs.List.{concat};
ghost use Rattle.moc_script.specs.Private.Texts.{split_by_len, total};

use std::marker::Model;

/// Texts one after another in one buffer, and their lengths.
#[derive(Drop)]
pub(crate) struct Texts {
    lens: Vec<usize>,
    bytes: Vec<u8>,
}

impl Model for Texts {
    ghost use Rattle.std.specs.Prelude.{◌≡◌, List, ℕ, length};
    ghost use Rattle.moc_script.specs.Private.Texts.{split_by_len, total};

    ghost Value = { List (List ℕ) };

    ghost view = { λ t. split_by_len t.lens.items t.bytes.items };

    ghost invariant = { λ t. total t.lens.items ≡ length t.bytes.items };
}

impl Texts {
    /// Returns the texts with these lengths in these bytes.
    pub(crate) fn new(lens: Vec<usize>, bytes: Vec<u8>) -> Texts
        requires { total lens.items ≡ length bytes.items }
        ensures { result ≡ split_by_len lens.items bytes.items }
    {
        Texts { lens, bytes }
    }

    /// Returns the bytes of all texts, one after another.
    pub(crate) fn as_bytes(&self) -> &[u8]
        ensures { result.now ≡ concat self.now }
    {
        &self.bytes
    }

    /// Returns an iterator from the first text.
    pub(crate) fn walk(&self) -> Walk<'_>
        ensures { result ≡ self.now }
    {
        Walk {
            lens: &self.lens,
            bytes: &self.bytes,
        }
    }
}

/// The remaining texts.
#[derive(Drop)]
pub(crate) struct Walk<'a> {
    lens: &'a [usize],
    bytes: &'a [u8],
}

impl<'a> Model for Walk<'a> {
    ghost use Rattle.std.specs.Prelude.{◌≡◌, List, ℕ, length};
    ghost use Rattle.moc_script.specs.Private.Texts.{split_by_len, total};

    ghost Value = { List (List ℕ) };

    ghost view = { λ w. split_by_len w.lens.now w.bytes.now };

    ghost invariant = { λ w. total w.lens.now ≡ length w.bytes.now };
}

impl<'a> Walk<'a> {
    /// Returns the next text.
    pub(crate) fn next_text(&mut self) -> Option<&'a [u8]>
        ensures some { IfSome result (λ text. self.old ≡ text.now ∷ self.new) }
        ensures none { result ≡ None → self.old ≡ [] }
    {
        let (len, lens) = self.lens.split_first()?;
        let (text, bytes) = self.bytes.split_at(*len);
        self.lens = lens;
        self.bytes = bytes;
        Some(text)
    }
}
