//! Texts of few bytes.

ghost use Rattle.std.specs.Prelude.{◌≡◌, length, map, IfSome, IsUtf8};
ghost use Rattle.std.specs.Char.{to_ascii_lowercase};
ghost use Rattle.std.specs.Str.{IsAscii};

use std::marker::Model;

/// The most bytes: as many as lie in a text whose longer forms lie elsewhere.
const ROOM: usize = 22;

/// A UTF-8 text of at most 22 bytes, which lie in it.
#[derive(Debug, Drop)]
pub struct Short {
    len: u8,
    bytes: [u8; ROOM],
}

impl Model for Short {
    ghost use Rattle.std.specs.Prelude.{List, ℕ, ◌≡◌, ◌≤◌, length, take, IsUtf8};

    ghost Value = { List ℕ };

    ghost view = { λ s. take s.len s.bytes };

    ghost invariant = { λ s. (s.len ≤ 22) × (length s.bytes ≡ 22) × ∥ IsUtf8 (take s.len s.bytes) ∥₁ };
}

/// Writes a text in ASCII in lower case to a place of its length.
fn fold_into(text: &[u8], place: &mut [u8])
    requires ascii { IsAscii text.now }
    requires room { length place.old ≡ length text.now }
    ensures value { place.new ≡ map to_ascii_lowercase text.now }
    ensures len { length place.new ≡ length text.now }
    ensures utf8 { IsUtf8 place.new }
{
    place.copy_from_slice(text);
    place.make_ascii_lowercase();
}

impl Short {
    /// The text of the same bytes, where they are few.
    pub fn of(s: &str) -> Option<Short>
        ensures { IfSome result (λ t. t ≡ s.now) }
    {
        let len = s.len();
        if len > ROOM {
            return None;
        }
        let mut bytes = [0; ROOM];
        bytes[..len].copy_from_slice(s.as_bytes());
        Some(Short {
            len: len as u8,
            bytes,
        })
    }

    /// The text in lower case, of one in ASCII, where it is short.
    pub fn folded(s: &str) -> Option<Short>
        requires { IsAscii s.now }
        ensures { IfSome result (λ t. t ≡ map to_ascii_lowercase s.now) }
    {
        let len = s.len();
        if len > ROOM {
            return None;
        }
        let mut bytes = [0; ROOM];
        fold_into(s.as_bytes(), &mut bytes[..len]);
        Some(Short {
            len: len as u8,
            bytes,
        })
    }

    pub fn as_str(&self) -> &str
        ensures { result.now ≡ self.now }
    {
        // SAFETY: these bytes are UTF-8.
        unsafe { std::str::from_utf8_unchecked(&self.bytes[..self.len as usize]) }
    }
}
