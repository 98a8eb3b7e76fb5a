ghost use Rattle.std.specs.Prelude.{◌≡◌, ◌≤◌, ◌^◌, length, map, IfOk, string_bytes};
ghost use Rattle.std.specs.Char.{to_ascii_lowercase};
ghost use Rattle.std.specs.Str.{IsAscii};
ghost use Rattle.cq_value.specs.Texts.{bytes_in};

use crate::boxed::Boxed;
use crate::short::Short;
use std::alloc::Global;
use std::marker::Model;

/// Want of memory.
#[derive(Clone, Copy, Debug, PartialEq, Eq)]
pub struct NoMemory;

/// Where the bytes of a text lie: in it, or elsewhere.
#[derive(Debug, Drop)]
enum Bytes {
    Short(Short),
    Long(Boxed<String>),
}

/// A UTF-8 text, which contracts see as its bytes. Up to 22 bytes lie in it and take no other memory.
#[derive(Debug, Drop)]
pub struct Text {
    inner: Bytes,
}

impl Model for Text {
    ghost use Rattle.std.specs.Prelude.{List, ℕ};
    ghost use Rattle.cq_value.specs.Texts.{bytes_in};

    ghost Value = { List ℕ };

    ghost view = { λ t. bytes_in t.inner };
}

impl Text {
    /// A text of the same bytes, of any length.
    pub fn of(alloc: Global, s: &str) -> Result<Text, NoMemory>
        ensures { IfOk result (λ t. t ≡ s.now) }
    {
        if let Some(short) = Short::of(s) {
            return Ok(Text {
                inner: Bytes::Short(short),
            });
        }
        match String::from_str(alloc, s) {
            Ok(long) => Ok(Text {
                inner: Bytes::Long(Boxed::new(alloc, long)?),
            }),
            Err(_) => Err(NoMemory),
        }
    }

    /// A text of the same bytes. A value's text has at most 2^24 bytes.
    pub fn of_str(alloc: Global, s: &str) -> Result<Text, NoMemory>
        requires { length s.now ≤ 2 ^ 24 }
        ensures { IfOk result (λ t. t ≡ s.now) }
    {
        Text::of(alloc, s)
    }

    /// The text that a string holds, of any length.
    pub fn of_string(alloc: Global, string: String) -> Result<Text, NoMemory>
        ensures { IfOk result (λ t. t ≡ string_bytes string) }
    {
        if let Some(short) = Short::of(string.as_str()) {
            return Ok(Text {
                inner: Bytes::Short(short),
            });
        }
        Ok(Text {
            inner: Bytes::Long(Boxed::new(alloc, string)?),
        })
    }

    /// The text in lower case, of one in ASCII.
    pub fn folded(alloc: Global, s: &str) -> Result<Text, NoMemory>
        requires { IsAscii s.now }
        ensures { IfOk result (λ t. t ≡ map to_ascii_lowercase s.now) }
    {
        if let Some(short) = Short::folded(s) {
            return Ok(Text {
                inner: Bytes::Short(short),
            });
        }
        match s.to_ascii_lowercase(alloc) {
            Ok(long) => Text::of_string(alloc, long),
            Err(_) => Err(NoMemory),
        }
    }

    pub fn as_str(&self) -> &str
        ensures { result.now ≡ self.now }
    {
        match &self.inner {
            Bytes::Short(short) => short.as_str(),
            Bytes::Long(long) => long.get().as_str(),
        }
    }

    /// An equal text.
    pub fn copy(&self, alloc: Global) -> Result<Text, NoMemory>
        ensures { IfOk result (λ t. t ≡ self.now) }
    {
        Text::of(alloc, self.as_str())
    }
}
