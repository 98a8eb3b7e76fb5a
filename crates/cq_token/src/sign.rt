ghost use Rattle.std.specs.Prelude.{◌≡◌};
ghost use Rattle.cq_token.specs.Signs.{sign_of, pair_of};

/// The signs of SQL.
#[derive(Clone, Copy, Debug, PartialEq, Eq)]
pub enum Sign {
    Open,
    Close,
    Comma,
    Dot,
    Semicolon,
    Star,
    Slash,
    Percent,
    Plus,
    Minus,
    Equal,
    NotEqual,
    Less,
    LessOrEqual,
    Greater,
    GreaterOrEqual,
    Arrow,
}

/// The sign of two bytes.
pub(crate) fn pair_of(first: u8, second: u8) -> Option<Sign>
    ensures { result ≡ pair_of first second }
{
    match (first, second) {
        (b'<', b'>') | (b'!', b'=') => Some(Sign::NotEqual),
        (b'<', b'=') => Some(Sign::LessOrEqual),
        (b'>', b'=') => Some(Sign::GreaterOrEqual),
        (b'=', b'>') => Some(Sign::Arrow),
        _ => None,
    }
}

/// The sign of one byte.
pub(crate) fn sign_of(byte: u8) -> Option<Sign>
    ensures { result ≡ sign_of byte }
{
    match byte {
        b'(' => Some(Sign::Open),
        b')' => Some(Sign::Close),
        b',' => Some(Sign::Comma),
        b'.' => Some(Sign::Dot),
        b';' => Some(Sign::Semicolon),
        b'*' => Some(Sign::Star),
        b'/' => Some(Sign::Slash),
        b'%' => Some(Sign::Percent),
        b'+' => Some(Sign::Plus),
        b'-' => Some(Sign::Minus),
        b'=' => Some(Sign::Equal),
        b'<' => Some(Sign::Less),
        b'>' => Some(Sign::Greater),
        _ => None,
    }
}
