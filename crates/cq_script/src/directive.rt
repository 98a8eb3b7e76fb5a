ghost use Rattle.std.specs.Prelude.{◌≡◌, ◌≤◌, length};
ghost use Rattle.std.specs.Char.{is_ascii_digit};
ghost use Rattle.std.specs.List.{list_all, prefix_len};
ghost use Rattle.cq_token.specs.Bytes.{is_blank as is_blank_byte};
ghost use Rattle.cq_script.specs.Directives.{is_in_word, first_word, behind_word, is_zero, session_of, session_in, alone, directive_of};

use crate::cutter::is_blank;

/// The highest number of a session of a block.
pub const MOST_SESSIONS: u32 = 8;

/// What a line of a script says that begins with a backslash where no statement has begun.
#[derive(Clone, Copy, Debug, PartialEq, Eq)]
pub enum Directive {
    /// `\parallel`: a block begins.
    Parallel,
    /// `\session n`: what follows is of this session of the block, from 1 to `MOST_SESSIONS`.
    Session(u32),
    /// `\session n` with a higher number, which passes a limit of the script.
    HighSession,
    /// `\end`: the block is run.
    End,
}

fn word_len(bytes: &[u8]) -> usize
    ensures value { result ≡ prefix_len is_in_word bytes.now }
    ensures within { result ≤ length bytes.now }
{
    bytes.iter().take_while(|b| !is_blank(**b)).count()
}

fn blanks_len(bytes: &[u8]) -> usize
    ensures value { result ≡ prefix_len is_blank_byte bytes.now }
    ensures within { result ≤ length bytes.now }
{
    bytes.iter().take_while(|b| is_blank(**b)).count()
}

/// The first word, and the bytes behind it and behind the blanks there.
fn split_word(bytes: &[u8]) -> (&[u8], &[u8])
    ensures word { result.0.now ≡ first_word bytes.now }
    ensures rest { result.1.now ≡ behind_word bytes.now }
{
    let (word, rest) = bytes.split_at(word_len(bytes));
    (word, rest.split_at(blanks_len(rest)).1)
}

fn zeros_len(digits: &[u8]) -> usize
    ensures value { result ≡ prefix_len is_zero digits.now }
    ensures within { result ≤ length digits.now }
{
    digits.iter().take_while(|b| **b == b'0').count()
}

fn are_digits(word: &[u8]) -> bool
    ensures { result ≡ list_all is_ascii_digit word.now }
{
    word.iter().all(|b| b.is_ascii_digit())
}

/// The session of digits without a zero in front.
fn session_of(digits: &[u8]) -> Option<Directive>
    ensures { result ≡ session_of digits.now }
{
    match digits {
        [] => None,
        [digit] if b'1' <= *digit && *digit <= b'8' => {
            Some(Directive::Session(u32::from(*digit - b'0')))
        }
        _ => Some(Directive::HighSession),
    }
}

fn session_in(word: &[u8]) -> Option<Directive>
    ensures { result ≡ session_in word.now }
{
    if !are_digits(word) {
        return None;
    }
    session_of(word.split_at(zeros_len(word)).1)
}

/// The directive that a word is.
fn alone(word: &[u8]) -> Option<Directive>
    ensures { result ≡ alone word.now }
{
    if word == b"\\parallel".as_slice() {
        return Some(Directive::Parallel);
    }
    if word == b"\\end".as_slice() {
        return Some(Directive::End);
    }
    None
}

/// The directive that a line without its newline is; blanks may stand at its end. None: it is none.
#[tactic(auto, unfolding(crate::specs::Directives::directive_of))]
pub fn read_directive(line: &[u8]) -> Option<Directive>
    ensures { result ≡ directive_of line.now }
{
    let (word, rest) = split_word(line);
    if rest.is_empty() {
        return alone(word);
    }
    let (number, rest) = split_word(rest);
    if word == b"\\session".as_slice() && rest.is_empty() {
        session_in(number)
    } else {
        None
    }
}
