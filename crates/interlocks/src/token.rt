ghost use Rattle.std.specs.Prelude.{◌≡◌};
ghost use Rattle.std.specs.List.{list_all};
ghost use Rattle.interlocks.specs.Tokens.{is_word_byte, is_name, comparison_of, keyword_of, token_of, continues};

use crate::number::number_of;
use crate::tree::Comparison;

/// What a token of a rule's text is.
#[derive(Clone, Copy, Debug, PartialEq, Eq)]
pub enum Token {
    Or,
    And,
    Not,
    Alarm,
    Open,
    Close,
    Name,
    Compare(Comparison),
    Number(i64),
    Other,
}

/// Whether a byte is one of a word: a letter, a digit or `_`.
pub fn is_word_byte(byte: u8) -> bool
    ensures { result ≡ is_word_byte byte }
{
    byte.is_ascii_alphanumeric() || byte == b'_'
}

/// Whether a byte goes on with the token before it, of which these are the bytes so far.
pub fn continues(token: &[u8], byte: u8) -> bool
    ensures { result ≡ continues token.now byte }
{
    let Some((first, rest)) = token.split_first() else {
        return false;
    };
    if is_word_byte(*first) || *first == b'-' {
        is_word_byte(byte)
    } else {
        rest.is_empty() && byte == b'=' && (*first == b'<' || *first == b'>' || *first == b'!')
    }
}

fn keyword_of(text: &[u8]) -> Option<Token>
    ensures { result ≡ keyword_of text.now }
{
    if text == b"or".as_slice() {
        Some(Token::Or)
    } else if text == b"and".as_slice() {
        Some(Token::And)
    } else if text == b"not".as_slice() {
        Some(Token::Not)
    } else if text == b"alarm".as_slice() {
        Some(Token::Alarm)
    } else if text == b"(".as_slice() {
        Some(Token::Open)
    } else if text == b")".as_slice() {
        Some(Token::Close)
    } else {
        None
    }
}

fn comparison_of(text: &[u8]) -> Option<Comparison>
    ensures { result ≡ comparison_of text.now }
{
    if text == b"=".as_slice() {
        Some(Comparison::Equal)
    } else if text == b"!=".as_slice() {
        Some(Comparison::NotEqual)
    } else if text == b"<".as_slice() {
        Some(Comparison::Below)
    } else if text == b"<=".as_slice() {
        Some(Comparison::AtMost)
    } else if text == b">".as_slice() {
        Some(Comparison::Above)
    } else if text == b">=".as_slice() {
        Some(Comparison::AtLeast)
    } else {
        None
    }
}

fn are_word_bytes(text: &[u8]) -> bool
    ensures { result ≡ list_all is_word_byte text.now }
{
    text.iter().all(|byte| is_word_byte(*byte))
}

/// Whether a text that is no keyword is a name: at most 32 letters, digits and `_`, no digit first.
pub fn is_name(text: &[u8]) -> bool
    ensures { result ≡ is_name text.now }
{
    let Some((first, _)) = text.split_first() else {
        return false;
    };
    if first.is_ascii_digit() || text.len() > 32 {
        return false;
    }
    are_word_bytes(text)
}

/// What a token is, by its bytes.
#[tactic(auto, unfolding(crate::specs::Tokens::token_of))]
pub fn token_of(text: &[u8]) -> Token
    ensures { result ≡ token_of text.now }
{
    if let Some(keyword) = keyword_of(text) {
        return keyword;
    }
    if let Some(comparison) = comparison_of(text) {
        return Token::Compare(comparison);
    }
    if is_name(text) {
        return Token::Name;
    }
    match number_of(text) {
        Some(number) => Token::Number(number),
        None => Token::Other,
    }
}
