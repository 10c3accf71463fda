use mdg_base::{NoMemory, Text};
use std::alloc::{AllocError, AllocFailed};
use thiserror::Error;

/// What a token is.
#[derive(Clone, Copy, Debug, PartialEq, Eq)]
pub enum TokenKind {
    /// An identifier (7.6) that is no `Word`.
    Name,

    /// A reserved word of strict code (7.6.1), or `null`, `true` or `false` (7.8.1, 7.8.2).
    Word,

    /// A numeric literal (7.8.3).
    Numeral,

    /// A string literal (7.8.4).
    Text,

    /// A punctuator (7.7, 7.8.5 left out): `/` never begins a regular expression.
    Mark,
}

/// A token and where it stands.
#[derive(Debug, Drop)]
pub struct Token {
    pub kind: TokenKind,

    /// The characters that spell it; of a `Text` what it stands for, its string value.
    pub text: Text,

    /// Where it begins, in bytes from 0.
    pub from: u32,

    /// Where it ends, in bytes from 0: the offset after its last byte.
    pub to: u32,

    /// The line in which it begins, counted from 1.
    pub line: u32,

    /// Whether a line end stands between the token before and this one, also in a comment. Of the first token it is false.
    pub line_before: bool,
}

/// Why bytes have no list of tokens.
#[derive(Clone, Copy, Debug, PartialEq, Eq, Error)]
pub enum TextFault {
    /// The bytes are no UTF-8: the offset of the first sequence that is no character.
    #[error("byte {0}: no UTF-8")]
    NotUtf8(u32),

    /// No token begins at this offset, and neither does white space, a line end or a whole comment.
    #[error("byte {0}: no token")]
    BadToken(u32),

    /// There are more tokens than are read: the number of the first that is too many.
    #[error("{0} tokens or more")]
    TooManyTokens(u64),

    #[error("out of memory")]
    NoMemory,
}

impl From<NoMemory> for TextFault {
    ghost use Rattle.std.specs.Prelude.{◌≡◌};
    ghost use Rattle.mdg_text.specs.declared.token.TextFault.TheVariants as fault;

    ghost from_gives = { λ _ e. e ≡ fault.NoMemory };

    fn from(_: NoMemory) -> TextFault {
        TextFault::NoMemory
    }
}

impl From<AllocError> for TextFault {
    ghost use Rattle.std.specs.Prelude.{◌≡◌};
    ghost use Rattle.mdg_text.specs.declared.token.TextFault.TheVariants as fault;

    ghost from_gives = { λ _ e. e ≡ fault.NoMemory };

    fn from(_: AllocError) -> TextFault {
        TextFault::NoMemory
    }
}

impl<T: Drop> From<AllocFailed<T>> for TextFault {
    ghost use Rattle.std.specs.Prelude.{◌≡◌};
    ghost use Rattle.mdg_text.specs.declared.token.TextFault.TheVariants as fault;

    ghost from_gives = { λ _ e. e ≡ fault.NoMemory };

    fn from(_: AllocFailed<T>) -> TextFault {
        TextFault::NoMemory
    }
}
