//! The tokens of bytes.

ghost use Rattle.std.specs.Prelude.{◌≡◌, ◌≤◌, ◌+◌, length, IfOk};
ghost use Rattle.std.specs.Str.{IsUtf8, chars};
ghost use Rattle.std.specs.Str.Lossy.{utf8_valid_len};
ghost use Rattle.mdg_text.specs.declared.token.TextFault.TheVariants as fault;
ghost use Rattle.mdg_text.specs.Causes.{HasCauseIn, HasCause, HasLines, AnswersList, AnswersStuck, AnswersMany};
ghost use Rattle.mdg_text.specs.Characters.{width};
ghost use Rattle.mdg_text.specs.Lexer.{lex_text, Answers};

use crate::cursor::{advance_to, has_line_end, start};
use crate::lexeme::token_at;
use crate::trivia::{after_script, last_close, skip_trivia};
use crate::{TextFault, Token};
use mdg_base::Items;
use std::alloc::{AllocError, Global};

/// The most tokens of a file.
const TOKEN_LIMIT: usize = 400_000;

/// The tokens of a text, of which there are at most `limit`.
pub(crate) fn lex(alloc: Global, text: &[char], limit: usize) -> Result<Items<Token>, TextFault>
    requires short { length text.now ≤ 1048576 }
    requires small { width text.now ≤ 1048576 }
    requires few { limit ≤ 1000000 }
    ensures { Answers (limit + 1) (lex_text limit text.now) result }
{
    let last = last_close(text);
    let mut made = Vec::new(alloc);
    let mut cursor = advance_to(text, start(), after_script(text));
    let mut has_token = false;
    loop {
        let begin = advance_to(text, cursor, skip_trivia(text, last, cursor.at));
        if begin.at == text.len() {
            return Ok(Items::from_vec(made));
        }
        let Some(lexeme) = token_at(alloc, text, begin.at)? else {
            return Err(TextFault::BadToken(begin.offset));
        };
        if made.len() == limit {
            return Err(TextFault::TooManyTokens(limit as u64 + 1));
        }
        let end = advance_to(text, begin, lexeme.next);
        made.push(Token {
            kind: lexeme.kind,
            text: lexeme.value,
            from: begin.offset,
            to: end.offset,
            line: begin.line,
            line_before: has_line_end(text, has_token, cursor.at, begin.at),
        })?;
        cursor = end;
        has_token = true;
    }
}

fn characters(alloc: Global, text: &str) -> Result<Vec<char>, AllocError>
    ensures { IfOk result (λ v. v.items ≡ chars text.now) }
{
    text.chars().collect(alloc)
}

fn tokens_of_characters(alloc: Global, text: &str, all: &[char]) -> Result<Items<Token>, TextFault>
    requires small { length text.now ≤ 1048576 }
    requires same { all.now ≡ chars text.now }
    ensures cause { HasCauseIn (chars text.now) result }
    ensures list { AnswersList (chars text.now) result }
    ensures stuck { AnswersStuck (chars text.now) result }
    ensures many { AnswersMany (chars text.now) result }
{
    lex(alloc, all, TOKEN_LIMIT)
}

fn tokens_of_text(alloc: Global, text: &str) -> Result<Items<Token>, TextFault>
    requires { length text.now ≤ 1048576 }
    ensures cause { HasCauseIn (chars text.now) result }
    ensures list { AnswersList (chars text.now) result }
    ensures stuck { AnswersStuck (chars text.now) result }
    ensures many { AnswersMany (chars text.now) result }
{
    let all = characters(alloc, text)?;
    tokens_of_characters(alloc, text, all.as_slice())
}

/// The tokens of a file, section 7 of ECMA-262 5.1, at most 400,000 of at most 1,048,576 bytes.
///
/// A regular expression has no token: `/` is always a punctuator. Names have no escapes.
/// `NotUtf8` has the offset of the first sequence of bytes that is no character. `BadToken` has the offset,
/// after the tokens before it, at which neither a token, a closed comment, white space nor a line end begins.
/// None begins at `<!--`, which engines take for the start of a comment.
/// `TooManyTokens` has the number 400,001, of the first token that is too many.
/// Of the last two the one that comes first is answered. `NoMemory` may come at any UTF-8.
pub fn tokens(alloc: Global, bytes: &[u8]) -> Result<Items<Token>, TextFault>
    requires { length bytes.now ≤ 1048576 }
    // what an answer says of the bytes
    ensures cause { HasCause bytes.now result }
    ensures lines { HasLines bytes.now result }

    // and what is so is answered, unless memory is refused
    ensures list { IsUtf8 bytes.now → AnswersList (chars bytes.now) result }
    ensures stuck { IsUtf8 bytes.now → AnswersStuck (chars bytes.now) result }
    ensures many { IsUtf8 bytes.now → AnswersMany (chars bytes.now) result }
    ensures no_text { ¬ (IsUtf8 bytes.now) → result ≡ Err (fault.NotUtf8 (utf8_valid_len bytes.now)) }
{
    match str::from_utf8(bytes) {
        Ok(text) => tokens_of_text(alloc, text),
        Err(fault) => Err(TextFault::NotUtf8(fault.valid_up_to() as u32)),
    }
}
