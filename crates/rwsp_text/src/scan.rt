// The lexemes of a text, by where they are in it.
ghost use Rattle.std.specs.Prelude.{◌≡◌, ◌+◌, ◌<◌, ◌≤◌, length, IfOk, map, ◌-◌, ◌^◌, ◌++◌, drop, IfSome, slice_index, true, OnOk};
ghost use Rattle.std.specs.Option.{option_to_list};
ghost use Rattle.std.specs.List.{prefix_len};
ghost use Rattle.rwsp_text.specs.Lexemes.{is_space, lexemes, lexemes_from};
ghost use Rattle.rwsp_text.specs.Places.{is_word_byte, is_no_line_end, lexeme_at, IsWithin, AreWithin};

use std::alloc::{AllocError, Global};

/// A word of a text: the bytes from `start` to before `end`, and the number of their line, from 1 on.
#[derive(Clone, Copy)]
pub struct Token {
    pub start: usize,
    pub end: usize,
    pub line: u32,
}

fn is_space(b: u8) -> bool
    ensures { result ≡ is_space b }
{
    b == b' ' || b == b'\t' || b == b'\r'
}

fn is_word_byte(b: u8) -> bool
    ensures { result ≡ is_word_byte b }
{
    let space = is_space(b);
    let end = b == b'\n';
    !space && !end
}

// Where the word ends that has its byte at this place.
#[tactic(auto, using(crate::proofs::TokenSteps::prefix_more, crate::proofs::TokenSteps::prefix_stop, crate::proofs::TokenSteps::prefix_all))]
fn word_end(bytes: &[u8], at: usize) -> usize
    requires { (at < length bytes.now) × (is_word_byte (slice_index bytes.now at) ≡ true) }
    ensures moves { (at < result) × (result ≤ length bytes.now) }
    ensures value { result ≡ at + prefix_len is_word_byte (drop at bytes.now) }
{
    for i in at + 1..bytes.len() {
        if !is_word_byte(bytes[i]) {
            return i;
        }
    }
    bytes.len()
}

// Where the line ends that has a comment at this place.
#[tactic(auto, using(crate::proofs::TokenSteps::prefix_more, crate::proofs::TokenSteps::prefix_stop, crate::proofs::TokenSteps::prefix_all))]
fn comment_end(bytes: &[u8], at: usize) -> usize
    requires { (at < length bytes.now) × (is_no_line_end (slice_index bytes.now at) ≡ true) }
    ensures moves { (at < result) × (result ≤ length bytes.now) }
    ensures value { result ≡ at + prefix_len is_no_line_end (drop at bytes.now) }
{
    for i in at + 1..bytes.len() {
        if bytes[i] == b'\n' {
            return i;
        }
    }
    bytes.len()
}

// Past one byte, a comment or a word, with the word where there is one.
#[tactic(auto, using(crate::proofs::TokenSteps::step_end, crate::proofs::TokenSteps::step_space, crate::proofs::TokenSteps::step_comment, crate::proofs::TokenSteps::step_word))]
fn step(bytes: &[u8], at: usize, line: u32) -> (Option<Token>, usize, u32)
    requires at { at < length bytes.now }
    requires few { length bytes.now < 2 ^ 32 - 1 }
    requires line { line ≤ at + 1 }
    ensures moves { (at < result.1) × (result.1 ≤ length bytes.now) }
    ensures line { result.2 ≤ line + (result.1 - at) }
    ensures lexemes { lexemes_from line (drop at bytes.now)
        ≡ map (lexeme_at bytes.now) (option_to_list result.0) ++ lexemes_from result.2 (drop result.1 bytes.now) }
    ensures within { IfSome result.0 (IsWithin bytes.now) }
{
    let b = bytes[at];
    if b == b'\n' {
        return (None, at + 1, line + 1);
    }
    if is_space(b) {
        return (None, at + 1, line);
    }
    if b == b'#' {
        let end = comment_end(bytes, at);
        return (None, end, line);
    }
    let end = word_end(bytes, at);
    let token = Token {
        start: at,
        end,
        line,
    };
    (Some(token), end, line)
}

// Appends the token, where there is one.
fn note(all: &mut Vec<Token>, token: Option<Token>) -> Result<(), AllocError>
    ensures { OnOk result (all.new.items ≡ all.old.items ++ option_to_list token) }
{
    if let Some(token) = token {
        all.push(token)?;
    }
    Ok(())
}

/// The lexemes of a text, in order. The cost grows with its bytes.
#[tactic(auto, using(crate::proofs::TokenSteps::lexemes_go_on, crate::proofs::TokenSteps::within_more, crate::proofs::TokenSteps::lexemes_done))]
pub fn tokens(alloc: Global, bytes: &[u8]) -> Result<Vec<Token>, AllocError>
    requires { length bytes.now < 2 ^ 32 - 1 }
    ensures lexemes { IfOk result (λ v. map (lexeme_at bytes.now) v.items ≡ lexemes bytes.now) }
    ensures within { IfOk result (λ v. AreWithin bytes.now v.items) }
{
    let mut all = Vec::new(alloc);
    let mut at = 0;
    let mut line = 1;
    while at < bytes.len() {
        let (token, next, next_line) = step(bytes, at, line);
        note(&mut all, token)?;
        at = next;
        line = next_line;
    }
    Ok(all)
}
