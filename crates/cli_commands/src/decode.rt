//! Shows bytes as messages or as a frame, field by field.

ghost use Rattle.std.specs.Prelude.{◌-◌, ◌^◌, ◌≡◌, ◌⊎◌, drop, false, if◌then◌else◌, IfErr, IfOk, IsErrOf, map, min, Ok};
ghost use Rattle.std.specs.Prelude.{OnOk, string_bytes, true};
ghost use Rattle.cli_commands.specs.DecodeWords.{faulty_word, has_only_digits, is_hexadecimal, is_option, joined};
ghost use Rattle.cli_commands.specs.DecodeWords.{plain_count};
ghost use Rattle.text_fields.specs.declared.print.Form.TheVariants.{Json, Text};
ghost use Rattle.text_script.specs.Status.Statuses.{status_of};
ghost use Rattle.text_script.specs.declared.status.fault.Fault.TheVariants.{Differs};

use crate::files::Files;
use std::alloc::{AllocError, Global};
use std::convert::AsStr;
use std::io::Write;
use text_fields::{Form, PrintFault, bytes_in, print_frame, print_messages};
use text_script::status::Fault;

/// The kind of the bytes, and the form of the print.
#[derive(Clone, Copy)]
pub struct Decoding {
    pub is_frame: bool,
    pub is_json: bool,
}

/// Prints the messages, or the frame, of bytes in hexadecimal. They are the words of the command besides its options.
/// A single other word names a file with them, and `-` is standard input. If a decoder refuses some of the bytes, all
/// of them are printed, and the fault is `Differs`.
pub fn decode<'a, S: AsStr, F: Files, O: Write>(
    alloc: Global,
    words: &'a [S],
    decoding: Decoding,
    files: &F,
    out: &mut O,
) -> Result<(), Fault<'a>>
    ensures { IfErr result (λ why. (status_of why ≡ 1) ⊎ (status_of why ≡ 2) ⊎ (status_of why ≡ 3)
        ⊎ (status_of why ≡ 5) ⊎ (status_of why ≡ 6)) }
{
    let bytes = given_bytes(alloc, words, files)?;
    let form = form_of(decoding);
    let done = if decoding.is_frame {
        print_frame(alloc, &bytes, form, out)
    } else {
        print_messages(alloc, &bytes, form, out)
    };
    result_of(done)
}

// The form of the print: `--json` asks for JSON.
fn form_of(decoding: Decoding) -> Form
    ensures { result ≡ (if decoding.is_json then Json else Text) }
{
    if decoding.is_json {
        Form::Json
    } else {
        Form::Text
    }
}

// The result of the command, by that of the print: whether a decoder took all bytes.
fn result_of(done: Result<bool, PrintFault>) -> Result<(), Fault<'static>>
    ensures ok { OnOk result (done ≡ Ok true) }
    ensures differs { done ≡ Ok false → IsErrOf result Differs }
    ensures status { IfErr result (λ why. (status_of why ≡ 1) ⊎ (status_of why ≡ 5) ⊎ (status_of why ≡ 6)) }
{
    match done {
        Ok(true) => Ok(()),
        Ok(false) => Err(Fault::Differs),
        Err(PrintFault::Memory) => Err(AllocError.into()),
        Err(PrintFault::Write) => Err(Fault::Write),
    }
}

// The bytes that the words are, or that are in the file which the only word names.
fn given_bytes<'a, S: AsStr, F: Files>(
    alloc: Global,
    words: &'a [S],
    files: &F,
) -> Result<Vec<u8>, Fault<'a>>
    ensures { IfErr result (λ why. (status_of why ≡ 2) ⊎ (status_of why ≡ 3) ⊎ (status_of why ≡ 5)) }
{
    match bytes_of_words(alloc, words)? {
        Some(bytes) => Ok(bytes),
        None => bytes_of_only_word(alloc, words, files),
    }
}

// The bytes that are in the file which the only word names.
fn bytes_of_only_word<'a, S: AsStr, F: Files>(
    alloc: Global,
    words: &'a [S],
    files: &F,
) -> Result<Vec<u8>, Fault<'a>>
    ensures { IfErr result (λ why. (status_of why ≡ 2) ⊎ (status_of why ≡ 3) ⊎ (status_of why ≡ 5)) }
{
    let word = faulty_word(words);
    if count_of(words) == 1 {
        bytes_of_file(alloc, word, files)
    } else {
        Err(Fault::NotHexadecimal(word))
    }
}

// The bytes of the words in hexadecimal, if they are that.
fn bytes_of_words<S: AsStr>(alloc: Global, words: &[S]) -> Result<Option<Vec<u8>>, AllocError> {
    let text = joined(alloc, words)?;
    bytes_in(alloc, text.as_str())
}

// The words besides the options, with a blank after each.
fn joined<S: AsStr>(alloc: Global, words: &[S]) -> Result<String, AllocError>
    ensures { IfOk result (λ text. string_bytes text ≡ joined (map S.text (drop 1 words.now))) }
{
    let mut text = String::new(alloc);
    for word in arguments(words) {
        let word = word.as_str();
        if !is_option(word) {
            text.push_str(word)?;
            text.push_str(" ")?;
        }
    }
    Ok(text)
}

// How many words there are besides the options.
fn count_of<S: AsStr>(words: &[S]) -> u32
    ensures { result ≡ min (plain_count (map S.text (drop 1 words.now))) (2 ^ 32 - 1) }
{
    let mut count = 0u32;
    for word in arguments(words) {
        if !is_option(word.as_str()) {
            count = count.saturating_add(1);
        }
    }
    count
}

// The words after the name of the command.
fn arguments<S>(words: &[S]) -> &[S]
    ensures { result.now ≡ drop 1 words.now }
{
    words.get(1..).unwrap_or(&[])
}

fn is_option(word: &str) -> bool
    ensures { result ≡ is_option word.now }
{
    word.as_bytes().starts_with(b"--")
}

// The first word that has another character than digits, or else the last word: then the number of digits is odd.
fn faulty_word<S: AsStr>(words: &[S]) -> &str
    ensures { result.now ≡ faulty_word (map S.text (drop 1 words.now)) }
{
    let mut last = "";
    for word in arguments(words) {
        let word = word.as_str();
        if !is_option(word) {
            last = word;
            if !is_hexadecimal(word) {
                break;
            }
        }
    }
    last
}

// Whether each part of a word between colons is hexadecimal.
fn is_hexadecimal(word: &str) -> bool
    ensures { result ≡ is_hexadecimal word.now }
{
    word.split(':').all(has_only_digits)
}

// Whether a part has only hexadecimal digits, after `0x` or without it.
fn has_only_digits(part: &str) -> bool
    ensures { result ≡ has_only_digits part.now }
{
    let bytes = part.as_bytes();
    let digits = bytes.strip_prefix(b"0x").unwrap_or(bytes);
    digits.iter().all(|digit| digit.is_ascii_hexdigit())
}

fn bytes_of_file<'a, F: Files>(
    alloc: Global,
    file: &'a str,
    files: &F,
) -> Result<Vec<u8>, Fault<'a>>
    ensures { IfErr result (λ why. (status_of why ≡ 3) ⊎ (status_of why ≡ 5)) }
{
    let Some(text) = files.text(file) else {
        return Err(Fault::CannotRead(file));
    };
    match bytes_in(alloc, text.as_str())? {
        Some(bytes) => Ok(bytes),
        None => Err(Fault::CannotRead(file)),
    }
}
