// The words the program was started with.
ghost use Rattle.std.specs.Prelude.{◌≡◌, ◌≢◌, ◌⊎◌, drop, IfOk, IfErr, IsOkAnd};

use rnlp_cli::ToolStatus;
use std::env;
use std::io::ErrorKind;
use std::rt::Env;

/// All that the program was started with, its name first. No contract can say which words an environment holds.
///
/// # Errors
///
/// Why there are none: `InvalidData` if a word is not UTF-8, or `OutOfMemory`.
pub fn given_words<R: Env + AllocGlobal>(rt: &R) -> Result<Vec<String>, ErrorKind> {
    match env::args(rt) {
        Ok(args) => match args.collect(rt.alloc()) {
            Ok(all) => Ok(all),
            Err(_) => Err(ErrorKind::OutOfMemory),
        },
        Err(e) => Err(e.kind()),
    }
}

/// The words after the program's name, out of all that it was started with.
///
/// # Errors
///
/// The status if there are none: wrong words if one is not UTF-8, and otherwise out of memory.
pub fn words_of(given: Result<Vec<String>, ErrorKind>) -> Result<Vec<String>, ToolStatus>
    ensures words { IfOk given (λ all. IsOkAnd result (λ words. words.items ≡ drop 1 all.items)) }
    ensures no_text { IfErr given (λ kind. kind ≡ ErrorKind.InvalidData → result ≡ Err ToolStatus.Words) }
    ensures other { IfErr given (λ kind. kind ≢ ErrorKind.InvalidData → result ≡ Err ToolStatus.NoMemory) }
    ensures status { IfErr result (λ status. (status ≡ ToolStatus.Words) ⊎ (status ≡ ToolStatus.NoMemory)) }
{
    match given {
        Ok(all) => Ok(behind_name(all)),
        Err(kind) => Err(status_without_words(kind)),
    }
}

// All words but the first, which is the program's name.
fn behind_name(all: Vec<String>) -> Vec<String>
    ensures { result.items ≡ drop 1 all.items }
{
    let mut words = all;
    if !words.is_empty() {
        words.remove(0);
    }
    words
}

// The status if there are no words: words that are not UTF-8 are wrong.
fn status_without_words(kind: ErrorKind) -> ToolStatus
    ensures no_text { kind ≡ ErrorKind.InvalidData → result ≡ ToolStatus.Words }
    ensures other { kind ≢ ErrorKind.InvalidData → result ≡ ToolStatus.NoMemory }
{
    match kind {
        ErrorKind::InvalidData => ToolStatus::Words,
        _ => ToolStatus::NoMemory,
    }
}
