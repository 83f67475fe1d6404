//! The program's arguments.
ghost use Rattle.std.specs.Prelude.{◌≡◌, ◌≢◌, ◌⊎◌, [], ◌∷◌, IfOk, IfErr, length, map, string_bytes};
ghost use Rattle.passkey_rewrite.specs.declared.fault.RunFault.TheVariants.{UnknownKind, OutOfMemory};

use crate::fault::RunFault;
use std::env;
use std::io::ErrorKind;
use std::rt::Env;

/// Returns the program's arguments. Returns `UnknownKind` if one of them isn't UTF-8, and
/// `OutOfMemory` if an allocation fails.
pub fn read_words(rt: &(impl Env + AllocGlobal)) -> Result<Vec<String>, RunFault>
    ensures { IfErr result (λ fault. (fault ≡ UnknownKind) ⊎ (fault ≡ OutOfMemory)) }
{
    let arguments = match env::args(rt) {
        Ok(arguments) => arguments,
        Err(error) if error.kind() == ErrorKind::OutOfMemory => return Err(RunFault::OutOfMemory),
        Err(_) => return Err(RunFault::UnknownKind),
    };
    let mut words = Vec::new(rt.alloc());
    for word in arguments.skip(1) {
        words.push(word)?;
    }
    Ok(words)
}

/// Returns the only argument, which should be the name of a kind. Returns `UnknownKind` exactly if
/// there isn't exactly one argument.
pub fn kind_of(words: &[String]) -> Result<&str, RunFault>
    ensures one { IfOk result (λ word. map string_bytes words.now ≡ word.now ∷ []) }
    ensures other { IfErr result (λ fault. (fault ≡ UnknownKind) × (length words.now ≢ 1)) }
{
    match words {
        [word] => Ok(word.as_str()),
        _ => Err(RunFault::UnknownKind),
    }
}
