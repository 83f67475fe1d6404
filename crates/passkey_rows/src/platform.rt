//! A platform that obtains a pinUvAuthToken, over a transport and a PIN/UV auth protocol that show what
//! they are given.
use crate::hexadecimal::{decode, encode};
use crate::setting::first_word;
use passkey_examples::platform::{
    Failed, PinUvAuthProtocol, Transport, credentials_request, token_by_pin,
};
use passkey_rewrite::RunFault;
use passkey_types::cose::{CoseError, CoseKey};
use passkey_types::ctap2::client_pin::Permissions;
use passkey_types::ctap2::{Fault, WriteFault};
use passkey_types::{OutOfMemory, Text};
use std::alloc::Global;

/// A protocol without cryptography: the shared secret is one byte, 0x55, the platform's key is that of
/// the authenticator, and what is encrypted, decrypted or authenticated is shown after its secret or
/// key.
struct Shown;

fn joined(alloc: Global, secret: &[u8], bytes: &[u8]) -> Result<Vec<u8>, Failed> {
    let mut all = Vec::from_slice(alloc, secret).or(Err(Failed::Memory(OutOfMemory)))?;
    all.extend_from_slice(bytes)
        .or(Err(Failed::Memory(OutOfMemory)))?;
    Ok(all)
}

impl PinUvAuthProtocol for Shown {
    fn number(&self) -> u8 {
        2
    }

    fn encapsulate(&self, alloc: Global, peer: &CoseKey) -> Result<(CoseKey, Vec<u8>), Failed> {
        let key = peer.try_clone(alloc)?;
        Ok((key, joined(alloc, &[0x55], &[])?))
    }

    fn encrypt(&self, alloc: Global, secret: &[u8], plaintext: &[u8]) -> Result<Vec<u8>, Failed> {
        joined(alloc, secret, plaintext)
    }

    fn decrypt(&self, alloc: Global, secret: &[u8], ciphertext: &[u8]) -> Result<Vec<u8>, Failed> {
        joined(alloc, secret, ciphertext)
    }

    fn authenticate(&self, alloc: Global, key: &[u8], message: &[u8]) -> Result<Vec<u8>, Failed> {
        joined(alloc, key, message)
    }
}

/// An authenticator that sends these responses, words in hexadecimal, one after the other, and notes
/// the requests.
#[derive(Drop)]
struct Answers<'a> {
    left: &'a str,
    requests: String,
}

impl<'a> Answers<'a> {
    fn answer(&mut self, alloc: Global, request: &[u8]) -> Result<Vec<u8>, RunFault> {
        self.requests.push_str(encode(alloc, request)?.as_str())?;
        self.requests.push(' ')?;
        let (response, left) = first_word(self.left);
        self.left = left;
        decode(alloc, response)
    }
}

impl<'a> Transport for Answers<'a> {
    fn send(&mut self, alloc: Global, request: &[u8]) -> Result<Vec<u8>, Failed> {
        match self.answer(alloc, request) {
            Ok(response) => Ok(response),
            Err(RunFault::OutOfMemory) => Err(Failed::Memory(OutOfMemory)),
            Err(_) => Err(Failed::Transport),
        }
    }
}

/// Returns why it failed, unless memory ran out.
fn failure(alloc: Global, failed: &Failed) -> Result<String, RunFault> {
    let no_memory = match failed {
        Failed::Response(fault) => *fault == Fault::OutOfMemory,
        Failed::Key(error) => *error == CoseError::OutOfMemory,
        Failed::Request(fault) => *fault == WriteFault::OutOfMemory,
        Failed::Memory(_) => true,
        _ => false,
    };
    if no_memory {
        return Err(RunFault::OutOfMemory);
    }
    Ok(format!(in alloc; "{failed}")?)
}

/// Returns the bytes in hexadecimal, or why there are none.
fn outcome(alloc: Global, bytes: Result<Vec<u8>, Failed>) -> Result<String, RunFault> {
    match bytes {
        Ok(bytes) => encode(alloc, &bytes),
        Err(failed) => failure(alloc, &failed),
    }
}

/// `PIN RESPONSE ..`: the requests that are sent for a token, and the token.
fn token(alloc: Global, input: &str) -> Result<String, RunFault> {
    let (pin, left) = first_word(input);
    let mut authenticator = Answers {
        left,
        requests: String::new(alloc),
    };
    let rp_id = Text::from_str(alloc, "example.org")?;
    let permissions = Permissions::CREDENTIAL_MANAGEMENT;
    let token = token_by_pin(
        alloc,
        &mut authenticator,
        &Shown,
        pin,
        permissions,
        Some(rp_id),
    );
    let mut text = authenticator.requests;
    text.push_str(outcome(alloc, token)?.as_str())?;
    Ok(text)
}

/// `TOKEN ID`: the request for the credentials of a relying party.
fn credentials(alloc: Global, input: &str) -> Result<String, RunFault> {
    let (token, rp_id) = first_word(input);
    let token = decode(alloc, token)?;
    outcome(alloc, credentials_request(alloc, &Shown, &token, rp_id))
}

/// Returns the output of a row of such a kind. Returns `None` if it isn't a row of such a kind.
pub fn platform_row(alloc: Global, name: &str, input: &str) -> Option<Result<String, RunFault>> {
    match name {
        "token" => Some(token(alloc, input)),
        "credentials-request" => Some(credentials(alloc, input)),
        _ => None,
    }
}
