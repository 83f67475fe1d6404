//! What a platform needs of a PIN/UV auth protocol.
use crate::platform::Failed;
use passkey_types::cose::CoseKey;
use std::alloc::Global;

/// A PIN/UV auth protocol, as platforms use it (CTAP 2.1, section 6.5.4). An implementation has the
/// cryptography, and fails with `Failed::Cryptography`.
pub trait PinUvAuthProtocol {
    /// Returns its number: 1 for protocol one (section 6.5.6), 2 for protocol two (6.5.7).
    fn number(&self) -> u8;

    /// `encapsulate`: makes a key pair, and returns its public key with the secret that it shares
    /// with the authenticator's key.
    fn encapsulate(&self, alloc: Global, peer: &CoseKey) -> Result<(CoseKey, Vec<u8>), Failed>;

    /// `encrypt`: encrypts the plaintext with the shared secret.
    fn encrypt(&self, alloc: Global, secret: &[u8], plaintext: &[u8]) -> Result<Vec<u8>, Failed>;

    /// `decrypt`: decrypts the ciphertext with the shared secret.
    fn decrypt(&self, alloc: Global, secret: &[u8], ciphertext: &[u8]) -> Result<Vec<u8>, Failed>;

    /// `authenticate`: returns a message authentication code of the message.
    fn authenticate(&self, alloc: Global, key: &[u8], message: &[u8]) -> Result<Vec<u8>, Failed>;
}
