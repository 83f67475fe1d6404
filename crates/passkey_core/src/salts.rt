//! The salts of the hmac-secret extension (CTAP 2.1, section 12.5).
ghost use Rattle.std.specs.Prelude.{◌≡◌, option_map, take};
ghost use Rattle.passkey_core.specs.Salts.{AreSalts, JoinsSalts, ReadsSalt, ReadsSalts, salts_of, second_salt};

use std::marker::Model;
use thiserror::Error;

/// One or two salts of 32 bytes: inputs of the hmac-secret extension, or its outputs for them (CTAP
/// 2.1, section 12.5).
#[derive(Debug, Clone, Drop)]
pub struct HmacSecretSaltOrOutput(Salts);

#[derive(Debug, Clone, Drop)]
enum Salts {
    One([u8; 32]),
    Two([u8; 64]),
}

impl Model for HmacSecretSaltOrOutput {
    ghost use Rattle.std.specs.Prelude.{ℕ, List};
    ghost use Rattle.passkey_core.specs.SaltsHeld.{salt_bytes, AreSized};

    ghost Value = { List ℕ };

    ghost view = { λ salts. salt_bytes salts.0 };

    ghost invariant = { λ salts. AreSized salts.0 };
}

impl HmacSecretSaltOrOutput {
    /// One or two salts.
    pub fn new(first: [u8; 32], second: Option<[u8; 32]>) -> HmacSecretSaltOrOutput
        ensures { result ≡ salts_of first second }
    {
        match second {
            None => HmacSecretSaltOrOutput(Salts::One(first)),
            Some(second) => {
                let mut both = [0; 64];
                let (front, back) = both.split_at_mut(32);
                front.copy_from_slice(&first);
                back.copy_from_slice(&second);
                HmacSecretSaltOrOutput(Salts::Two(both))
            }
        }
    }

    /// One or two salts from slices. `TryFromSliceError` if one of them doesn't have 32 bytes.
    pub fn try_new(
        first: &[u8],
        second: Option<&[u8]>,
    ) -> Result<HmacSecretSaltOrOutput, TryFromSliceError>
        ensures { JoinsSalts first.now (option_map (λ salt. salt.now) second.entry) result }
    {
        let first = salt(first)?;
        match second {
            None => Ok(HmacSecretSaltOrOutput::new(first, None)),
            Some(second) => Ok(HmacSecretSaltOrOutput::new(first, Some(salt(second)?))),
        }
    }

    /// The salts, one after the other: 32 or 64 bytes.
    pub fn as_slice(&self) -> &[u8]
        ensures value { result.now ≡ self.now }
        ensures length { AreSalts self.now }
    {
        match &self.0 {
            Salts::One(first) => first.as_slice(),
            Salts::Two(both) => both.as_slice(),
        }
    }

    /// The first salt, 32 bytes.
    pub fn first(&self) -> &[u8]
        ensures { result.now ≡ take 32 self.now }
    {
        let (first, _) = self.as_slice().split_at(32);
        first
    }

    /// The second salt, 32 bytes; `None` if there is only one.
    pub fn second(&self) -> Option<&[u8]>
        ensures { option_map (λ salt. salt.now) result ≡ second_salt self.now }
    {
        match &self.0 {
            Salts::One(_) => None,
            Salts::Two(both) => Some(both.split_at(32).1),
        }
    }
}

/// A salt of 32 bytes; an error for any other length.
fn salt(bytes: &[u8]) -> Result<[u8; 32], TryFromSliceError>
    ensures { ReadsSalt bytes.now result }
{
    match <[u8; 32]>::try_from(bytes) {
        Ok(salt) => Ok(salt),
        Err(_) => Err(TryFromSliceError),
    }
}

impl From<[u8; 32]> for HmacSecretSaltOrOutput {
    ghost from_gives = { λ bytes salts. salts ≡ bytes };

    fn from(first: [u8; 32]) -> HmacSecretSaltOrOutput {
        HmacSecretSaltOrOutput(Salts::One(first))
    }
}

impl From<[u8; 64]> for HmacSecretSaltOrOutput {
    ghost from_gives = { λ bytes salts. salts ≡ bytes };

    fn from(both: [u8; 64]) -> HmacSecretSaltOrOutput {
        HmacSecretSaltOrOutput(Salts::Two(both))
    }
}

impl TryFrom<&[u8]> for HmacSecretSaltOrOutput {
    type Error = TryFromSliceError;

    ghost try_from_gives = { λ bytes result. ReadsSalts bytes.now result };

    /// One salt from 32 bytes, two from 64. `TryFromSliceError` for any other length.
    fn try_from(bytes: &[u8]) -> Result<HmacSecretSaltOrOutput, TryFromSliceError> {
        if let Ok(first) = <[u8; 32]>::try_from(bytes) {
            return Ok(HmacSecretSaltOrOutput::from(first));
        }
        match <[u8; 64]>::try_from(bytes) {
            Ok(both) => Ok(HmacSecretSaltOrOutput::from(both)),
            Err(_) => Err(TryFromSliceError),
        }
    }
}

/// A slice doesn't have the length of a salt, or of one or two salts.
#[derive(Clone, Copy, Debug, Error, PartialEq, Eq)]
#[error("TryFromSliceError")]
pub struct TryFromSliceError;
