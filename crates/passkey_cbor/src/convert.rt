//! Values from numbers, booleans and strings.
ghost use Rattle.std.specs.Prelude.{◌≡◌, ◌↔◌, pos, string_bytes, IsOk, IfOk, IfErr};
ghost use Rattle.passkey_cbor.specs.Item as item;
ghost use Rattle.passkey_cbor.specs.Ranges.{IsInteger};
ghost use Rattle.passkey_cbor.specs.View.{item_of};
ghost use Rattle.passkey_cbor.specs.declared.error.CborError.TheVariants.{OutOfRangeIntegerValue};

use crate::error::CborError;
use crate::float::Float;
use crate::integer::Integer;
use crate::simple::Simple;
use crate::value::Value;
use passkey_memory::OutOfMemory;
use std::alloc::Global;

impl Value {
    /// Returns a text string with a copy of the text. `OutOfMemory` if the allocation fails.
    pub fn from_text(alloc: Global, text: &str) -> Result<Value, OutOfMemory>
        ensures { IfOk result (λ v. item_of v ≡ item.text_string text.now) }
    {
        Ok(Value::Text(String::from_str(alloc, text)?))
    }

    /// Returns a byte string with a copy of the bytes. `OutOfMemory` if the allocation fails.
    pub fn from_bytes(alloc: Global, bytes: &[u8]) -> Result<Value, OutOfMemory>
        ensures { IfOk result (λ v. item_of v ≡ item.byte_string bytes.now) }
    {
        Ok(Value::Bytes(Vec::from_slice(alloc, bytes)?))
    }
}

impl From<bool> for Value {
    ghost from_gives = { λ b v. item_of v ≡ item.boolean b };

    fn from(b: bool) -> Value {
        Value::Bool(b)
    }
}

impl From<Integer> for Value {
    ghost from_gives = { λ n v. item_of v ≡ item.number n };

    fn from(n: Integer) -> Value {
        Value::Integer(n)
    }
}

impl From<Simple> for Value {
    ghost from_gives = { λ n v. item_of v ≡ item.simple n };

    fn from(n: Simple) -> Value {
        Value::Simple(n)
    }
}

impl From<Float> for Value {
    ghost from_gives = { λ f v. item_of v ≡ item.float f };

    fn from(f: Float) -> Value {
        Value::Float(f)
    }
}

impl From<String> for Value {
    ghost from_gives = { λ text v. item_of v ≡ item.text_string (string_bytes text) };

    fn from(text: String) -> Value {
        Value::Text(text)
    }
}

impl From<Vec<u8>> for Value {
    ghost from_gives = { λ bytes v. item_of v ≡ item.byte_string bytes.items };

    fn from(bytes: Vec<u8>) -> Value {
        Value::Bytes(bytes)
    }
}

impl From<u64> for Value {
    ghost from_gives = { λ n v. item_of v ≡ item.number (pos n) };

    fn from(n: u64) -> Value {
        Value::Integer(Integer::unsigned(n))
    }
}

impl From<u32> for Value {
    ghost from_gives = { λ n v. item_of v ≡ item.number (pos n) };

    fn from(n: u32) -> Value {
        Value::from(u64::from(n))
    }
}

impl From<u16> for Value {
    ghost from_gives = { λ n v. item_of v ≡ item.number (pos n) };

    fn from(n: u16) -> Value {
        Value::from(u64::from(n))
    }
}

impl From<u8> for Value {
    ghost from_gives = { λ n v. item_of v ≡ item.number (pos n) };

    fn from(n: u8) -> Value {
        Value::from(u64::from(n))
    }
}

impl From<i64> for Value {
    ghost from_gives = { λ n v. item_of v ≡ item.number n };

    fn from(n: i64) -> Value {
        Value::Integer(Integer::signed(n))
    }
}

impl From<i32> for Value {
    ghost from_gives = { λ n v. item_of v ≡ item.number n };

    fn from(n: i32) -> Value {
        Value::from(i64::from(n))
    }
}

impl From<i16> for Value {
    ghost from_gives = { λ n v. item_of v ≡ item.number n };

    fn from(n: i16) -> Value {
        Value::from(i64::from(n))
    }
}

impl From<i8> for Value {
    ghost from_gives = { λ n v. item_of v ≡ item.number n };

    fn from(n: i8) -> Value {
        Value::from(i64::from(n))
    }
}

impl TryFrom<i128> for Value {
    type Error = CborError;

    ghost try_from_gives = { λ n result.
        (IsOk result ↔ IsInteger n)
        × IfOk result (λ v. item_of v ≡ item.number n)
        × IfErr result (λ e. e ≡ OutOfRangeIntegerValue) };

    /// The integer. `OutOfRangeIntegerValue` if it is below -2^64 or above 2^64 - 1.
    fn try_from(n: i128) -> Result<Value, CborError> {
        Ok(Value::Integer(Integer::new(n)?))
    }
}

impl TryFrom<u128> for Value {
    type Error = CborError;

    ghost try_from_gives = { λ n result.
        (IsOk result ↔ IsInteger (pos n))
        × IfOk result (λ v. item_of v ≡ item.number (pos n))
        × IfErr result (λ e. e ≡ OutOfRangeIntegerValue) };

    /// The integer. `OutOfRangeIntegerValue` if it is above 2^64 - 1.
    fn try_from(n: u128) -> Result<Value, CborError> {
        match u64::try_from(n) {
            Ok(n) => Ok(Value::from(n)),
            Err(_) => Err(CborError::OutOfRangeIntegerValue),
        }
    }
}
