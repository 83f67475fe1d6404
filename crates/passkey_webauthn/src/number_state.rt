//! The states of reading a number's text.
ghost use Rattle.std.specs.Prelude.{◌≡◌, ℕ, false, List, [], ◌∷◌};
ghost use Rattle.passkey_webauthn.specs.NumberState.{number_64, whole_after};
ghost use Rattle.passkey_webauthn.specs.declared.number_state.NumberState.TheVariants.{Whole, Fraction};

/// A sign and the digits after it.
#[derive(Clone, Copy)]
pub(crate) struct Digits {
    is_negative: bool,

    /// The value of the digits before the point.
    whole: u64,

    /// Whether there is a digit, before or after the point.
    has_digit: bool,
}

/// The state of the text so far.
#[derive(Clone, Copy)]
pub(crate) enum NumberState {
    Empty,
    /// A sign, digits or both.
    Whole(Digits),
    /// The same, then a point, and possibly digits after it.
    Fraction(Digits),
    /// The text is no number, or its whole part doesn't fit, whatever follows.
    Refused,
}

/// `i64::MAX / 10`: no digit fits after a greater value.
const MOST: u64 = 922_337_203_685_477_580;

impl Digits {
    // Only a sign.
    fn sign(is_negative: bool) -> Digits
        ensures { result ≡ record { is_negative = is_negative; whole = 0; has_digit = false } }
    {
        Digits {
            is_negative,
            whole: 0,
            has_digit: false,
        }
    }

    // Adds a digit before the point, or the point.
    fn push_whole(self, byte: u8) -> NumberState
        ensures { (more : List ℕ) → whole_after (Whole self) (byte ∷ more) ≡ whole_after result more }
    {
        if byte == b'.' {
            return NumberState::Fraction(self);
        }
        if !byte.is_ascii_digit() || self.whole > MOST {
            return NumberState::Refused;
        }
        NumberState::Whole(Digits {
            is_negative: self.is_negative,
            whole: self.whole * 10 + u64::from(byte - b'0'),
            has_digit: true,
        })
    }

    // Adds a digit after the point.
    fn push_fraction(self, byte: u8) -> NumberState
        ensures { (more : List ℕ) → whole_after (Fraction self) (byte ∷ more) ≡ whole_after result more }
    {
        if !byte.is_ascii_digit() {
            return NumberState::Refused;
        }
        NumberState::Fraction(Digits {
            is_negative: self.is_negative,
            whole: self.whole,
            has_digit: true,
        })
    }

    // The number with this sign and whole part, if there is a digit and it fits in 64 bits.
    fn number(self) -> Option<i64>
        ensures { result ≡ number_64 self.has_digit self.is_negative self.whole }
    {
        if !self.has_digit {
            return None;
        }
        if self.is_negative {
            0_i64.checked_sub_unsigned(self.whole)
        } else {
            i64::try_from(self.whole).ok()
        }
    }
}

impl NumberState {
    /// The state after one more byte.
    pub(crate) fn push(self, byte: u8) -> NumberState
        ensures { (more : List ℕ) → whole_after self (byte ∷ more) ≡ whole_after result more }
    {
        match self {
            NumberState::Empty => match byte {
                b'-' => NumberState::Whole(Digits::sign(true)),
                b'+' => NumberState::Whole(Digits::sign(false)),
                _ => Digits::sign(false).push_whole(byte),
            },
            NumberState::Whole(digits) => digits.push_whole(byte),
            NumberState::Fraction(digits) => digits.push_fraction(byte),
            NumberState::Refused => NumberState::Refused,
        }
    }

    /// The whole part, if the text ends here.
    pub(crate) fn whole(self) -> Option<i64>
        ensures { result ≡ whole_after self [] }
    {
        match self {
            NumberState::Whole(digits) | NumberState::Fraction(digits) => digits.number(),
            NumberState::Empty | NumberState::Refused => None,
        }
    }
}
