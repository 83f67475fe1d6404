//! Inputs and outputs of the client extension payment (W3C Secure Payment Confirmation).
ghost use Rattle.std.specs.Prelude.{◌≡◌, IfOk};
ghost use Rattle.passkey_client.specs.Payment.{browser_bound_signature, currency_amount, payment_entity_logo, payment_inputs};
ghost use Rattle.passkey_client.specs.Payment.{payment_instrument, payment_outputs};

use passkey_bytes::{Bytes, List, Text};
use passkey_json::{EncodeResult, JsonEncoder, JsonFault, Member, PlainJsonRecord, Row, place};
use passkey_memory::OutOfMemory;
use passkey_webauthn::PublicKeyCredentialParameters;
use std::alloc::{AllocError, Global};

/// An amount of money, `PaymentCurrencyAmount` (W3C Payment Request API). Nothing is checked of either
/// text.
#[derive(Debug, Drop)]
pub struct PaymentCurrencyAmount {
    /// currency: the currency's code, three letters (ISO 4217).
    pub currency: Text,
    /// value: the amount, a decimal number.
    pub value: Text,
}

impl PaymentCurrencyAmount {
    /// Returns an equal value. Returns `OutOfMemory` if an allocation fails.
    pub fn try_clone(&self, alloc: Global) -> Result<PaymentCurrencyAmount, OutOfMemory>
        ensures { IfOk result (λ copy. copy ≡ self.now) }
    {
        Ok(PaymentCurrencyAmount {
            currency: self.currency.try_clone(alloc)?,
            value: self.value.try_clone(alloc)?,
        })
    }
}

impl PlainJsonRecord for PaymentCurrencyAmount {
    ghost table = { currency_amount };

    fn rows() -> &'static [Row] {
        &[Row::Named(1, "currency"), Row::Named(2, "value")]
    }

    fn blank(alloc: Global) -> PaymentCurrencyAmount {
        PaymentCurrencyAmount {
            currency: Text::empty(alloc),
            value: Text::empty(alloc),
        }
    }

    fn put(&mut self, number: u8, member: &mut Member<'_>) -> Result<(), JsonFault> {
        match number {
            1 => place(&mut self.currency, member.required()),
            2 => place(&mut self.value, member.required()),
            _ => Ok(()),
        }
    }

    fn encode(&self, number: u8, encoder: JsonEncoder) -> EncodeResult {
        match number {
            1 => encoder.value(&self.currency),
            2 => encoder.value(&self.value),
            _ => Ok(None),
        }
    }
}

/// What the user pays with, `PaymentCredentialInstrument` (W3C Secure Payment Confirmation).
#[derive(Debug, Drop)]
pub struct PaymentCredentialInstrument {
    /// displayName: its name, for display.
    pub display_name: Text,
    /// icon: the URL of its icon. The URL isn't checked.
    pub icon: Text,
    /// iconMustBeShown: whether the payment fails if the icon can't be shown. The default is true.
    pub icon_must_be_shown: bool,
    /// details: more about it, for display. `None` means that the member is absent; null also decodes
    /// to `None`.
    pub details: Option<Text>,
}

impl PaymentCredentialInstrument {
    /// Returns an equal value. Returns `OutOfMemory` if an allocation fails.
    pub fn try_clone(&self, alloc: Global) -> Result<PaymentCredentialInstrument, OutOfMemory>
        ensures { IfOk result (λ copy. copy ≡ self.now) }
    {
        Ok(PaymentCredentialInstrument {
            display_name: self.display_name.try_clone(alloc)?,
            icon: self.icon.try_clone(alloc)?,
            icon_must_be_shown: self.icon_must_be_shown,
            details: copy_of(&self.details)?,
        })
    }
}

/// A logo that is shown beside a payment, `PaymentEntityLogo` (W3C Secure Payment Confirmation).
#[derive(Debug, Drop)]
pub struct PaymentEntityLogo {
    /// url: where the logo is. The URL isn't checked.
    pub url: Text,
    /// label: what it says, for those who don't see it.
    pub label: Text,
}

impl Clone for PaymentEntityLogo {
    ghost is_clone = { λ logo copy. copy ≡ logo };

    fn clone(&self) -> Result<PaymentEntityLogo, AllocError> {
        Ok(PaymentEntityLogo {
            url: self.url.clone()?,
            label: self.label.clone()?,
        })
    }
}

impl PlainJsonRecord for PaymentEntityLogo {
    ghost table = { payment_entity_logo };

    fn rows() -> &'static [Row] {
        &[Row::Named(1, "url"), Row::Named(2, "label")]
    }

    fn blank(alloc: Global) -> PaymentEntityLogo {
        PaymentEntityLogo {
            url: Text::empty(alloc),
            label: Text::empty(alloc),
        }
    }

    fn put(&mut self, number: u8, member: &mut Member<'_>) -> Result<(), JsonFault> {
        match number {
            1 => place(&mut self.url, member.required()),
            2 => place(&mut self.label, member.required()),
            _ => Ok(()),
        }
    }

    fn encode(&self, number: u8, encoder: JsonEncoder) -> EncodeResult {
        match number {
            1 => encoder.value(&self.url),
            2 => encoder.value(&self.label),
            _ => Ok(None),
        }
    }
}

/// Returns an equal value, if there is one.
pub(crate) fn copy_of<T: Clone>(value: &Option<T>) -> Result<Option<T>, OutOfMemory>
    ensures { ((x y : T) → T.is_clone x y → y ≡ x) → IfOk result (λ copy. copy ≡ value.now) }
{
    match value {
        Some(value) => Ok(Some(value.clone()?)),
        None => Ok(None),
    }
}

impl PlainJsonRecord for PaymentCredentialInstrument {
    ghost table = { payment_instrument };

    fn rows() -> &'static [Row] {
        &[
            Row::Named(1, "displayName"),
            Row::Named(2, "icon"),
            Row::Named(3, "iconMustBeShown"),
            Row::Named(4, "details"),
        ]
    }

    fn blank(alloc: Global) -> PaymentCredentialInstrument {
        PaymentCredentialInstrument {
            display_name: Text::empty(alloc),
            icon: Text::empty(alloc),
            icon_must_be_shown: true,
            details: None,
        }
    }

    fn put(&mut self, number: u8, member: &mut Member<'_>) -> Result<(), JsonFault> {
        match number {
            1 => place(&mut self.display_name, member.required()),
            2 => place(&mut self.icon, member.required()),
            3 => place(&mut self.icon_must_be_shown, member.or_default(true)),
            4 => place(&mut self.details, member.or_default(None)),
            _ => Ok(()),
        }
    }

    fn encode(&self, number: u8, encoder: JsonEncoder) -> EncodeResult {
        match number {
            1 => encoder.value(&self.display_name),
            2 => encoder.value(&self.icon),
            3 => encoder.value(&self.icon_must_be_shown),
            4 => encoder.optional(&self.details),
            _ => Ok(None),
        }
    }
}

/// Inputs of the client extension payment, `AuthenticationExtensionsPaymentInputs` (W3C Secure Payment
/// Confirmation). `None` means that the member is absent; null also decodes to `None`.
#[derive(Debug, Drop)]
pub struct PaymentInputs {
    /// isPayment: whether the credential is to be usable for payments.
    pub is_payment: Option<bool>,
    /// rpId: the relying party id of the credential, at a sign-in.
    pub rp_id: Option<Text>,
    /// topOrigin: the origin of the top-level page, at a sign-in.
    pub top_origin: Option<Text>,
    /// payeeName: the name of who is paid, at a sign-in.
    pub payee_name: Option<Text>,
    /// payeeOrigin: the origin of who is paid, at a sign-in.
    pub payee_origin: Option<Text>,
    /// total: the amount, at a sign-in.
    pub total: Option<PaymentCurrencyAmount>,
    /// instrument: what the user pays with, at a sign-in.
    pub instrument: Option<PaymentCredentialInstrument>,
    /// browserBoundPubKeyCredParams: the algorithms of a key that stays in the browser. Elements that
    /// are no parameters are dropped, and a value that is no array decodes to `None`.
    pub browser_bound_pub_key_cred_params: Option<List<PublicKeyCredentialParameters>>,
    /// paymentEntitiesLogos: the logos that are to be shown, at a sign-in.
    pub payment_entities_logos: Option<List<PaymentEntityLogo>>,
}

impl PlainJsonRecord for PaymentInputs {
    ghost table = { payment_inputs };

    fn rows() -> &'static [Row] {
        &[
            Row::Named(1, "isPayment"),
            Row::Named(2, "rpId"),
            Row::Named(3, "topOrigin"),
            Row::Named(4, "payeeName"),
            Row::Named(5, "payeeOrigin"),
            Row::Named(6, "total"),
            Row::Named(7, "instrument"),
            Row::Named(8, "browserBoundPubKeyCredParams"),
            Row::Named(9, "paymentEntitiesLogos"),
        ]
    }

    fn blank(_alloc: Global) -> PaymentInputs {
        PaymentInputs {
            is_payment: None,
            rp_id: None,
            top_origin: None,
            payee_name: None,
            payee_origin: None,
            total: None,
            instrument: None,
            browser_bound_pub_key_cred_params: None,
            payment_entities_logos: None,
        }
    }

    fn put(&mut self, number: u8, member: &mut Member<'_>) -> Result<(), JsonFault> {
        match number {
            1 => place(&mut self.is_payment, member.or_default(None)),
            2 => place(&mut self.rp_id, member.or_default(None)),
            3 => place(&mut self.top_origin, member.or_default(None)),
            4 => place(&mut self.payee_name, member.or_default(None)),
            5 => place(&mut self.payee_origin, member.or_default(None)),
            6 => place(&mut self.total, member.or_default(None)),
            7 => place(&mut self.instrument, member.or_default(None)),
            8 => place(
                &mut self.browser_bound_pub_key_cred_params,
                member.accepted_list(),
            ),
            9 => place(&mut self.payment_entities_logos, member.or_default(None)),
            _ => Ok(()),
        }
    }

    fn encode(&self, number: u8, encoder: JsonEncoder) -> EncodeResult {
        match number {
            1 => encoder.optional(&self.is_payment),
            2 => encoder.optional(&self.rp_id),
            3 => encoder.optional(&self.top_origin),
            4 => encoder.optional(&self.payee_name),
            5 => encoder.optional(&self.payee_origin),
            6 => encoder.optional(&self.total),
            7 => encoder.optional(&self.instrument),
            8 => encoder.optional(&self.browser_bound_pub_key_cred_params),
            9 => encoder.optional(&self.payment_entities_logos),
            _ => Ok(None),
        }
    }
}

/// The signature of a key that stays in the browser, `BrowserBoundSignature` (W3C Secure Payment
/// Confirmation).
#[derive(Debug, Drop)]
pub struct BrowserBoundSignature {
    /// signature: the signature, which isn't verified.
    pub signature: Bytes,
}

impl PlainJsonRecord for BrowserBoundSignature {
    ghost table = { browser_bound_signature };

    fn rows() -> &'static [Row] {
        &[Row::Named(1, "signature")]
    }

    fn blank(alloc: Global) -> BrowserBoundSignature {
        BrowserBoundSignature {
            signature: Bytes::empty(alloc),
        }
    }

    fn put(&mut self, number: u8, member: &mut Member<'_>) -> Result<(), JsonFault> {
        if number == 1 {
            self.signature = member.required()?;
        }
        Ok(())
    }

    fn encode(&self, number: u8, encoder: JsonEncoder) -> EncodeResult {
        match number {
            1 => encoder.value(&self.signature),
            _ => Ok(None),
        }
    }
}

/// Outputs of the client extension payment, `AuthenticationExtensionsPaymentOutputs` (W3C Secure Payment
/// Confirmation). `None` means that the member is absent; null also decodes to `None`.
#[derive(Debug, Drop)]
pub struct PaymentOutputs {
    /// browserBoundSignature: the signature of a key that stays in the browser.
    pub browser_bound_signature: Option<BrowserBoundSignature>,
}

impl PlainJsonRecord for PaymentOutputs {
    ghost table = { payment_outputs };

    fn rows() -> &'static [Row] {
        &[Row::Named(1, "browserBoundSignature")]
    }

    fn blank(_alloc: Global) -> PaymentOutputs {
        PaymentOutputs {
            browser_bound_signature: None,
        }
    }

    fn put(&mut self, number: u8, member: &mut Member<'_>) -> Result<(), JsonFault> {
        if number == 1 {
            self.browser_bound_signature = member.or_default(None)?;
        }
        Ok(())
    }

    fn encode(&self, number: u8, encoder: JsonEncoder) -> EncodeResult {
        match number {
            1 => encoder.optional(&self.browser_bound_signature),
            _ => Ok(None),
        }
    }
}
