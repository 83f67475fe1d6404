//! The payment that the user confirmed, another member of client data.
ghost use Rattle.passkey_client.specs.PaymentData.{additional_payment_data, is_creation, is_payment, payment_in, payment_members};
ghost use Rattle.passkey_client.specs.PaymentData.{payment_members_are_extra, payment_takes, registration_payment_data};
ghost use Rattle.std.specs.Prelude.{◌≡◌, IfOk};

use crate::payment::{
    PaymentCredentialInstrument, PaymentCurrencyAmount, PaymentEntityLogo, copy_of,
};
use passkey_bytes::{Bytes, List, Text};
use passkey_json::{
    BytesForm, EncodeResult, JsonEncoder, JsonFault, Member, Object, PlainJsonRecord, Row, ToJson,
    place,
};
use passkey_memory::OutOfMemory;
use passkey_webauthn_json::client_data::{ClientDataExtra, ClientDataType};
use serde_json::Value;
use std::alloc::Global;

/// The payment that the user confirmed, `CollectedClientAdditionalPaymentData` (W3C Secure Payment
/// Confirmation). `None` means that the member is absent; null also decodes to `None`.
#[derive(Debug, Drop)]
pub struct AdditionalPaymentData {
    /// rpId: the relying party id of the credential.
    pub rp_id: Text,
    /// topOrigin: the origin of the top-level page.
    pub top_origin: Text,
    /// payeeName: the name of who is paid.
    pub payee_name: Option<Text>,
    /// payeeOrigin: the origin of who is paid.
    pub payee_origin: Option<Text>,
    /// total: the amount that was shown.
    pub total: PaymentCurrencyAmount,
    /// instrument: what the user pays with, as it was shown.
    pub instrument: PaymentCredentialInstrument,
    /// paymentEntitiesLogos: the logos that were shown.
    pub payment_entities_logos: Option<List<PaymentEntityLogo>>,
    /// browserBoundPublicKey: the COSE key whose signature is `browserBoundSignature` of the outputs.
    pub browser_bound_public_key: Option<Bytes>,
}

impl AdditionalPaymentData {
    /// Returns an equal value. Returns `OutOfMemory` if an allocation fails.
    pub fn try_clone(&self, alloc: Global) -> Result<AdditionalPaymentData, OutOfMemory>
        ensures { IfOk result (λ copy. copy ≡ self.now) }
    {
        Ok(AdditionalPaymentData {
            rp_id: self.rp_id.try_clone(alloc)?,
            top_origin: self.top_origin.try_clone(alloc)?,
            payee_name: copy_of(&self.payee_name)?,
            payee_origin: copy_of(&self.payee_origin)?,
            total: self.total.try_clone(alloc)?,
            instrument: self.instrument.try_clone(alloc)?,
            payment_entities_logos: copy_of(&self.payment_entities_logos)?,
            browser_bound_public_key: copy_of(&self.browser_bound_public_key)?,
        })
    }
}

impl PlainJsonRecord for AdditionalPaymentData {
    ghost table = { additional_payment_data };

    fn rows() -> &'static [Row] {
        &[
            Row::Named(1, "rpId"),
            Row::Named(2, "topOrigin"),
            Row::Named(3, "payeeName"),
            Row::Named(4, "payeeOrigin"),
            Row::Named(5, "total"),
            Row::Named(6, "instrument"),
            Row::Named(7, "paymentEntitiesLogos"),
            Row::Named(8, "browserBoundPublicKey"),
        ]
    }

    fn blank(alloc: Global) -> AdditionalPaymentData {
        AdditionalPaymentData {
            rp_id: Text::empty(alloc),
            top_origin: Text::empty(alloc),
            payee_name: None,
            payee_origin: None,
            total: PaymentCurrencyAmount::blank(alloc),
            instrument: PaymentCredentialInstrument::blank(alloc),
            payment_entities_logos: None,
            browser_bound_public_key: None,
        }
    }

    fn put(&mut self, number: u8, member: &mut Member<'_>) -> Result<(), JsonFault> {
        match number {
            1 => place(&mut self.rp_id, member.required()),
            2 => place(&mut self.top_origin, member.required()),
            3 => place(&mut self.payee_name, member.or_default(None)),
            4 => place(&mut self.payee_origin, member.or_default(None)),
            5 => place(&mut self.total, member.required()),
            6 => place(&mut self.instrument, member.required()),
            7 => place(&mut self.payment_entities_logos, member.or_default(None)),
            8 => place(&mut self.browser_bound_public_key, member.or_default(None)),
            _ => Ok(()),
        }
    }

    fn encode(&self, number: u8, encoder: JsonEncoder) -> EncodeResult {
        match number {
            1 => encoder.value(&self.rp_id),
            2 => encoder.value(&self.top_origin),
            3 => encoder.optional(&self.payee_name),
            4 => encoder.optional(&self.payee_origin),
            5 => encoder.value(&self.total),
            6 => encoder.value(&self.instrument),
            7 => encoder.optional(&self.payment_entities_logos),
            8 => encoder.optional(&self.browser_bound_public_key),
            _ => Ok(None),
        }
    }
}

/// What client data say of a payment at a registration,
/// `CollectedClientAdditionalPaymentRegistrationData` (W3C Secure Payment Confirmation). `None` means
/// that the member is absent; null also decodes to `None`.
#[derive(Debug, Drop)]
pub struct RegistrationPaymentData {
    /// browserBoundPublicKey: the COSE key that stays in the browser.
    pub browser_bound_public_key: Option<Bytes>,
}

impl PlainJsonRecord for RegistrationPaymentData {
    ghost table = { registration_payment_data };

    fn rows() -> &'static [Row] {
        &[Row::Named(1, "browserBoundPublicKey")]
    }

    fn blank(_alloc: Global) -> RegistrationPaymentData {
        RegistrationPaymentData {
            browser_bound_public_key: None,
        }
    }

    fn put(&mut self, number: u8, member: &mut Member<'_>) -> Result<(), JsonFault> {
        if number == 1 {
            self.browser_bound_public_key = member.or_default(None)?;
        }
        Ok(())
    }

    fn encode(&self, number: u8, encoder: JsonEncoder) -> EncodeResult {
        match number {
            1 => encoder.optional(&self.browser_bound_public_key),
            _ => Ok(None),
        }
    }
}

/// `payment` of client data (W3C Secure Payment Confirmation), by the client data's type.
#[derive(Debug, Drop)]
pub enum PaymentData {
    /// The member is absent.
    Absent,
    /// Of the type `webauthn.create`.
    Registration(RegistrationPaymentData),
    /// Of the other types: what the user confirmed.
    Confirmed(AdditionalPaymentData),
}

fn is_creation(ty: Option<ClientDataType>) -> bool
    ensures { result ≡ is_creation ty }
{
    matches!(ty, Some(ClientDataType::Create))
}

impl ClientDataExtra for PaymentData {
    ghost has = { is_payment };

    ghost reads = { payment_in };

    ghost takes = { payment_takes };

    ghost written = { payment_members };

    fn is_member(name: &str) -> bool {
        name == "payment"
    }

    #[tactic(auto, unfolding(passkey_json::specs::Members::if_present))]
    fn from_object(object: &Object<'_>) -> Result<PaymentData, JsonFault> {
        let ty = object.member("type").if_present()?;
        if is_creation(ty) {
            let payment = object.member("payment").if_present()?;
            Ok(payment.map_or(PaymentData::Absent, PaymentData::Registration))
        } else {
            let payment = object.member("payment").if_present()?;
            Ok(payment.map_or(PaymentData::Absent, PaymentData::Confirmed))
        }
    }

    fn members(&self, alloc: Global) -> Result<Vec<(String, Value)>, OutOfMemory> {
        let mut members = Vec::new(alloc);
        let value = match self {
            PaymentData::Absent => return Ok(members),
            PaymentData::Registration(payment) => payment.to_json(alloc, BytesForm::Base64Url)?,
            PaymentData::Confirmed(payment) => payment.to_json(alloc, BytesForm::Base64Url)?,
        };
        members.push((String::from_str(alloc, "payment")?, value))?;
        Ok(members)
    }

    ghost members_are_extra = { payment_members_are_extra };

    fn try_clone(&self, alloc: Global) -> Result<PaymentData, OutOfMemory> {
        match self {
            PaymentData::Absent => Ok(PaymentData::Absent),
            PaymentData::Registration(payment) => {
                let key = copy_of(&payment.browser_bound_public_key)?;
                Ok(PaymentData::Registration(RegistrationPaymentData {
                    browser_bound_public_key: key,
                }))
            }
            PaymentData::Confirmed(payment) => {
                Ok(PaymentData::Confirmed(payment.try_clone(alloc)?))
            }
        }
    }
}
