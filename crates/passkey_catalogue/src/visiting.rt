//! The dispatches over all kinds.
ghost use Rattle.passkey_catalogue.specs.Catalogue.{ctap_definition, definition};
ghost use Rattle.passkey_catalogue.specs.ClientKinds.{client_definition};
ghost use Rattle.passkey_catalogue.specs.JsonTexts.{any_json_definition};

use crate::any_json_kind::AnyJsonKind;
use crate::client_kind::ClientKind;
use crate::ctap_kind::CtapKind;
use crate::form::Form;
use crate::kind::Kind;
use passkey_attestation::AttestationFormat;
use passkey_client as client;
use passkey_commands::{bio_enrollment, client_pin, config, credential_management, large_blobs};
use passkey_registered::{self as registered, extensions};
use passkey_rewrite::{JsonVisitor, Visitor, visit_bytes};
use passkey_webauthn_json::options::{
    PublicKeyCredentialCreationOptions, PublicKeyCredentialRequestOptions,
};

/// Makes the call of `$visitor` for what bytes of this kind are. A macro, since the methods of what is
/// no `Visitor` may want more of a message; its names are those of where it is called.
#[macro_export]
macro_rules! of_ctap_kind {
    ($kind:expr, $visitor:expr) => {
        match $kind {
            CtapKind::PinRequest => $visitor.visit_message::<client_pin::Request>(),
            CtapKind::PinResponse => $visitor.visit_message::<client_pin::Response>(),
            CtapKind::BioRequest => $visitor.visit_message::<bio_enrollment::Request>(),
            CtapKind::BioResponse => $visitor.visit_message::<bio_enrollment::Response>(),
            CtapKind::CredentialRequest => $visitor.visit_message::<credential_management::Request>(),
            CtapKind::CredentialResponse => $visitor.visit_message::<credential_management::Response>(),
            CtapKind::BlobsRequest => $visitor.visit_message::<large_blobs::Request>(),
            CtapKind::BlobsResponse => $visitor.visit_message::<large_blobs::Response>(),
            CtapKind::BlobsEntry => $visitor.visit_message::<large_blobs::LargeBlob>(),
            CtapKind::ConfigRequest => $visitor.visit_message::<config::Request>(),
            CtapKind::ConfigMinPinLength => $visitor.visit_message::<config::MinPinLengthParameters>(),
            CtapKind::ConfigVendor => $visitor.visit_message::<config::VendorParameters>(),
            CtapKind::Key => $visitor.visit_other(Form::Key),
            CtapKind::Info23 => $visitor.visit_message::<registered::get_info::Response>(),
            CtapKind::MakeInputs => $visitor.visit_message::<extensions::make_credential::ExtensionInputs>(),
            CtapKind::MakeOutputs => $visitor.visit_message::<extensions::make_credential::SignedExtensionOutputs>(),
            CtapKind::MakeUnsigned => $visitor.visit_message::<extensions::make_credential::UnsignedExtensionOutputs>(),
            CtapKind::GetInputs => $visitor.visit_message::<extensions::get_assertion::ExtensionInputs>(),
            CtapKind::GetOutputs => $visitor.visit_message::<extensions::get_assertion::SignedExtensionOutputs>(),
            CtapKind::GetUnsigned => $visitor.visit_message::<extensions::get_assertion::UnsignedExtensionOutputs>(),
            CtapKind::PackedStatement => $visitor.visit_other(Form::Statement(AttestationFormat::Packed)),
            CtapKind::TpmStatement => $visitor.visit_other(Form::Statement(AttestationFormat::Tpm)),
            CtapKind::AndroidKeyStatement => $visitor.visit_other(Form::Statement(AttestationFormat::AndroidKey)),
            CtapKind::SafetyNetStatement => $visitor.visit_other(Form::Statement(AttestationFormat::AndroidSafetyNet)),
            CtapKind::FidoU2fStatement => $visitor.visit_other(Form::Statement(AttestationFormat::FidoU2f)),
            CtapKind::NoneStatement => $visitor.visit_other(Form::Statement(AttestationFormat::None)),
            CtapKind::AppleStatement => $visitor.visit_other(Form::Statement(AttestationFormat::Apple)),
            CtapKind::CompoundStatement => $visitor.visit_other(Form::Statement(AttestationFormat::Compound)),
            CtapKind::CertInfo => $visitor.visit_other(Form::CertInfo),
            CtapKind::PubArea => $visitor.visit_other(Form::PubArea),
            CtapKind::CtapMakeRequest => $visitor.visit_message::<registered::make_credential::Request>(),
            CtapKind::CtapGetRequest => $visitor.visit_message::<registered::get_assertion::Request>(),
            CtapKind::CtapMakeResponse => $visitor.visit_message::<registered::make_credential::Response>(),
            CtapKind::CtapGetResponse => $visitor.visit_message::<registered::get_assertion::Response>(),
            CtapKind::AttestationObject => $visitor.visit_message::<registered::make_credential::AttestationObject>(),
        }
    };
}

/// Does it with an input of this kind.
pub fn visit<V: Visitor<Other = Form>>(kind: Kind, visitor: V) -> V::Output
    ensures { V.Gives visitor (definition kind) result }
{
    match kind {
        Kind::Bytes(kind) => visit_bytes(kind, visitor),
        Kind::Json(kind) => visitor.visit_other(Form::Json(AnyJsonKind::Ceremony(kind))),
        Kind::Ctap(kind) => visit_ctap_kind(kind, visitor),
        Kind::Client(kind) => visitor.visit_other(Form::Json(AnyJsonKind::Client(kind))),
    }
}

fn visit_ctap_kind<V: Visitor<Other = Form>>(kind: CtapKind, visitor: V) -> V::Output
    ensures { V.Gives visitor (ctap_definition kind) result }
{
    of_ctap_kind!(kind, visitor)
}

/// Does it with a JSON text of this kind.
pub fn visit_json<V: JsonVisitor>(kind: AnyJsonKind, visitor: V) -> V::Output
    ensures { V.Gives visitor (any_json_definition kind) result }
{
    match kind {
        AnyJsonKind::Ceremony(kind) => passkey_rewrite::visit_json(kind, visitor),
        AnyJsonKind::Client(kind) => visit_client_kind(kind, visitor),
    }
}

fn visit_client_kind<V: JsonVisitor>(kind: ClientKind, visitor: V) -> V::Output
    ensures { V.Gives visitor (client_definition kind) result }
{
    match kind {
        ClientKind::UnknownCredential => visitor.visit_record::<client::UnknownCredentialOptions>(),
        ClientKind::AcceptedCredentials => visitor.visit_record::<
            client::AllAcceptedCredentialsOptions,
        >(),
        ClientKind::UserDetails => visitor.visit_record::<client::CurrentUserDetailsOptions>(),
        ClientKind::ClientInputs => visitor.visit_record::<client::ClientExtensionInputs>(),
        ClientKind::ClientOutputs => visitor.visit_record::<client::ClientExtensionOutputs>(),
        ClientKind::MediatedCreation => visitor.visit_record::<
            client::MediatedOptions<PublicKeyCredentialCreationOptions>,
        >(),
        ClientKind::MediatedRequest => visitor.visit_record::<
            client::MediatedOptions<PublicKeyCredentialRequestOptions>,
        >(),
        ClientKind::TopOrigin => visitor.visit_client_data::<client::TopOrigin>(),
        ClientKind::Payment => visitor.visit_client_data::<client::PaymentData>(),
        ClientKind::Capabilities => visitor.visit_object::<client::ClientCapabilities>(
            "capabilities",
        ),
    }
}
