//! Repairs of the credentials that browsers return.
ghost use Rattle.passkey_repair.specs.json.Tables.{assertion_edits, registration_edits};

use crate::json::deviation::Deviation;
use crate::json::repair::Repair;
use crate::json::repairs_json::PartRepairs;
use passkey_webauthn_json::credentials::{
    AuthenticatorAssertionResponse, AuthenticatorAttestationResponse,
};

impl PartRepairs for AuthenticatorAttestationResponse {
    ghost edits_around = { registration_edits };

    fn repairs_around() -> &'static [Repair] {
        &[
            Repair {
                deviation: Deviation::NullMember,
                within: &["response"],
                member: "authenticatorData",
            },
            Repair {
                deviation: Deviation::NullMember,
                within: &["response"],
                member: "publicKeyAlgorithm",
            },
            Repair {
                deviation: Deviation::NoAuthenticatorData,
                within: &["response"],
                member: "authenticatorData",
            },
            Repair {
                deviation: Deviation::NoKeyAlgorithm,
                within: &["response"],
                member: "publicKeyAlgorithm",
            },
            Repair {
                deviation: Deviation::WholeFloat,
                within: &["response"],
                member: "publicKeyAlgorithm",
            },
            Repair {
                deviation: Deviation::UnknownTransport,
                within: &["response"],
                member: "transports",
            },
            Repair {
                deviation: Deviation::NullOutputs,
                within: &[],
                member: "clientExtensionResults",
            },
            Repair {
                deviation: Deviation::RenamedOutputs,
                within: &[],
                member: "clientExtensionResults",
            },
        ]
    }
}

impl PartRepairs for AuthenticatorAssertionResponse {
    ghost edits_around = { assertion_edits };

    fn repairs_around() -> &'static [Repair] {
        &[Repair {
            deviation: Deviation::NullOutputs,
            within: &[],
            member: "clientExtensionResults",
        }]
    }
}
