//! Repairs of the options that servers send.
ghost use Rattle.passkey_repair.specs.json.Tables.{creation_edits, request_edits};

use crate::json::deviation::Deviation;
use crate::json::repair::Repair;
use crate::json::repairs_json::PartRepairs;
use passkey_webauthn_json::options::{
    PublicKeyCredentialCreationOptions, PublicKeyCredentialRequestOptions,
};

impl PartRepairs for PublicKeyCredentialCreationOptions {
    ghost edits_around = { creation_edits };

    fn repairs_around() -> &'static [Repair] {
        &[
            Repair {
                deviation: Deviation::NullMember,
                within: &["publicKey"],
                member: "timeout",
            },
            Repair {
                deviation: Deviation::WholeFloat,
                within: &["publicKey"],
                member: "timeout",
            },
            Repair {
                deviation: Deviation::NullMember,
                within: &["publicKey", "authenticatorSelection"],
                member: "requireResidentKey",
            },
            Repair {
                deviation: Deviation::NoName,
                within: &["publicKey", "user"],
                member: "displayName",
            },
            Repair {
                deviation: Deviation::NoName,
                within: &["publicKey", "user"],
                member: "name",
            },
            Repair {
                deviation: Deviation::NoName,
                within: &["publicKey", "rp"],
                member: "name",
            },
            Repair {
                deviation: Deviation::EmptyArray,
                within: &["publicKey", "user"],
                member: "displayName",
            },
            Repair {
                deviation: Deviation::EmptyArray,
                within: &["publicKey", "user"],
                member: "name",
            },
            Repair {
                deviation: Deviation::EmptyArray,
                within: &["publicKey", "rp"],
                member: "name",
            },
        ]
    }
}

impl PartRepairs for PublicKeyCredentialRequestOptions {
    ghost edits_around = { request_edits };

    fn repairs_around() -> &'static [Repair] {
        &[
            Repair {
                deviation: Deviation::NullMember,
                within: &["publicKey"],
                member: "timeout",
            },
            Repair {
                deviation: Deviation::WholeFloat,
                within: &["publicKey"],
                member: "timeout",
            },
        ]
    }
}
