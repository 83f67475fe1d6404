//! The repairs of each message.
ghost use Rattle.passkey_repair.specs.messages.Tables.{credential_request_edits, credential_response_edits, get_response_edits};
ghost use Rattle.passkey_repair.specs.messages.Tables.{make_request_edits, make_response_edits};

use crate::messages::{Change, Deviation, Key, Literal, Repair, Repairable};
use passkey_commands::credential_management as credential_management;
use passkey_ctap2::{get_assertion as get_assertion, make_credential as make_credential};

static MAKE_REQUEST: [Repair; 7] = [
    Repair {
        deviation: Deviation::AbsentName,
        path: &[Key::Number(3, "user")],
        change: Change::Add("name", "id", Literal::EmptyText),
    },
    Repair {
        deviation: Deviation::AbsentName,
        path: &[Key::Number(3, "user")],
        change: Change::Add("displayName", "id", Literal::EmptyText),
    },
    Repair {
        deviation: Deviation::NullName,
        path: &[Key::Number(3, "user"), Key::Name("name")],
        change: Change::Replace(Literal::Null, Literal::EmptyText),
    },
    Repair {
        deviation: Deviation::NullName,
        path: &[Key::Number(3, "user"), Key::Name("displayName")],
        change: Change::Replace(Literal::Null, Literal::EmptyText),
    },
    Repair {
        deviation: Deviation::EmptyArrayAsText,
        path: &[Key::Number(3, "user"), Key::Name("name")],
        change: Change::Replace(Literal::EmptyArray, Literal::EmptyText),
    },
    Repair {
        deviation: Deviation::EmptyArrayAsText,
        path: &[Key::Number(3, "user"), Key::Name("displayName")],
        change: Change::Replace(Literal::EmptyArray, Literal::EmptyText),
    },
    Repair {
        deviation: Deviation::EmptyArrayAsText,
        path: &[Key::Number(2, "rp"), Key::Name("name")],
        change: Change::Replace(Literal::EmptyArray, Literal::EmptyText),
    },
];

/// A user's names that are absent, null or an empty array, and an empty array for a relying party's name.
impl Repairable for make_credential::Request {
    ghost edits = { make_request_edits };

    fn repairs() -> &'static [Repair] {
        &MAKE_REQUEST
    }
}

static MAKE_RESPONSE: [Repair; 3] = [
    Repair {
        deviation: Deviation::NullEnabled,
        path: &[Key::Number(6, "unsignedExtensionOutputs"), Key::Name("prf")],
        change: Change::LeaveOut("enabled", Literal::Null),
    },
    Repair {
        deviation: Deviation::PrfWithoutEnabled,
        path: &[Key::Number(6, "unsignedExtensionOutputs"), Key::Name("prf")],
        change: Change::Add("enabled", "results", Literal::True),
    },
    Repair {
        deviation: Deviation::EmptyPrf,
        path: &[Key::Number(6, "unsignedExtensionOutputs")],
        change: Change::LeaveOut("prf", Literal::EmptyMap),
    },
];

/// Results of prf without `enabled` or with null for it, and outputs of prf without results.
impl Repairable for make_credential::Response {
    ghost edits = { make_response_edits };

    fn repairs() -> &'static [Repair] {
        &MAKE_RESPONSE
    }
}

static GET_RESPONSE: [Repair; 3] = [
    Repair {
        deviation: Deviation::EmptyArrayAsText,
        path: &[Key::Number(4, "user"), Key::Name("name")],
        change: Change::Replace(Literal::EmptyArray, Literal::EmptyText),
    },
    Repair {
        deviation: Deviation::EmptyArrayAsText,
        path: &[Key::Number(4, "user"), Key::Name("displayName")],
        change: Change::Replace(Literal::EmptyArray, Literal::EmptyText),
    },
    Repair {
        deviation: Deviation::EmptyPrf,
        path: &[Key::Number(8, "unsignedExtensionOutputs")],
        change: Change::LeaveOut("prf", Literal::EmptyMap),
    },
];

/// Empty arrays for a user's names, and outputs of prf without results.
impl Repairable for get_assertion::Response {
    ghost edits = { get_response_edits };

    fn repairs() -> &'static [Repair] {
        &GET_RESPONSE
    }
}

static CREDENTIAL_REQUEST: [Repair; 2] = [
    Repair {
        deviation: Deviation::EmptyArrayAsText,
        path: &[
            Key::Number(2, "subCommandParams"),
            Key::Number(3, "user"),
            Key::Name("name"),
        ],
        change: Change::Replace(Literal::EmptyArray, Literal::EmptyText),
    },
    Repair {
        deviation: Deviation::EmptyArrayAsText,
        path: &[
            Key::Number(2, "subCommandParams"),
            Key::Number(3, "user"),
            Key::Name("displayName"),
        ],
        change: Change::Replace(Literal::EmptyArray, Literal::EmptyText),
    },
];

/// Empty arrays for a user's names.
impl Repairable for credential_management::Request {
    ghost edits = { credential_request_edits };

    fn repairs() -> &'static [Repair] {
        &CREDENTIAL_REQUEST
    }
}

static CREDENTIAL_RESPONSE: [Repair; 3] = [
    Repair {
        deviation: Deviation::EmptyArrayAsText,
        path: &[Key::Number(3, "rp"), Key::Name("name")],
        change: Change::Replace(Literal::EmptyArray, Literal::EmptyText),
    },
    Repair {
        deviation: Deviation::EmptyArrayAsText,
        path: &[Key::Number(6, "user"), Key::Name("name")],
        change: Change::Replace(Literal::EmptyArray, Literal::EmptyText),
    },
    Repair {
        deviation: Deviation::EmptyArrayAsText,
        path: &[Key::Number(6, "user"), Key::Name("displayName")],
        change: Change::Replace(Literal::EmptyArray, Literal::EmptyText),
    },
];

/// Empty arrays for the names of a relying party and a user.
impl Repairable for credential_management::Response {
    ghost edits = { credential_response_edits };

    fn repairs() -> &'static [Repair] {
        &CREDENTIAL_RESPONSE
    }
}
