//! What the layers say of JSON values (RFC 8259): definitions alone, over those of `serde_json`.
#![tactic(auto)]
