//! Laws about certified texts, each the contract of a function that does nothing.
ghost use Rattle.std.specs.Prelude.{◌≡◌, Ok};
ghost use Rattle.bw_cert.specs.Spelling.{Value, IsValue, text_lines, spelling};
ghost use Rattle.bw_cert.specs.Reading.{certified_of};

/// The spelling of a value is read as this value, and no other value has this spelling.
pub fn spelled_is_read()
    ensures again { (v : Value) → IsValue v → certified_of (text_lines (spelling v)) ≡ Ok v }
    ensures one { (v w : Value) → IsValue v → IsValue w → spelling v ≡ spelling w → v ≡ w }
{}
