//! Law that joins `cert` of a script and `check`.
ghost use Rattle.bw_laws.specs.Cert.{CertIsAccepted};

/// Law: `check` accepts each answer of a script to `cert`, byte for byte.
pub fn cert_is_accepted()
    ensures { CertIsAccepted }
{}
