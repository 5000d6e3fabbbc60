//! Critical options and extensions.

ghost use Rattle.std.specs.Prelude.{◌≡◌};
ghost use Rattle.std.specs.List.{list_any};
ghost use Rattle.std.specs.Str.{bytes_eq};
ghost use Rattle.values.specs.Options.{is_flag, is_known};

/// The two fields of a certificate that hold options (PROTOCOL.certkeys, "Critical options" and "Extensions").
#[derive(Clone, Copy, PartialEq, Eq)]
pub enum OptionField {
    /// A server that doesn't recognize one refuses the certificate.
    CriticalOptions,
    /// A server that doesn't recognize one ignores it.
    Extensions,
}

fn is_one_of(names: &[&[u8]], name: &[u8]) -> bool
    ensures { result ≡ list_any (λ n. bytes_eq n.now name.now) names.now }
{
    names.iter().any(|n| *n == name)
}

/// Whether a certificate may have an option with this name in the field.
pub fn is_known(field: OptionField, name: &[u8]) -> bool
    ensures { result ≡ is_known field name.now }
{
    match field {
        OptionField::CriticalOptions => is_one_of(
            &[b"force-command", b"source-address", b"verify-required"],
            name,
        ),
        OptionField::Extensions => is_one_of(
            &[
                b"no-touch-required",
                b"permit-X11-forwarding",
                b"permit-agent-forwarding",
                b"permit-port-forwarding",
                b"permit-pty",
                b"permit-user-rc",
            ],
            name,
        ),
    }
}

/// Whether an option with this name has no value.
pub fn is_flag(name: &[u8]) -> bool
    ensures { result ≡ is_flag name.now }
{
    name == b"verify-required".as_slice() || is_known(OptionField::Extensions, name)
}
