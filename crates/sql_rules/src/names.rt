//! Whether bytes are a name.

ghost use Rattle.std.specs.Prelude.{◌≡◌};
ghost use Rattle.std.specs.List.{list_all};
ghost use Rattle.identifiers.specs.Texts.{is_account_number, is_digit, is_reference};
ghost use Rattle.identifiers.specs.Texts.{is_session_id, is_visible, is_voucher_code};

fn all_visible(bytes: &[u8]) -> bool
    ensures { result ≡ list_all is_visible bytes.now }
{
    bytes.iter().all(|b| 0x21 <= *b && *b <= 0x7E)
}

fn all_digits(bytes: &[u8]) -> bool
    ensures { result ≡ list_all is_digit bytes.now }
{
    bytes.iter().all(|b| b'0' <= *b && *b <= b'9')
}

/// Whether they are the number of an account.
pub(crate) fn is_account_number(bytes: &[u8]) -> bool
    ensures { result ≡ is_account_number bytes.now }
{
    1 <= bytes.len() && bytes.len() <= 15 && all_digits(bytes)
}

/// Whether they are the name of a session (Session-Id, RFC 6733 section 8.8).
pub(crate) fn is_session_id(bytes: &[u8]) -> bool
    ensures { result ≡ is_session_id bytes.now }
{
    1 <= bytes.len() && bytes.len() <= 128 && all_visible(bytes)
}

/// Whether they are the reference of an operator's command.
pub(crate) fn is_reference(bytes: &[u8]) -> bool
    ensures { result ≡ is_reference bytes.now }
{
    1 <= bytes.len() && bytes.len() <= 64 && all_visible(bytes)
}

/// Whether they are the code of a voucher.
pub(crate) fn is_voucher_code(bytes: &[u8]) -> bool
    ensures { result ≡ is_voucher_code bytes.now }
{
    bytes.len() == 12 && all_digits(bytes)
}
