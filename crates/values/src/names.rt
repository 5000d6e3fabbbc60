//! Names, principals, key IDs and namespaces.

ghost use Rattle.std.specs.Prelude.{◌≡◌, ◌==◌, position};
ghost use Rattle.std.specs.List.{list_all};
ghost use Rattle.values.specs.Names.{
  department_of,
  has_size,
  is_key_id,
  is_key_id_byte,
  is_key_id_end,
  is_lower_or_digit,
  is_name,
  is_name_byte,
  is_namespace,
  is_principal,
  is_principal_byte,
  name_of,
};

/// Whether there are `low` to `high` bytes.
pub(crate) fn has_size(text: &[u8], low: usize, high: usize) -> bool
    ensures { result ≡ has_size low high text.now }
{
    low <= text.len() && text.len() <= high
}

fn is_lower_or_digit(byte: u8) -> bool
    ensures { result ≡ is_lower_or_digit byte }
{
    matches!(byte, b'a'..=b'z' | b'0'..=b'9')
}

fn is_name_byte(byte: u8) -> bool
    ensures { result ≡ is_name_byte byte }
{
    is_lower_or_digit(byte) || byte == b'-'
}

fn is_principal_byte(byte: u8) -> bool
    ensures { result ≡ is_principal_byte byte }
{
    is_lower_or_digit(byte) || byte == b'.' || byte == b'_' || byte == b'@' || byte == b'-'
}

fn is_key_id_byte(byte: u8) -> bool
    ensures { result ≡ is_key_id_byte byte }
{
    byte.is_ascii_graphic()
}

/// Whether each byte is in the alphabet of names.
pub(crate) fn has_name_bytes(text: &[u8]) -> bool
    ensures { result ≡ list_all is_name_byte text.now }
{
    text.iter().all(|b| is_name_byte(*b))
}

/// Whether each byte is in the alphabet of principals.
pub(crate) fn has_principal_bytes(text: &[u8]) -> bool
    ensures { result ≡ list_all is_principal_byte text.now }
{
    text.iter().all(|b| is_principal_byte(*b))
}

fn has_key_id_bytes(text: &[u8]) -> bool
    ensures { result ≡ list_all is_key_id_byte text.now }
{
    text.iter().all(|b| is_key_id_byte(*b))
}

/// Whether the text names a caller, a request key or a department: 1 to 32 bytes of `a-z 0-9 -`.
pub fn is_name(text: &[u8]) -> bool
    ensures { result ≡ is_name text.now }
{
    has_size(text, 1, 32) && has_name_bytes(text)
}

/// Whether the text is a principal: 1 to 64 bytes of `a-z 0-9 . _ @ -`.
pub fn is_principal(text: &[u8]) -> bool
    ensures { result ≡ is_principal text.now }
{
    has_size(text, 1, 64) && has_principal_bytes(text)
}

/// Whether the text is a namespace of signatures: 1 to 32 bytes of `a-z 0-9 . _ @ -`.
pub fn is_namespace(text: &[u8]) -> bool
    ensures { result ≡ is_namespace text.now }
{
    has_size(text, 1, 32) && has_principal_bytes(text)
}

/// The position of the first `/`.
pub(crate) fn first_slash(text: &[u8]) -> Option<usize>
    ensures { result ≡ position (λ b. b == 47) text.now }
{
    text.iter().position(|b| *b == b'/')
}

/// The part of a key ID before the first `/`, or all of it if there is none.
pub fn department_of(key_id: &[u8]) -> &[u8]
    ensures { result.now ≡ department_of key_id.now }
{
    match first_slash(key_id) {
        Some(end) => &key_id[..end],
        None => key_id,
    }
}

/// The name in a key ID: what follows its first `/`, up to the next `/` or the end. It may be empty.
pub fn name_of(key_id: &[u8]) -> &[u8]
    ensures { result.now ≡ name_of key_id.now }
{
    let department = department_of(key_id);
    if department.len() < key_id.len() {
        department_of(&key_id[department.len() + 1..])
    } else {
        &key_id[key_id.len()..]
    }
}

fn is_key_id_end(text: &[u8]) -> bool
    ensures { result ≡ is_key_id_end text.now }
{
    match text {
        [b'/', rest @ ..] => has_size(rest, 1, 64) && has_key_id_bytes(rest),
        _ => false,
    }
}

/// Whether the text is a key ID: the name of a department, `/` and 1 to 64 bytes from 0x21 to 0x7e.
pub fn is_key_id(text: &[u8]) -> bool
    ensures { result ≡ is_key_id text.now }
{
    let department = department_of(text);
    is_name(department) && is_key_id_end(&text[department.len()..])
}
