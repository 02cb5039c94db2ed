//! Names, and the bytes that they are made of.
ghost use Rattle.std.specs.Prelude.{◌≡◌};
ghost use Rattle.std.specs.List.{list_all};
ghost use Rattle.ncq_base.specs.Names.{is_space, is_pyx_name_byte, is_pyx_name, is_variable_start};
ghost use Rattle.ncq_base.specs.Names.{is_name_start, is_name_byte, is_name};

/// Whether the byte is white space: space, tab, line feed or carriage return.
pub fn is_space(byte: u8) -> bool
    ensures { result ≡ is_space byte }
{
    byte == b' ' || byte == b'\t' || byte == b'\n' || byte == b'\r'
}

/// Whether the text can be the name of an element or an attribute: not empty, with no white space
/// and no backslash.
pub fn is_pyx_name(text: &[u8]) -> bool
    ensures { result ≡ is_pyx_name text.now }
{
    !text.is_empty() && are_pyx_name_bytes(text)
}

/// Whether the text is a name in a statement: an ASCII letter, `_` or a byte from 128 on; then
/// these, digits, `-` and `:`.
pub fn is_name(text: &[u8]) -> bool
    ensures { result ≡ is_name text.now }
{
    match text.split_first() {
        Some((first, rest)) => is_name_start(*first) && are_name_bytes(rest),
        None => false,
    }
}

/// Whether a name in a statement can begin with the byte.
pub fn is_name_start(byte: u8) -> bool
    ensures { result ≡ is_name_start byte }
{
    is_variable_start(byte) || byte >= 128
}

/// Whether the byte can follow in a name in a statement.
pub fn is_name_byte(byte: u8) -> bool
    ensures { result ≡ is_name_byte byte }
{
    is_name_start(byte) || byte.is_ascii_digit() || byte == b'-' || byte == b':'
}

/// Whether the name of a variable can begin with the byte: an ASCII letter or `_`.
pub fn is_variable_start(byte: u8) -> bool
    ensures { result ≡ is_variable_start byte }
{
    byte.is_ascii_alphabetic() || byte == b'_'
}

fn are_name_bytes(text: &[u8]) -> bool
    ensures { result ≡ list_all is_name_byte text.now }
{
    text.iter().all(|b| is_name_byte(*b))
}

fn are_pyx_name_bytes(text: &[u8]) -> bool
    ensures { result ≡ list_all is_pyx_name_byte text.now }
{
    text.iter().all(|b| is_pyx_name_byte(*b))
}

fn is_pyx_name_byte(byte: u8) -> bool
    ensures { result ≡ is_pyx_name_byte byte }
{
    !(is_space(byte) || byte == b'\\')
}
