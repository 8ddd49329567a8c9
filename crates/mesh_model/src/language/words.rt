//! Names: which words are some.

ghost use Rattle.std.specs.List.{list_all};
ghost use Rattle.std.specs.Prelude.{◌≡◌};
ghost use Rattle.mesh_model.specs.Language.Words as plain;

/// Whether the byte is a digit 0 to 9.
pub fn is_digit(b: u8) -> bool
    ensures { result ≡ plain.is_digit b }
{
    b >= b'0' && b <= b'9'
}

fn is_reserved(word: &[u8]) -> bool
    ensures { result ≡ plain.is_reserved word.now }
{
    word == b"mesh".as_slice()
        || word == b"tree".as_slice()
        || word == b"size".as_slice()
        || word == b"guards".as_slice()
        || word == b"ranks".as_slice()
        || word == b"trace".as_slice()
}

fn is_letter(b: u8) -> bool
    ensures { result ≡ plain.is_letter b }
{
    b >= b'a' && b <= b'z'
}

fn is_name_byte(b: u8) -> bool
    ensures { result ≡ plain.is_name_byte b }
{
    is_letter(b) || is_digit(b) || b == b'_'
}

fn all_name_bytes(bytes: &[u8]) -> bool
    ensures { result ≡ list_all plain.is_name_byte bytes.now }
{
    bytes.iter().all(|b| is_name_byte(*b))
}

/// Whether the word is a name: 1 to 16 bytes, a letter a to z and then such letters, digits and `_`,
/// and not reserved.
#[tactic(auto, unfolding(crate::specs::Language::Words::is_name))]
pub fn is_name(word: &[u8]) -> bool
    ensures { result ≡ plain.is_name word.now }
{
    word.len() >= 1
        && word.len() <= 16
        && is_letter(word[0])
        && all_name_bytes(word)
        && !is_reserved(word)
}
