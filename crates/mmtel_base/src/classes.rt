//! Classes of bytes.
ghost use Rattle.std.specs.Prelude.{◌≡◌};
ghost use Rattle.std.specs.List.{list_all};
ghost use Rattle.mmtel_base.specs.Classes.{in_class, is_token};

/// A class of bytes, named after what is written with it.
#[derive(Clone, Copy)]
pub enum Class {
    /// `ALPHA` (RFC 3261 §25.1).
    Letter,
    /// `DIGIT` (RFC 3261 §25.1).
    Digit,
    /// A byte of a token (RFC 3261 §25.1).
    Token,
    /// A byte of a host: a letter, a digit, `-` or `.`.
    Host,
    /// A byte of the user or the header part of a sip URI: visible, and none of `"`, `<`, `>` and `@`.
    User,
    /// A digit or a visual separator of a telephone number (RFC 3966 §3).
    Phone,
    /// A byte of the name of a scheme after its first letter (RFC 3261 §25.1).
    SchemeRest,
    /// Space or tab.
    Blank,
    /// A byte of a display name of words: a byte of a token, or a blank.
    Display,
    /// A byte of a URI in angle brackets: visible, and none of `"`, `<` and `>`.
    UriByte,
    /// A byte of a URI without brackets: as in brackets, and none of `,`, `;` and `?` (RFC 3261 §20).
    BareByte,
}

/// At the place of each byte of a token this byte, and at every other place a comma.
static TOKENS: [u8; 256] = *b"\
    ,,,,,,,,,,,,,,,,,,,,,,,,,,,,,,,,\
    ,!,,,%,',,*+,-.,0123456789,,,,,,\
    ,ABCDEFGHIJKLMNOPQRSTUVWXYZ,,,,_\
    `abcdefghijklmnopqrstuvwxyz,,,~,\
    ,,,,,,,,,,,,,,,,,,,,,,,,,,,,,,,,\
    ,,,,,,,,,,,,,,,,,,,,,,,,,,,,,,,,\
    ,,,,,,,,,,,,,,,,,,,,,,,,,,,,,,,,\
    ,,,,,,,,,,,,,,,,,,,,,,,,,,,,,,,,";

fn is_token_byte(byte: u8) -> bool
    ensures { result ≡ is_token byte }
{
    TOKENS[byte as usize] != b','
}

impl Class {
    /// Whether a byte is of the class.
    #[tactic(auto, unfolding(crate::specs::Classes::in_class))]
    pub fn has(self, byte: u8) -> bool
        ensures { result ≡ in_class self byte }
    {
        let letter = byte.is_ascii_alphabetic();
        let digit = byte.is_ascii_digit();
        match self {
            Class::Letter => letter,
            Class::Digit => digit,
            Class::Token => is_token_byte(byte),
            Class::Blank => byte == b' ' || byte == b'\t',
            Class::Display => byte == b' ' || byte == b'\t' || is_token_byte(byte),
            Class::UriByte => {
                33 <= byte && byte <= 126 && byte != b'"' && byte != b'<' && byte != b'>'
            }
            Class::BareByte => {
                33 <= byte
                    && byte <= 126
                    && byte != b'"'
                    && byte != b'<'
                    && byte != b'>'
                    && byte != b','
                    && byte != b';'
                    && byte != b'?'
            }
            Class::Host => letter || digit || byte == b'-' || byte == b'.',
            Class::User => {
                33 <= byte
                    && byte <= 126
                    && byte != b'"'
                    && byte != b'<'
                    && byte != b'>'
                    && byte != b'@'
            }
            Class::Phone => digit || byte == b'(' || byte == b')' || byte == b'-' || byte == b'.',
            Class::SchemeRest => { letter || digit || byte == b'+' || byte == b'-' || byte == b'.' }
        }
    }
}

/// Whether each byte is of the class.
pub fn is_all(class: Class, bytes: &[u8]) -> bool
    ensures { result ≡ list_all (in_class class) bytes.now }
{
    bytes.iter().all(|byte| class.has(*byte))
}
