//! Small types over text and bytes, which contracts see as lists of bytes.

use std::marker::Model;

/// The name of a slot: 1 to `NAME_MAX` printable ASCII bytes (32 to 126) without `/`.
#[derive(Debug, Drop)]
pub struct Name {
    text: String,
}

impl Model for Name {
    ghost use Rattle.std.specs.Prelude.{List, ℕ, string_bytes};
    ghost use Rattle.qo_values.specs.Names.{IsName};

    ghost Value = { List ℕ };

    ghost view = { λ n. string_bytes n.text };

    ghost invariant = { λ n. IsName (string_bytes n.text) };
}

impl Name {
    ghost use Rattle.std.specs.Prelude.{◌≡◌, string_bytes};
    ghost use Rattle.qo_values.specs.Names.{IsName};

    /// The name that a text is. It takes no memory.
    pub fn from_string(text: String) -> Name
        requires { IsName (string_bytes text) }
        ensures { result ≡ string_bytes text }
    {
        Name { text }
    }

    /// The name's text. It takes no memory.
    pub fn as_str(&self) -> &str
        ensures value { result.now ≡ self.now }
        ensures name { IsName self.now }
    {
        self.text.as_str()
    }
}

/// A text in UTF-8, of any length.
#[derive(Debug, Drop)]
pub struct Text {
    text: String,
}

impl Model for Text {
    ghost use Rattle.std.specs.Prelude.{List, ℕ, string_bytes};

    ghost Value = { List ℕ };

    ghost view = { λ t. string_bytes t.text };
}

impl Text {
    ghost use Rattle.std.specs.Prelude.{◌≡◌, string_bytes};

    /// The text that a string is. It takes no memory.
    pub fn from_string(text: String) -> Text
        ensures { result ≡ string_bytes text }
    {
        Text { text }
    }

    /// The text as a string slice. It takes no memory.
    pub fn as_str(&self) -> &str
        ensures { result.now ≡ self.now }
    {
        self.text.as_str()
    }
}

/// A list of texts.
#[derive(Debug, Drop)]
pub struct TextList {
    texts: Vec<Text>,
}

impl Model for TextList {
    ghost use Rattle.std.specs.Prelude.{List, ℕ};

    ghost Value = { List (List ℕ) };

    ghost view = { λ t. t.texts.items };
}

impl TextList {
    ghost use Rattle.std.specs.Prelude.{◌≡◌};

    /// The texts of a vector. It takes no memory.
    pub fn from_vec(texts: Vec<Text>) -> TextList
        ensures { result ≡ texts.items }
    {
        TextList { texts }
    }

    /// The texts as a slice. It takes no memory.
    pub fn as_slice(&self) -> &[Text]
        ensures { result.now ≡ self.now }
    {
        self.texts.as_slice()
    }
}

/// A list of bytes, such as a message.
#[derive(Debug, Drop)]
pub struct Chars {
    bytes: Vec<u8>,
}

impl Model for Chars {
    ghost use Rattle.std.specs.Prelude.{List, ℕ};

    ghost Value = { List ℕ };

    ghost view = { λ c. c.bytes.items };
}

impl Chars {
    ghost use Rattle.std.specs.Prelude.{◌≡◌};

    /// The bytes of a vector. It takes no memory.
    pub fn from_vec(bytes: Vec<u8>) -> Chars
        ensures { result ≡ bytes.items }
    {
        Chars { bytes }
    }

    /// The bytes as a slice. It takes no memory.
    pub fn as_slice(&self) -> &[u8]
        ensures { result.now ≡ self.now }
    {
        self.bytes.as_slice()
    }
}
