//! The lists of a definition: a contract sees each as its items.
ghost use Rattle.std.specs.Prelude.{◌≡◌};

use pg_wire::PmuKey;
use std::marker::Model;

/// The text of a stream's header frame (C37.118.2, 6.5: ASCII), as its bytes. Any bytes may stand here: it is
/// `check_definition` that refuses a text of more than 1,024 bytes, or with a byte above 127.
#[derive(Drop)]
pub struct HeaderText {
    bytes: Vec<u8>,
}

impl Model for HeaderText {
    ghost use Rattle.std.specs.Prelude.{List, ℕ};

    ghost Value = { List ℕ };

    ghost view = { λ h. h.bytes.items };
}

impl HeaderText {
    /// The text of these bytes; takes no memory.
    pub fn new(bytes: Vec<u8>) -> Self
        ensures value { result ≡ bytes.items }
    {
        HeaderText { bytes }
    }

    /// Its bytes.
    pub fn as_slice(&self) -> &[u8]
        ensures value { result.now ≡ self.now }
    {
        self.bytes.as_slice()
    }

    /// Its bytes, given back; takes no memory.
    pub fn into_vec(self) -> Vec<u8>
        ensures value { result.items ≡ self }
    {
        self.bytes
    }
}

/// The PMUs of a stream, in the order in which its frames have their blocks. Any keys may stand here: it is
/// `check_definition` that refuses none, more than 32, or a key that stands there twice.
#[derive(Drop)]
pub struct Members {
    keys: Vec<PmuKey>,
}

impl Model for Members {
    ghost use Rattle.std.specs.Prelude.{List};
    ghost use Rattle.pg_wire.specs.declared.ids.PmuKey.{PmuKey};

    ghost Value = { List PmuKey };

    ghost view = { λ m. m.keys.items };
}

impl Members {
    /// The members with these keys, in this order; takes no memory.
    pub fn new(keys: Vec<PmuKey>) -> Self
        ensures value { result ≡ keys.items }
    {
        Members { keys }
    }

    /// Their keys, in order.
    pub fn as_slice(&self) -> &[PmuKey]
        ensures value { result.now ≡ self.now }
    {
        self.keys.as_slice()
    }

    /// Their keys, given back in order; takes no memory.
    pub fn into_vec(self) -> Vec<PmuKey>
        ensures value { result.items ≡ self }
    {
        self.keys
    }
}
