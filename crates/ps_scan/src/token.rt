//! Tokens, and why a text has none.
ghost use Rattle.std.specs.Prelude.{◌≡◌, ◌∷◌, ◌++◌, [], OnOk, OnErr, IfOk};

use press_fault::{Mem, Name};
use press_nums::{Fix, Whole};
use std::alloc::Global;
use std::marker::Model;

/// The most bytes of a string.
pub const TEXT_LIMIT: usize = 65535;

/// The bytes of a string.
#[derive(Drop)]
pub struct TokenBytes {
    bytes: Vec<u8>,
}

impl Model for TokenBytes {
    ghost use Rattle.std.specs.Prelude.{List, ℕ};

    ghost Value = { List ℕ };

    ghost view = { λ s. s.bytes.items };
}

impl TokenBytes {
    /// No bytes.
    pub fn new(alloc: Global) -> Self
        ensures { result ≡ [] }
    {
        TokenBytes {
            bytes: Vec::new(alloc),
        }
    }

    /// No bytes, and room for so many.
    pub(crate) fn with_room(alloc: Global, room: usize) -> Mem<Self>
        ensures { IfOk result (λ bytes. bytes ≡ []) }
    {
        Ok(TokenBytes {
            bytes: Vec::with_capacity(alloc, room)?,
        })
    }

    /// Adds a byte at the end. Out of memory leaves the list as before.
    pub fn push(&mut self, item: u8) -> Mem<()>
        ensures ok { OnOk result (self.new ≡ self.old ++ item ∷ []) }
        ensures err { OnErr result (self.new ≡ self.old) }
    {
        self.bytes.push(item)?;
        Ok(())
    }

    /// The bytes, in order.
    pub fn items(&self) -> &[u8]
        ensures { result.now ≡ self.now }
    {
        &self.bytes
    }

    /// The bytes as a vector. Nothing is copied.
    pub fn into_vec(self) -> Vec<u8>
        ensures { result.items ≡ self }
    {
        let TokenBytes { bytes } = self;
        bytes
    }
}

/// A token of a program (PostScript Language Reference, third edition, 3.2 Syntax).
#[derive(Drop)]
pub enum Token {
    /// An integer, or a radix number.
    Int(Whole),
    /// A real.
    Real(Fix),
    /// `/name`.
    Literal(Name),
    /// An executable name. `[`, `]`, `<<` and `>>` are names too.
    Exec(Name),
    /// `//name`, a name that is looked up at once.
    Now(Name),
    /// A string in `( )` or `< >`: the bytes that it stands for.
    Text(TokenBytes),
    /// `{`.
    Open,
    /// `}`.
    Close,
    /// The end of the program, which is met again each time.
    End,
}

/// Why no token was given.
#[derive(Clone, Copy, Debug, PartialEq, Eq)]
pub enum ScanFault {
    /// An unclosed string or procedure, a lone `)`, `>` or `}`, another byte in `< >`, or `<~`.
    Syntax,
    /// A number out of its range or with too many digits, a name of over 127 bytes, a string of
    /// over 65,535 bytes, or a `{` where 64 procedures are open.
    Limit,
    /// Out of memory for a string's bytes.
    NoMemory,
}

/// The token at the front of a text and how many bytes it takes, or why there is none.
pub(crate) type FrontToken = Result<(Token, usize), ScanFault>;
