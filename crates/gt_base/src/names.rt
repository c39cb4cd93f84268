//! Names of roles, users, permissions, periods and limits.
ghost use Rattle.std.specs.Prelude.{◌≡◌, ◌↔◌, true, IsSome, IfSome};
ghost use Rattle.std.specs.List.{list_all};
ghost use Rattle.gt_base.specs.Names.{is_letter, is_name_byte, is_name};

use crate::limits::LONGEST_NAME;
use std::marker::Model;

/// A name: 1 to 32 bytes, of which the first is a letter and the others are letters, digits, `_`,
/// `-` or `.`. It is seen as the list of its bytes.
#[derive(Clone, Copy, PartialEq, Eq, Hash)]
pub struct Name {
    bytes: [u8; LONGEST_NAME],
    len: u8,
}

impl Model for Name {
    ghost use Rattle.std.specs.Prelude.{ℕ, ◌-◌, List, ◌++◌, length, take, replicate};
    ghost use Rattle.gt_base.specs.Names.{IsStored};
    ghost use Rattle.gt_base.specs.declared.limits.TheConstants.{LONGEST_NAME};

    ghost Value = { List ℕ };

    ghost use Rattle.gt_base.specs.Stored.{stored_again};

    ghost view = { λ s. take s.len s.bytes };

    ghost invariant = { λ s. IsStored s.bytes s.len };

    ghost inverse = { λ n. record {
      bytes = n ++ replicate (LONGEST_NAME - length n) 0;
      len = length n;
    } };

    ghost inverse_ok = { stored_again };
}

/// Whether a byte may begin a name: a letter of ASCII.
fn is_letter(b: u8) -> bool
    ensures { result ≡ is_letter b }
{
    b.is_ascii_alphabetic()
}

/// Whether a byte may stand in a name behind the first.
fn is_name_byte(b: u8) -> bool
    ensures { result ≡ is_name_byte b }
{
    is_letter(b) || b.is_ascii_digit() || b == b'_' || b == b'-' || b == b'.'
}

/// Whether each of the bytes may stand in a name behind the first.
fn are_name_bytes(bytes: &[u8]) -> bool
    ensures { result ≡ list_all is_name_byte bytes.now }
{
    bytes.iter().all(|b| is_name_byte(*b))
}

/// Whether the text is a name.
fn is_name(text: &[u8]) -> bool
    ensures { result ≡ is_name text.now }
{
    match text.split_first() {
        None => false,
        Some((first, others)) => is_letter(*first)
            && are_name_bytes(others)
            && others.len() < LONGEST_NAME,
    }
}

impl Name {
    /// The name of a text, none exactly where it is no name. It takes no memory.
    pub fn new(text: &[u8]) -> Option<Name>
        ensures value { IfSome result (λ n. n ≡ text.now) }
        ensures name { IsSome result ↔ (is_name text.now ≡ true) }
    {
        if !is_name(text) {
            return None;
        }
        let len = text.len();
        let mut bytes = [0; LONGEST_NAME];
        bytes[..len].copy_from_slice(text);
        Some(Name {
            bytes,
            len: len as u8,
        })
    }

    /// Its bytes.
    pub fn bytes(&self) -> &[u8]
        ensures { result.now ≡ self.now }
    {
        &self.bytes[..self.len as usize]
    }
}
