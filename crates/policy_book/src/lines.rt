//! The lines of a policy that say something.
ghost use Rattle.std.specs.Prelude.{◌≡◌, [], ◌∷◌, ◌++◌, OnOk, OnErr, IsTrue};
ghost use Rattle.policy_words.specs.Sayings.{is_saying};
ghost use Rattle.policy_words.specs.Seen.{seen_said};
ghost use Rattle.policy_book.specs.Said.{AreParts, are_before, is_placed};

use gt_base::Memory;
use policy_words::Said;
use std::alloc::{AllocError, Global};
use std::marker::Model;

/// What a line says, with the line's number from 1.
pub struct Part {
    pub line: u32,
    pub said: Said,
}

impl Drop for Part {
    fn drop(self) {
        let Part { line: _, said: _ } = self;
    }
}

impl Part {
    /// What the line says.
    pub(crate) fn into_said(self) -> Said
        ensures { seen_said result ≡ self.it }
    {
        let Part { line: _, said } = self;
        said
    }
}

impl Model for Part {
    ghost use Rattle.policy_words.specs.Reading.{Numbered};
    ghost use Rattle.policy_words.specs.Sayings.{SaidView};
    ghost use Rattle.policy_book.specs.Said.{numbered_code};

    ghost Value = { Numbered SaidView };

    ghost coded = { numbered_code };

    ghost use Rattle.policy_words.specs.Seen.{seen_said};

    ghost view = { λ p. record { line = p.line; it = seen_said p.said } };
}

/// The lines of a policy that say something, in their order. They are seen as the list of their
/// numbers and sayings: each saying is in range, the numbers rise, a version stands first, and an
/// edge is named only where the first has version 2.
#[derive(Drop)]
pub struct Parts {
    pub(crate) parts: Vec<Part>,
}

impl Model for Parts {
    ghost use Rattle.std.specs.Prelude.{List};
    ghost use Rattle.std.specs.Coded.{coded_list};
    ghost use Rattle.policy_words.specs.Reading.{Numbered};
    ghost use Rattle.policy_words.specs.Sayings.{SaidView};
    ghost use Rattle.policy_book.specs.Said.{numbered_code, AreParts};

    ghost Value = { List (Numbered SaidView) };

    ghost coded = { coded_list numbered_code };

    ghost view = { λ s. s.parts.items };

    ghost invariant = { λ s. AreParts s.parts.items };
}

impl Parts {
    /// No lines, which takes no memory yet.
    pub fn new(alloc: Global) -> Parts
        ensures { result ≡ [] }
    {
        Parts {
            parts: Vec::new(alloc),
        }
    }

    /// What each list of parts keeps.
    pub fn keeps(&self)
        ensures { AreParts self.now }
    {
        let _ = &self.parts;
    }

    /// Adds what a line says, whose number is above those of the lines before. A version is added
    /// first, and what names an edge only where version 2 was. There is no room for more than
    /// 4,294,967,295 lines. After a refusal the parts are as they were.
    pub fn add(&mut self, line: u32, said: Said) -> Result<(), Memory>
        requires said { IsTrue (is_saying (seen_said said)) }
        requires later { IsTrue (are_before line self.old) }
        requires placed { IsTrue (is_placed self.old (seen_said said)) }
        ensures ok { OnOk result (self.new ≡ self.old ++ record { line = line; it = seen_said said }
            ∷ []) }
        ensures err { OnErr result (self.new ≡ self.old) }
    {
        if self.parts.len() >= u32::MAX as usize {
            return Err(AllocError);
        }
        self.parts.push(Part { line, said })?;
        Ok(())
    }

    /// The lines, in their order.
    pub fn as_slice(&self) -> &[Part]
        ensures { result.now ≡ self.now }
    {
        &self.parts
    }
}
