//! Consumers of fields, each with its meaning.
ghost use Rattle.std.specs.Prelude.{◌≡◌, ℕ, [], ◌∷◌, Result, Ok, Some, IfSome};
ghost use Rattle.sf_value.specs.declared.value.Field.{Field};
ghost use Rattle.sf_value.specs.declared.value.Kind.{Kind};
ghost use Rattle.sf_value.specs.Grammar.Fields.{kind_of};
ghost use Rattle.sf_field.specs.Faults.{use_fault_text};
ghost use Rattle.sf_field.specs.declared.consumer.UseFault.TheVariants as fault_is;
ghost use Rattle.sf_field.specs.Asking.{Means, MeansIn};
ghost use Rattle.sf_field.specs.Meaning.{Gives};

use sf_value::{Dialect, Field, Kind, OutOfMemory};
use std::alloc::Global;
use std::error::Error;
use std::fmt;

/// Why a consumer has no answer for a field.
#[derive(Clone, Copy, Debug, PartialEq, Eq)]
pub enum UseFault {
    /// A member of a Cache-Status List does not name a cache (RFC 9211 section 2): it is not an
    /// Item of a String or a Token. A custom consumer returns it for a value whose meaning is the
    /// index of a member.
    NotACache {
        /// The index of the first such member, from 0.
        index: usize,
    },
    /// An allocation for the answer failed.
    OutOfMemory,
}

/// Reads fields of one kind and returns what they mean.
///
/// An implementation states its meaning, which is a function from values to an answer or to the
/// index of the first member that has none, and is proved to return it. So its answer is the same
/// for every spelling of a value: see [`crate::ask`].
pub trait Consumer {
    /// The type of the answer.
    type Answer;

    /// The kind of the fields that it reads.
    const KIND: Kind;

    // The kind, as contracts see it.
    ghost KIND: { Kind };

    // The meaning of a field, or the index of the first member that has none.
    ghost meaning: { Self → Field → Result Self.Answer ℕ };

    /// Returns what the field means. The field has to be of the kind [`Consumer::KIND`].
    fn answer(&self, alloc: Global, field: &Field) -> Result<Self::Answer, UseFault>
        requires { kind_of field.now ≡ KIND }
        // The meaning of the field; out of memory only if the meaning is an answer.
        ensures { Gives (meaning self.now field.now) result };

    /// Returns what a text of the kind [`Consumer::KIND`] means as the only line, if that can be
    /// read without the field; `None` says nothing about the text, and [`crate::ask`] then parses
    /// the text.
    ///
    /// ```
    /// PriorityField.answer_text(alloc, b"u=1") // Some(answer), as `answer` gives it of the field
    /// ```
    fn answer_text(&self, _alloc: Global, _text: &[u8]) -> Option<Self::Answer>
        // The text spells a value of the kind, and no other, and this is what it means.
        ensures { IfSome result
            (λ answer. Means KIND (meaning self.now) (_text.now ∷ []) (Ok answer)) }
    {
        None
    }

    /// Returns what a text of the kind [`Consumer::KIND`] means in a dialect as the only line, if
    /// that can be read without the field; `None` says nothing about the text. Unless an
    /// implementation has its own, it is [`Consumer::answer_text`] by RFC 9651, and `None` by RFC
    /// 8941. An implementation may not answer for a text that the dialect refuses, as one with a
    /// Date by RFC 8941.
    ///
    /// ```
    /// PriorityField.answer_text_in(alloc, Dialect::Rfc8941, b"u=1, x=@1") // None
    /// ```
    fn answer_text_in(&self, alloc: Global, dialect: Dialect, text: &[u8]) -> Option<Self::Answer>
        // In the dialect the text spells a value of the kind, and no other, and this is what it
        // means.
        ensures { IfSome result
            (λ answer. MeansIn dialect KIND (meaning self.now) (text.now ∷ []) (Ok answer)) }
    {
        match dialect {
            Dialect::Rfc8941 => return None,
            Dialect::Rfc9651 => return self.answer_text(alloc, text),
        }
    }
}

impl fmt::Display for UseFault {
    ghost output = { λ fault. Some (use_fault_text fault) };

    fn fmt<W: fmt::Write>(&self, f: &mut fmt::Formatter<W>) -> fmt::Result {
        match self {
            UseFault::NotACache { index } => write!(f, "member {index} names no cache"),
            UseFault::OutOfMemory => write!(f, "out of memory"),
        }
    }
}

impl Error for UseFault {}

impl From<OutOfMemory> for UseFault {
    ghost from_gives = { λ _ e. e ≡ fault_is.OutOfMemory };

    fn from(_fault: OutOfMemory) -> UseFault {
        UseFault::OutOfMemory
    }
}
