//! Priority fields with the members `u` and `i` alone, which most are. They are read and changed
//! without nodes.
ghost use Rattle.std.specs.Prelude.{◌≡◌, pos, codes, Some, IfSome};
ghost use Rattle.sf_value.specs.declared.dialect.Dialect.{Dialect as Which};
ghost use Rattle.sf_value.specs.declared.value.Bare.TheVariants.{Boolean, Integer};
ghost use Rattle.sf_value.specs.declared.value.Field.TheVariants as field_is;
ghost use Rattle.sf_value.specs.declared.value.Member.{Member};
ghost use Rattle.sf_value.specs.Grammar.Canonical.{canon};
ghost use Rattle.sf_value.specs.Grammar.Pairs.{put};
ghost use Rattle.sf_view.specs.Cursors.{integer_in};
ghost use Rattle.sf_view.specs.Reads.{ShowsMember};
ghost use Rattle.sf_use.specs.Priority.{bare_member};
ghost use Rattle.sf_use.specs.PriorityUpdate.{updated};
ghost use Rattle.sf_use.specs.Scanning.{urgency_by};
ghost use Rattle.sf_c.specs.PlainPriorities.{IsPlain, dict_of_plain, plain, plain_members, reversed};
ghost use Rattle.sf_c.specs.TextBuffers.{PutsText};

use crate::buffer::put_text;
use crate::priority_text::{digit, write};
use crate::status::Status;
use sf_use::{Asked, Urgency};
use sf_value::Dialect;
use sf_view::{DictCursor, EntryView};

/// The longest text that is read: a longer one most likely has other members. With both members, a
/// canonical text has at most 9 bytes.
const LONGEST: usize = 12;

/// The members `u` and `i` of a Priority field that has no others, without parameters.
#[derive(Clone, Copy, Debug, Drop)]
pub(crate) struct PlainPriority {
    /// The member `u`.
    pub(crate) urgency: Option<Urgency>,
    /// The member `i`.
    pub(crate) incremental: Option<bool>,
    /// Whether `i` is before `u`.
    pub(crate) is_reversed: bool,
}

impl PlainPriority {
    /// No members.
    const NONE: PlainPriority = PlainPriority {
        urgency: None,
        incremental: None,
        is_reversed: false,
    };

    /// Reads a text. `None` says nothing: the text may be long, or have other members, or one of
    /// another type, out of range or with parameters.
    pub(crate) fn scan(text: &[u8]) -> Option<PlainPriority>
        // The text spells the Dictionary of these members, and no other value.
        ensures { IfSome result (IsPlain text.now) }
    {
        // The cursor does not return parameters, so a text that may have some is not read.
        if text.len() > LONGEST || text.contains(&b';') {
            return None;
        }
        let mut cursor = DictCursor::new(Dialect::Rfc9651, text);
        let mut read = PlainPriority::NONE;
        while let Some(member) = cursor.next()? {
            read = read.with(member)?;
        }
        Some(read)
    }

    /// The members after one more, which overwrites one with its key.
    #[inline]
    fn with(self, member: EntryView) -> Option<PlainPriority>
        ensures { (d : Which) (m : Member) → ShowsMember d member.entry.bare m
            → IfSome result (λ p. plain_members p
            ≡ put (plain_members self) member.entry.key.now (plain m)) }
    {
        match member.key {
            b"u" => return Some(self.with_urgency(urgency_in(member)?)),
            b"i" => return Some(self.with_incremental(member.as_boolean()?)),
            _ => return None,
        }
    }

    /// The members after `u`.
    #[inline]
    fn with_urgency(self, urgency: Urgency) -> PlainPriority
        ensures { plain_members result
            ≡ put (plain_members self) (codes "u") (bare_member (Integer (pos urgency))) }
    {
        self.changed(Asked {
            urgency: Some(urgency),
            incremental: None,
        })
    }

    /// The members after `i`.
    #[inline]
    fn with_incremental(self, incremental: bool) -> PlainPriority
        ensures { plain_members result
            ≡ put (plain_members self) (codes "i") (bare_member (Boolean incremental)) }
    {
        self.changed(Asked {
            urgency: None,
            incremental: Some(incremental),
        })
    }

    /// The members with what is set put at its key. A member that is new goes last, so `i` is
    /// before `u` if it was there without `u`.
    #[inline]
    pub(crate) fn changed(self, asked: Asked) -> PlainPriority
        ensures { dict_of_plain result ≡ updated asked (dict_of_plain self) }
    {
        PlainPriority {
            urgency: asked.urgency.or(self.urgency),
            incremental: asked.incremental.or(self.incremental),
            is_reversed: self.incremental.is_some() & (self.urgency.is_none() | self.is_reversed),
        }
    }

    /// Writes the canonical text of the members.
    pub(crate) fn put(self, buffer: &mut [u8], required: &mut usize) -> Status
        ensures { PutsText (record { buffer = buffer.old; required = required.old })
            (record { buffer = buffer.new; required = required.new })
            (canon (field_is.Dict (dict_of_plain self))) (Some result) }
    {
        if self.is_reversed {
            return put_reversed(self.urgency, self.incremental, buffer, required);
        }
        let asked = Asked {
            urgency: self.urgency,
            incremental: self.incremental,
        };
        write(asked, buffer, required)
    }
}

/// The urgency of a member that is an Integer from 0 to 7.
#[inline]
fn urgency_in(member: EntryView) -> Option<Urgency>
    ensures { (d : Which) (m : Member) → ShowsMember d member.entry.bare m
        → IfSome result (λ n. urgency_by (integer_in m) ≡ Some n) }
{
    Urgency::new(u8::try_from(member.as_integer()?).ok()?).ok()
}

/// Writes the canonical text of `i` and `u`, in this order.
fn put_reversed(
    urgency: Option<Urgency>,
    incremental: Option<bool>,
    buffer: &mut [u8],
    required: &mut usize,
) -> Status
    ensures { PutsText (record { buffer = buffer.old; required = required.old })
        (record { buffer = buffer.new; required = required.new })
        (canon (field_is.Dict (reversed urgency incremental))) (Some result) }
{
    match (urgency, incremental) {
        (Some(urgency), Some(true)) => {
            let text = [b'i', b',', b' ', b'u', b'=', digit(urgency)];
            return put_text(&text, buffer, required);
        }
        (Some(urgency), Some(false)) => {
            let text = [
                b'i',
                b'=',
                b'?',
                b'0',
                b',',
                b' ',
                b'u',
                b'=',
                digit(urgency),
            ];
            return put_text(&text, buffer, required);
        }
        (Some(urgency), None) => {
            let text = [b'u', b'=', digit(urgency)];
            return put_text(&text, buffer, required);
        }
        (None, Some(true)) => return put_text(b"i", buffer, required),
        (None, Some(false)) => return put_text(b"i=?0", buffer, required),
        (None, None) => return put_text(b"", buffer, required),
    }
}
