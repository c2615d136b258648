//! Priorities (RFC 9218): the urgency of a response, and whether it is of use as it arrives.
ghost use Rattle.std.specs.Prelude.{◌≡◌, ◌++◌, [], ◌∷◌, ◌↔◌, IsOk, IfOk, IfSome, true, false};
ghost use Rattle.std.specs.Option.{option_copied};
ghost use Rattle.sf_value.specs.Grammar.Classes.{is_key_start};
ghost use Rattle.sf_value.specs.Grammar.Pairs.{put};
ghost use Rattle.sf_use.specs.Priority.{params_of_dict, priority_with_defaults, incremental};
ghost use Rattle.sf_use.specs.Priority.{merge_params, bare_member, prio, urgency, params_of_field};
ghost use Rattle.sf_use.specs.Ranges.{IsUrgency, usual_urgency};
ghost use Rattle.sf_use.specs.Scanning.{IsScanned, IsScannedIn, urgency_by, with_member};
ghost use Rattle.sf_value.specs.declared.dialect.Dialect.{Dialect as Which};
ghost use Rattle.sf_value.specs.declared.value.Member.{Member as MemberValue};
ghost use Rattle.sf_view.specs.Reads.{ShowsMember};

use sf_field::{Consumer, UseFault};
use sf_value::{
    Bare, Dialect, Dict, Entries, Field, Int, Item, Key, Kind, Member, OutOfMemory, OutOfRange,
};
use sf_view::{DictCursor, EntryView};
use std::alloc::Global;
use std::hash::RandomState;
use std::marker::Model;

/// The urgency of what is least urgent (RFC 9218 section 4.1).
const LEAST_URGENT: u8 = 7;

/// The default urgency (RFC 9218 section 4.1).
const USUAL_URGENCY: u8 = 3;

/// The urgency of a response (RFC 9218 section 4.1): a number from 0, the most urgent, to 7, the
/// least urgent, ordered as numbers. The default is 3. Contracts see the number.
#[derive(Clone, Copy, Debug, PartialEq, Eq, PartialOrd, Ord)]
pub struct Urgency {
    value: u8,
}

impl Model for Urgency {
    ghost use Rattle.std.specs.Prelude.{ℕ};
    ghost use Rattle.sf_use.specs.Ranges.{IsUrgency};

    ghost Value = { ℕ };

    ghost view = { λ u. u.value };

    ghost invariant = { λ u. IsUrgency u.value };

    ghost inverse = { λ u. record { value = u } };
}

/// The parameters that a Priority field sets (RFC 9218 section 4); `None` if it doesn't set one. A
/// client sends the field in a request, a server in a response.
#[derive(Clone, Copy, Debug, Default, PartialEq, Eq)]
pub struct Asked {
    /// `u`: the urgency of the response.
    pub urgency: Option<Urgency>,
    /// `i`: whether the response is of use as it arrives.
    pub incremental: Option<bool>,
}

/// A priority, with both parameters (RFC 9218 section 4).
///
/// ```
/// let priority = Priority { urgency: Urgency::new(1)?, incremental: true }; // u=1, i
/// ```
#[derive(Clone, Copy, Debug, Default, PartialEq, Eq)]
pub struct Priority {
    /// The urgency of the response (section 4.1).
    pub urgency: Urgency,
    /// Whether the response is of use as it arrives (section 4.2).
    pub incremental: bool,
}

/// Reads the Priority field (RFC 9218 section 5), a Dictionary. `answer`, `answer_text` and
/// `answer_text_in` do not allocate.
///
/// ```
/// let asked = ask(alloc, &seed, &PriorityField, lines.as_slice())?;
/// ```
#[derive(Clone, Copy, Debug, Default, PartialEq, Eq)]
pub struct PriorityField;

impl Urgency {
    /// Returns the urgency of a number from 0 to 7, or `OutOfRange` if the number is greater. Does
    /// not allocate.
    ///
    /// ```
    /// assert_eq!(rt; Urgency::new(7).is_ok(), true);
    /// assert_eq!(rt; Urgency::new(8), Err(OutOfRange));
    /// ```
    pub fn new(value: u8) -> Result<Urgency, OutOfRange>
        ensures range { IsOk result ↔ IsUrgency value }
        ensures value { IfOk result (λ urgency. urgency ≡ value) }
    {
        if value <= LEAST_URGENT {
            Ok(Urgency { value })
        } else {
            Err(OutOfRange)
        }
    }

    /// Returns the number, from 0 to 7. Does not allocate.
    pub fn get(&self) -> u8
        ensures value { result ≡ self.now }
        ensures range { IsUrgency self.now }
    {
        self.value
    }
}

impl PriorityField {
    /// Reads the text of a Priority field in one pass, and returns what it sets, as
    /// [`Priority::from_dict`] does for its Dictionary. Does not allocate. `None` claims nothing.
    ///
    /// ```
    /// let asked = PriorityField::scan(b"u=5, i")?;
    /// assert_eq!(rt; asked.incremental, Some(true));
    /// ```
    pub fn scan(text: &[u8]) -> Option<Asked>
        // The text spells a Dictionary, and no other value, and this is what it sets.
        ensures { IfSome result (IsScanned (λ v a. a ≡ params_of_field v) text.now) }
    {
        PriorityField::scan_in(Dialect::Rfc9651, text)
    }

    /// Reads the text of a Priority field in a dialect, as [`PriorityField::scan`] does. RFC 9218
    /// cites RFC 8941, by which a text with a Date or a Display String is refused.
    ///
    /// ```
    /// PriorityField::scan_in(Dialect::Rfc8941, b"u=5, x=@1") // None
    /// ```
    pub fn scan_in(dialect: Dialect, text: &[u8]) -> Option<Asked>
        // In the dialect the text spells a Dictionary, and no other value, and this is what it
        // sets.
        ensures { IfSome result (IsScannedIn dialect (λ v a. a ≡ params_of_field v) text.now) }
    {
        let mut cursor = DictCursor::new(dialect, text);
        let mut asked = Asked {
            urgency: None,
            incremental: None,
        };
        while let Some(member) = cursor.next()? {
            asked = asked_with(asked, member);
        }
        Some(asked)
    }
}

impl Priority {
    /// Returns what a Dictionary sets: `u` if it is an Integer from 0 to 7, and `i` if it is a
    /// Boolean. Other members are ignored, and so are values of another type or out of range, and
    /// parameters (RFC 9218 section 4). Does not allocate.
    ///
    /// ```
    /// // u=5, i
    /// let asked = Priority::from_dict(&dict);
    /// assert_eq!(rt; asked.with_defaults().incremental, true);
    /// ```
    pub fn from_dict(dict: &Dict) -> Asked
        ensures { result ≡ params_of_dict dict.now }
    {
        Asked {
            urgency: urgency_in(dict.get(b"u")),
            incremental: boolean_in(dict.get(b"i")),
        }
    }
}

impl Asked {
    /// Returns the priority, with the defaults for absent parameters: urgency 3, not incremental
    /// (RFC 9218 section 4). Call this after [`merge`]. Does not allocate.
    ///
    /// ```
    /// Asked::default().with_defaults() // urgency 3, not incremental
    /// ```
    pub fn with_defaults(self) -> Priority
        ensures { result ≡ priority_with_defaults self }
    {
        Priority {
            urgency: self.urgency.unwrap_or_default(),
            incremental: self.incremental.unwrap_or_default(),
        }
    }
}

/// Converts as [`Urgency::new`] does.
impl TryFrom<u8> for Urgency {
    type Error = OutOfRange;

    ghost use Rattle.std.specs.Result.{OkIff};
    ghost use Rattle.sf_use.specs.Ranges.{IsUrgency};

    ghost try_from_gives = { λ n r. OkIff r (IsUrgency n) n };

    fn try_from(number: u8) -> Result<Urgency, OutOfRange> {
        Urgency::new(number)
    }
}

impl Default for Urgency {
    ghost use Rattle.std.specs.Prelude.{◌≡◌};
    ghost use Rattle.sf_use.specs.Ranges.{usual_urgency};

    ghost is_default = { λ urgency. urgency ≡ usual_urgency };

    fn default() -> Urgency {
        Urgency {
            value: USUAL_URGENCY,
        }
    }
}

impl Consumer for PriorityField {
    ghost use Rattle.std.specs.Prelude.{◌≡◌, Ok, IsOk};
    ghost use Rattle.sf_value.specs.declared.value.Kind.TheVariants as kind_is;
    ghost use Rattle.sf_value.specs.Grammar.Fields.{kind_of};
    ghost use Rattle.sf_field.specs.Meaning.{Gives};
    ghost use Rattle.sf_use.specs.Priority.{params_of_field};

    type Answer = Asked;

    const KIND: Kind = Kind::Dict;

    ghost KIND = { kind_is.Dict };

    ghost meaning = { λ _ field. Ok (params_of_field field) };

    fn answer(&self, _alloc: Global, field: &Field) -> Result<Asked, UseFault>
        requires { kind_of field.now ≡ kind_is.Dict }
        // The answer is what the Dictionary sets.
        ensures gives { Gives (Ok (params_of_field field.now)) result }
        ensures succeeds { IsOk result }
    {
        match field {
            Field::Dict(dict) => Ok(Priority::from_dict(dict)),
            _ => unreachable!(),
        }
    }

    /// Returns what [`PriorityField::scan`] does.
    fn answer_text(&self, _alloc: Global, text: &[u8]) -> Option<Asked> {
        PriorityField::scan(text)
    }

    /// Returns what [`PriorityField::scan_in`] does.
    fn answer_text_in(&self, _alloc: Global, dialect: Dialect, text: &[u8]) -> Option<Asked> {
        PriorityField::scan_in(dialect, text)
    }
}

/// Merges the priorities of a client and a server: each parameter is the server's if the server
/// sets it, otherwise the client's (RFC 9218 section 8). Does not allocate.
///
/// ```
/// // u=5, i in the request, and u=1 in the response
/// let priority = merge(client, server).with_defaults(); // urgency 1, incremental
/// ```
pub fn merge(client: Asked, server: Asked) -> Asked
    ensures { result ≡ merge_params client server }
{
    Asked {
        urgency: server.urgency.or(client.urgency),
        incremental: server.incremental.or(client.incremental),
    }
}

/// Returns the Dictionary of a priority: `u` if the urgency is not 3, then `i` if it is incremental
/// (RFC 9218 section 4). For the default priority it has no members, so the field is not sent, and
/// the call does not allocate. This is the field of a request. In a response an absent parameter is
/// not a default: use [`crate::response_priority_field`] there. Fails only if an allocation fails.
///
/// ```
/// let dict = priority_field(alloc, &seed, priority)?;
/// let text = to_text(alloc, &Field::Dict(dict))?; // u=1, i
/// ```
pub fn priority_field(
    alloc: Global,
    seed: &RandomState,
    priority: Priority,
) -> Result<Dict, OutOfMemory>
    ensures written { IfOk result (λ dict. dict ≡ prio priority) }
    // For the default priority the call does not allocate.
    ensures default { priority.urgency ≡ usual_urgency → priority.incremental ≡ false → IsOk result }
{
    let mut members = Entries::new(alloc, seed);
    if priority.urgency != Urgency::default() {
        let number = Int::from(i32::from(priority.urgency.get()));
        put_item(alloc, seed, &mut members, b'u', Bare::Integer(number))?;
    }
    if priority.incremental {
        put_item(alloc, seed, &mut members, b'i', Bare::Boolean(true))?;
    }
    Ok(Dict { members })
}

/// Returns what is set after one more member, which overwrites what an earlier one with its key
/// set.
#[inline]
fn asked_with(asked: Asked, member: EntryView) -> Asked
    ensures { (d : Which) (m : MemberValue) → ShowsMember d member.entry.bare m
        → result ≡ with_member asked (member.entry.key.now, m) }
{
    if member.key == b"u".as_slice() {
        return Asked {
            urgency: urgency_of(member.as_integer()),
            ..asked
        };
    }
    if member.key == b"i".as_slice() {
        return Asked {
            incremental: member.as_boolean(),
            ..asked
        };
    }
    asked
}

/// Returns the urgency of a number from 0 to 7.
fn urgency_of(number: Option<i64>) -> Option<Urgency>
    ensures { result ≡ urgency_by number }
{
    Urgency::new(u8::try_from(number?).ok()?).ok()
}

/// Returns the urgency that a member sets: an Integer from 0 to 7.
fn urgency_in(member: Option<&Member>) -> Option<Urgency>
    ensures { result ≡ urgency (option_copied member.entry) }
{
    let number = member?.as_item()?.bare.as_integer()?.get();
    Urgency::new(u8::try_from(number).ok()?).ok()
}

/// Returns the Boolean that a member sets.
fn boolean_in(member: Option<&Member>) -> Option<bool>
    ensures { result ≡ incremental (option_copied member.entry) }
{
    member?.as_item()?.bare.as_boolean()
}

/// Puts an Item without parameters at a key of one letter.
pub(crate) fn put_item(
    alloc: Global,
    seed: &RandomState,
    members: &mut Entries<Member>,
    letter: u8,
    bare: Bare,
) -> Result<(), OutOfMemory>
    requires { is_key_start letter ≡ true }
    // The Item is put at the key of this letter.
    ensures { IfOk result (λ _. members.new ≡ put members.old (letter ∷ []) (bare_member bare)) }
{
    let key = Key::first(alloc, letter)?;
    let item = Item::new(alloc, seed, bare);
    members.set(key, item.into())
}
