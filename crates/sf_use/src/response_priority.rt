//! The priority of a response (RFC 9218 section 8), of which each parameter is set or not.
ghost use Rattle.std.specs.Prelude.{◌≡◌, IfOk, IfSome, IsOk, None};
ghost use Rattle.sf_use.specs.ResponsePriority.{asked_of, fixed as fixed_by, response_dict};
ghost use Rattle.sf_use.specs.ResponsePriority.{response_of_dict, response_of_field};
ghost use Rattle.sf_use.specs.ResponsePriority.{response_to, set_by as set_by_params};
ghost use Rattle.sf_use.specs.Scanning.{IsScannedIn};

use crate::priority::{Asked, Priority, PriorityField, Urgency, merge, put_item};
use sf_field::{Consumer, UseFault};
use sf_value::{Bare, Dialect, Dict, Entries, Field, Int, Kind, OutOfMemory};
use std::alloc::Global;
use std::hash::RandomState;

/// What a server sets by the Priority field of a response (RFC 9218 section 8). A parameter that is
/// `None` is absent from the field: the server does not change what the client asked for. In a
/// request an absent parameter has its default instead ([`Asked::with_defaults`]).
///
/// ```
/// // u=3: urgency 3, whatever the client asked for; i as the client asked for
/// let response = ResponsePriority { urgency: Some(Urgency::new(3)?), incremental: None };
/// ```
#[derive(Clone, Copy, Debug, Default, PartialEq, Eq)]
pub struct ResponsePriority {
    /// `u`: the urgency (section 4.1); `None` leaves that of the client.
    pub urgency: Option<Urgency>,
    /// `i`: whether the response is of use as it arrives (section 4.2); `None` leaves what the
    /// client asked for.
    pub incremental: Option<bool>,
}

/// Reads the Priority field of a response (RFC 9218 sections 5 and 8), a Dictionary. `answer`,
/// `answer_text` and `answer_text_in` do not allocate.
///
/// ```
/// let response = ask(alloc, &seed, &ResponsePriorityField, lines.as_slice())?;
/// ```
#[derive(Clone, Copy, Debug, Default, PartialEq, Eq)]
pub struct ResponsePriorityField;

impl ResponsePriority {
    /// Returns what a Dictionary sets, as [`Priority::from_dict`] reads it. Does not allocate.
    ///
    /// ```
    /// // u=3
    /// let response = ResponsePriority::from_dict(&dict); // urgency 3; i is not set
    /// ```
    pub fn from_dict(dict: &Dict) -> ResponsePriority
        ensures { result ≡ response_of_dict dict.now }
    {
        ResponsePriority::set_by(Priority::from_dict(dict))
    }

    /// Reads the text of the Priority field of a response in one pass, in a dialect, as
    /// [`ResponsePriority::from_dict`] does for its Dictionary. Does not allocate. `None` claims
    /// nothing.
    ///
    /// ```
    /// let response = ResponsePriority::scan_in(Dialect::Rfc8941, b"u=3")?;
    /// ```
    pub fn scan_in(dialect: Dialect, text: &[u8]) -> Option<ResponsePriority>
        // In the dialect the text spells a Dictionary, and no other value, and this is what it
        // sets.
        ensures { IfSome result (IsScannedIn dialect (λ v r. r ≡ response_of_field v) text.now) }
    {
        let asked = PriorityField::scan_in(dialect, text)?;
        Some(ResponsePriority::set_by(asked))
    }

    /// Returns the response that sets both parameters, so that it has this priority whatever the
    /// client asked for. Does not allocate.
    ///
    /// ```
    /// ResponsePriority::fixed(Priority::default()) // u=3, i=?0
    /// ```
    pub fn fixed(priority: Priority) -> ResponsePriority
        ensures { result ≡ fixed_by priority }
    {
        ResponsePriority {
            urgency: Some(priority.urgency),
            incremental: Some(priority.incremental),
        }
    }

    /// Returns the priority of the response to a request: each parameter is the server's if the
    /// server set it, otherwise what the client asked for, or the default (RFC 9218 section 8).
    /// Does not allocate.
    ///
    /// ```
    /// // u=5, i in the request, and u=3 in the response
    /// let priority = response.for_request(request); // urgency 3, incremental
    /// ```
    pub fn for_request(self, request: Asked) -> Priority
        ensures { result ≡ response_to request self }
    {
        merge(request, self.as_asked()).with_defaults()
    }

    /// Returns what is set, as [`merge`] takes it. Does not allocate.
    pub fn as_asked(self) -> Asked
        ensures { result ≡ asked_of self }
    {
        Asked {
            urgency: self.urgency,
            incremental: self.incremental,
        }
    }

    /// Returns the response that sets what the parameters of a field set.
    fn set_by(asked: Asked) -> ResponsePriority
        ensures { result ≡ set_by_params asked }
    {
        ResponsePriority {
            urgency: asked.urgency,
            incremental: asked.incremental,
        }
    }
}

impl Consumer for ResponsePriorityField {
    ghost use Rattle.std.specs.Prelude.{◌≡◌, Ok, IsOk};
    ghost use Rattle.sf_value.specs.declared.value.Kind.TheVariants as kind_is;
    ghost use Rattle.sf_value.specs.Grammar.Fields.{kind_of};
    ghost use Rattle.sf_field.specs.Meaning.{Gives};
    ghost use Rattle.sf_use.specs.ResponsePriority.{response_of_field};

    type Answer = ResponsePriority;

    const KIND: Kind = Kind::Dict;

    ghost KIND = { kind_is.Dict };

    ghost meaning = { λ _ field. Ok (response_of_field field) };

    fn answer(&self, _alloc: Global, field: &Field) -> Result<ResponsePriority, UseFault>
        requires { kind_of field.now ≡ kind_is.Dict }
        // The answer is what the Dictionary sets.
        ensures gives { Gives (Ok (response_of_field field.now)) result }
        ensures succeeds { IsOk result }
    {
        match field {
            Field::Dict(dict) => Ok(ResponsePriority::from_dict(dict)),
            _ => unreachable!(),
        }
    }

    /// Returns what [`ResponsePriority::scan_in`] does by RFC 9651.
    fn answer_text(&self, _alloc: Global, text: &[u8]) -> Option<ResponsePriority> {
        ResponsePriority::scan_in(Dialect::Rfc9651, text)
    }

    /// Returns what [`ResponsePriority::scan_in`] does.
    fn answer_text_in(
        &self,
        _alloc: Global,
        dialect: Dialect,
        text: &[u8],
    ) -> Option<ResponsePriority> {
        ResponsePriority::scan_in(dialect, text)
    }
}

/// Returns the Dictionary of the priority of a response: `u` if it is set, then `i` if it is set,
/// also if they are the defaults, since an absent parameter leaves what the client asked for (RFC
/// 9218 section 8). [`crate::priority_field`] writes the field of a request. If nothing is set, the
/// Dictionary has no members, so the field is not sent, and the call does not allocate. Fails only
/// if an allocation fails.
///
/// ```
/// let fixed = ResponsePriority::fixed(Priority::default());
/// let dict = response_priority_field(alloc, &seed, fixed)?;
/// let text = to_text(alloc, &Field::Dict(dict))?; // u=3, i=?0
/// ```
pub fn response_priority_field(
    alloc: Global,
    seed: &RandomState,
    response: ResponsePriority,
) -> Result<Dict, OutOfMemory>
    ensures written { IfOk result (λ dict. dict ≡ response_dict response) }
    // If nothing is set, the call does not allocate.
    ensures unset { response.urgency ≡ None → response.incremental ≡ None → IsOk result }
{
    let mut members = Entries::new(alloc, seed);
    if let Some(urgency) = response.urgency {
        let number = Int::from(i32::from(urgency.get()));
        put_item(alloc, seed, &mut members, b'u', Bare::Integer(number))?;
    }
    if let Some(incremental) = response.incremental {
        put_item(alloc, seed, &mut members, b'i', Bare::Boolean(incremental))?;
    }
    Ok(Dict { members })
}
