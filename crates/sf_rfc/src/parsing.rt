//! Laws of parsing (RFC 9651 section 4.2), each as the contract of a function that does nothing:
//! [`field_parses`] is that of whole fields. [`parse_text_in`] is the parser with the RFC's steps
//! as its contract. The law of a part of a field says two things (`Agrees` in
//! `specs/ParsingLaws`): the prefix that the steps take spells the value that they return; and they
//! take a text that spells a value, if no character follows that could continue the text.
ghost use Rattle.sf_rfc.specs.ParsingLaws.{KeysAgree, TokensAgree, BooleansAgree, StringsAgree};
ghost use Rattle.sf_rfc.specs.ParsingLaws.{NumbersAgree, DatesAgree, ByteSequencesAgree};
ghost use Rattle.sf_rfc.specs.ParsingLaws.{DisplayStringsAgree, BareItemsAgree, ParametersAgree};
ghost use Rattle.sf_rfc.specs.ParsingLaws.{ItemsAgree, InnerListsAgree, MembersAgree};
ghost use Rattle.sf_rfc.specs.ParsingLaws.{ListsAgree, DictionariesAgree, FieldsAgree};
ghost use Rattle.sf_rfc.specs.ParsingLaws.{AnswersAgree, EndsAgree, AnswersAsRfc};

use sf_parse::Refusal;
use sf_value::{Dialect, Field, Kind};
use std::alloc::Global;
use std::hash::RandomState;

/// The RFC's steps (section 4.2.3.3) take a key exactly if the grammar spells it, with the same
/// value and the same rest.
pub fn key_parses()
    ensures { KeysAgree }
{}

/// A Token is taken by the RFC's steps (section 4.2.6) exactly if the grammar spells it.
pub fn token_parses()
    ensures { TokensAgree }
{}

/// A Boolean is taken by the RFC's steps (section 4.2.8) exactly if the grammar spells it.
pub fn boolean_parses()
    ensures { BooleansAgree }
{}

/// A String is taken by the RFC's steps (section 4.2.5) exactly if the grammar spells it.
pub fn string_parses()
    ensures { StringsAgree }
{}

/// An Integer or a Decimal is taken by the RFC's steps (section 4.2.4) exactly if the grammar
/// spells it.
pub fn number_parses()
    ensures { NumbersAgree }
{}

/// A Date is taken by the RFC's steps (section 4.2.9) exactly if the grammar spells it.
pub fn date_parses()
    ensures { DatesAgree }
{}

/// A Byte Sequence is taken by the RFC's steps (section 4.2.7, with base64 by bits) exactly if the
/// grammar spells it.
pub fn byte_sequence_parses()
    ensures { ByteSequencesAgree }
{}

/// A Display String is taken by the RFC's steps (section 4.2.10, with UTF-8 by the rules of RFC
/// 3629) exactly if the grammar spells it.
pub fn display_string_parses()
    ensures { DisplayStringsAgree }
{}

/// A bare item of either dialect is taken by the RFC's steps (section 4.2.3.1) exactly if the
/// grammar spells it.
pub fn bare_item_parses()
    ensures { BareItemsAgree }
{}

/// Parameters are taken by the RFC's steps (section 4.2.3.2) exactly if the grammar spells them: a
/// value that is overwritten in place is the last of its key, at the key's first place.
pub fn parameters_parse()
    ensures { ParametersAgree }
{}

/// An Item is taken by the RFC's steps (section 4.2.3) exactly if the grammar spells it.
pub fn item_parses()
    ensures { ItemsAgree }
{}

/// An Inner List is taken by the RFC's steps (section 4.2.1.2) exactly if the grammar spells it.
pub fn inner_list_parses()
    ensures { InnerListsAgree }
{}

/// A member of a List is taken by the RFC's steps (section 4.2.1.1) exactly if the grammar spells
/// it.
pub fn member_parses()
    ensures { MembersAgree }
{}

/// A List is taken by the RFC's steps (section 4.2.1), which go to the end of the text, exactly if
/// the grammar spells its members and OWS after them.
pub fn list_parses()
    ensures { ListsAgree }
{}

/// A Dictionary is taken by the RFC's steps (section 4.2.2), which go to the end of the text,
/// exactly if the grammar spells its members and OWS after them: a member that is overwritten in
/// place is the last of its key, at the key's first place.
pub fn dictionary_parses()
    ensures { DictionariesAgree }
{}

/// For either dialect, each kind of field, each text and each value: the RFC's steps (section 4.2)
/// return the value for the text exactly if the text spells it by the grammar (`SpellsField`).
/// Hence they fail exactly if the text spells no value.
pub fn field_parses()
    ensures { FieldsAgree }
{}

/// Each result that meets the clause `parses` of [`sf_parse::parse_text_in`], or of
/// [`sf_parse::parse_text`] in the dialect of RFC 9651, is that of the RFC's steps.
pub fn answers_agree()
    ensures { AnswersAgree }
{}

/// Each result that meets the clause `ended` of [`sf_parse::Parser::finish`] is that of the RFC's
/// steps for the text that the parser took, however it was cut into chunks.
pub fn ends_agree()
    ensures { EndsAgree }
{}

/// Calls [`sf_parse::parse_text_in`], with the RFC's steps (section 4.2) as the contract: Ok has
/// the value that they return, Syntax means that they return none, and the only other result is
/// OutOfMemory.
///
/// ```
/// parse_text_in(alloc, &seed, Dialect::Rfc9651, Kind::Item, b"@1")? // a Date
/// ```
#[tactic(auto, using(crate::proofs::ParsingAnswers::answers_agree))]
pub fn parse_text_in(
    alloc: Global,
    seed: &RandomState,
    dialect: Dialect,
    kind: Kind,
    text: &[u8],
) -> Result<Field, Refusal>
    ensures { AnswersAsRfc dialect kind text.now result }
{
    sf_parse::parse_text_in(alloc, seed, dialect, kind, text)
}
