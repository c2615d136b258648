//! The laws of the consumers, each as the contract of a function that does nothing.
ghost use Rattle.sf_use.specs.CacheStatus.Laws.{AppendedIsLast, ReadsBack};
ghost use Rattle.sf_use.specs.CacheControlLaws.{ForbiddingIsAsStrict, LinesAreOneList, OneMeaning};
ghost use Rattle.sf_use.specs.CachingLaws.{ExpiresIsIgnored, FreshIsYounger, InvalidIsNotAbsent};
ghost use Rattle.sf_use.specs.CachingLaws.{InvalidIsNotFresh, MustBeUnderstood};
ghost use Rattle.sf_use.specs.CachingLaws.{MustRevalidateIsNotServedStale, NoCacheIsValidated};
ghost use Rattle.sf_use.specs.CachingLaws.{NoStoreAlone, NoStoreIsNotStored, OlderIsNotFresher};
ghost use Rattle.sf_use.specs.CachingLaws.{OthersDoNotDecide};
ghost use Rattle.sf_use.specs.CachingLaws.{PrivateIsNotShared, ProxyRevalidateIsNotServedStale};
ghost use Rattle.sf_use.specs.CachingLaws.{SMaxageIsNotServedStale};
ghost use Rattle.sf_use.specs.PriorityLaws.{MergesInParts, ReadAsWritten, ReadFromText};
ghost use Rattle.sf_use.specs.ResponsePriority.{FixedIsKept, ResponseIsMeant};
ghost use Rattle.sf_use.specs.ResponsePriority.{ResponseReadAsWritten, ResponseReadFromText};
ghost use Rattle.sf_use.specs.TargetedLaws.{ChosenIsFirst, OneChoice, SomeChoice};
ghost use Rattle.sf_use.specs.TargetedLaws.{ChosenAsCanonical, ChosenAsReplaced};
ghost use Rattle.sf_use.specs.TargetedLaws.{ChosenIsFirstIn, OneChoiceIn, SomeChoiceIn};
ghost use Rattle.sf_use.specs.TargetedLaws.{ChosenAsCanonicalIn, ChosenAsReplacedIn};
ghost use Rattle.sf_value.specs.declared.dialect.Dialect.{Dialect};
ghost use Rattle.sf_use.specs.TargetedRules.{ChosenAsSelected, ChosenAsSelectedIn, OnlyNamedDecide};

/// The member that [`crate::append_hop`] writes for a hop is read back as that hop, except that a
/// [`crate::Forward::Other`] of one of the eight defined tokens is read back as the reason of that
/// token.
pub fn reads_back()
    ensures { ReadsBack }
{}

/// The hop that is appended to the members of a List is read back as the last of their hops, as by
/// [`reads_back`], and those before it are read as without it. If one of the members names no
/// cache, the List is refused as without it.
pub fn appended_is_last()
    ensures { AppendedIsLast }
{}

/// Targets and headers have exactly one choice, which [`crate::select`] returns: the first target,
/// in the order of the list, whose field can be used. It stays the same if accepted fields of
/// listed names are replaced by their canonical texts, as one value each.
pub fn one_choice()
    ensures first { ChosenIsFirst }
    ensures some { SomeChoice }
    ensures one { OneChoice }
    ensures canonical { ChosenAsCanonical }
    ensures replaced { ChosenAsReplaced }
{}

/// The same in each dialect, for the choice that [`crate::select_in`] returns.
pub fn one_choice_in()
    ensures first { (d : Dialect) → ChosenIsFirstIn d }
    ensures some { (d : Dialect) → SomeChoiceIn d }
    ensures one { (d : Dialect) → OneChoiceIn d }
    ensures canonical { (d : Dialect) → ChosenAsCanonicalIn d }
    ensures replaced { (d : Dialect) → ChosenAsReplacedIn d }
{}

/// The priority that [`crate::priority_field`] writes is read back as the same, also from its text.
/// Merging is associative.
pub fn priority_is_kept()
    ensures read { ReadAsWritten }
    ensures text { ReadFromText }
    ensures parts { MergesInParts }
{}

/// The priority of a response that [`crate::response_priority_field`] writes is read back as the
/// same, also from its text, and for every request it is merged as it was meant: each parameter
/// that is set holds, also if it is the default, and each other one is the request's.
pub fn response_priority_is_kept()
    ensures read { ResponseReadAsWritten }
    ensures text { ResponseReadFromText }
    ensures meant { ResponseIsMeant }
    ensures fixed { FixedIsKept }
{}

/// A response is not stored that a directive forbids to store (RFC 9111 section 3).
pub fn forbidden_is_not_stored()
    ensures no_store { NoStoreIsNotStored }
    ensures is_private { PrivateIsNotShared }
    ensures must_understand { MustBeUnderstood }
    ensures alone { NoStoreAlone }
{}

/// A response is not used without validation if a directive forbids it (RFC 9111 section 4.2.4).
pub fn forbidden_is_validated()
    ensures no_cache { NoCacheIsValidated }
    ensures must_revalidate { MustRevalidateIsNotServedStale }
    ensures proxy_revalidate { ProxyRevalidateIsNotServedStale }
    ensures s_maxage { SMaxageIsNotServedStale }
{}

/// A response is fresh only while it is younger than its lifetime (RFC 9111 section 4.2), and
/// never if the directive that would set it is invalid (section 4.2.1).
pub fn fresh_is_younger()
    ensures younger { FreshIsYounger }
    ensures older { OlderIsNotFresher }
    ensures invalid { InvalidIsNotFresh }
    ensures absent { InvalidIsNotAbsent }
{}

/// A decision depends only on the directives that apply to the cache (RFC 9111 section 5.2.2), and
/// on `Expires` only if no directive sets a lifetime (section 5.3).
pub fn only_applicable_decide()
    ensures expires { ExpiresIsIgnored }
    ensures others { OthersDoNotDecide }
{}

/// [`crate::select_rules`] chooses the field that [`crate::select`] chooses, and in each dialect
/// [`crate::select_rules_in`] that of [`crate::select_in`]; and the rules of a field depend only on
/// the directives that [`crate::CacheRules`] names.
pub fn rules_of_the_selected()
    ensures selected { ChosenAsSelected }
    ensures selected_in { (d : Dialect) → ChosenAsSelectedIn d }
    ensures named { OnlyNamedDecide }
{}

/// A text of `Cache-Control` has one meaning, and lines that are each a list of directives are one
/// list when they are joined (RFC 9110 section 5.3), so [`crate::fallback_rules`] reads the whole
/// field.
pub fn cache_control_has_one_meaning()
    ensures meaning { OneMeaning }
    ensures lines { LinesAreOneList }
{}

/// One more directive that forbids something, wherever it is in `Cache-Control`, never makes a
/// decision less strict (RFC 9111 section 4.2.1).
pub fn forbidding_is_as_strict()
    ensures { ForbiddingIsAsStrict }
{}
