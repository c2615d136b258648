//! The laws of the grammar that follow from its machine, in both dialects, and those of the set of
//! bytes and the line of a refusal. Each is the contract of a function that does nothing.
ghost use Rattle.sf_parse.specs.Laws.{OneValue, IsRead, IsResidual, IsViable, IsNext, IsEnd};
ghost use Rattle.sf_parse.specs.Laws.{StopsAt};
ghost use Rattle.sf_parse.specs.Laws.{CanonOne, AnyChunks, OnlyNew, LinesOne};
ghost use Rattle.sf_parse.specs.Reaching.{ReachesNothing, ReachesMore, ReachesViable, ReachesNext};
ghost use Rattle.sf_parse.specs.Reaching.{ReachesEnd, ReachesStops, ReachesAll};
ghost use Rattle.sf_parse.specs.Interchange.{RefusalsMove, CommaViable, ForgetsMembers};
ghost use Rattle.sf_parse.specs.ByteSets.{RunsAreTheSet, RunsAreWhole};
ghost use Rattle.sf_parse.specs.Names.{NamesAreTheSet};
ghost use Rattle.sf_parse.specs.Spots.{PlacesAreSpots};
ghost use Rattle.sf_parse.specs.StateTests.{TakesNext, EndsText, NextBelow, SomeNext};

/// A text spells at most one value of a kind. Valid values with equal canonical texts are equal.
/// Accepted lines spell one value, and their canonical text as the only line is accepted as that
/// value.
pub fn one_value()
    ensures one { OneValue }
    ensures canon { CanonOne }
    ensures lines { LinesOne }
{}

/// The value of the machine after a text is the one that the text spells; what completes a state
/// completes the bytes that led to it; and how a text is cut into chunks makes no difference.
pub fn machine_reads()
    ensures read { IsRead }
    ensures rest { IsResidual }
    ensures chunks { AnyChunks }
{}

/// A prefix is viable if and only if the machine is not stuck after it; the bytes that may follow
/// are those that a step takes; and a refusal is at the first byte that no step takes.
pub fn refusals_are_exact()
    ensures viable { IsViable }
    ensures next { IsNext }
    ensures end { IsEnd }
    ensures place { StopsAt }
{}

/// A text that spells a value in RFC 9651 and none in RFC 8941 has `@` or `%` at the place at which
/// RFC 8941 refuses it.
pub fn only_new_types_differ()
    ensures { OnlyNew }
{}

/// What follows from a state for the bytes that a parser took, however they came.
pub fn what_was_taken()
    ensures nothing { ReachesNothing }
    ensures more { ReachesMore }
    ensures viable { ReachesViable }
    ensures next { ReachesNext }
    ensures end { ReachesEnd }
    ensures stops { ReachesStops }
    ensures all { ReachesAll }
{}

/// A state decides which bytes may come next and whether the text may end; those bytes are below
/// 128, and there is always one.
pub fn what_may_follow()
    ensures next { TakesNext }
    ensures end { EndsText }
    ensures below { NextBelow }
    ensures some { SomeNext }
{}

/// After two prefixes that the same texts complete, the same bytes are refused at the same byte,
/// with the same bytes expected. After a comma in a List or a Dictionary, it makes no difference
/// which members came before.
pub fn refusals_move()
    ensures moved { RefusalsMove }
    ensures viable { CommaViable }
    ensures members { ForgetsMembers }
{}

/// The runs of a set, as [`crate::runs_of`] returns them, are exactly its bytes below 128, in
/// ascending order, each run as long as possible.
pub fn runs_are_the_set()
    ensures set { RunsAreTheSet }
    ensures whole { RunsAreWhole }
{}

/// The classes and the bytes that a refusal names are together exactly the set that it lists.
pub fn names_are_the_set()
    ensures { NamesAreTheSet }
{}

/// The place in a line at which a refusal is shown is the place in the joined lines: the byte there
/// is the same byte; at the line's end it is the comma or the space after the line, or no byte if
/// it is the last line.
pub fn places_are_spots()
    ensures { PlacesAreSpots }
{}
