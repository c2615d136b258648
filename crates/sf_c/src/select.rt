//! The choice among the fields of a target list (RFC 9213 section 2.2).
ghost use Rattle.std.specs.Prelude.{◌≡◌, Some};
ghost use Rattle.sf_value.specs.declared.dialect.Dialect.TheVariants.{Rfc9651};
ghost use Rattle.sf_c.specs.Calls.{ChecksDialect, dialect_at};
ghost use Rattle.sf_c.specs.Selecting.{Considers, HasPolicy, HasRules, Selects};
ghost use Rattle.sf_c.specs.Statuses.{status_at};

use crate::cache_control::PolicyFlags;
use crate::cache_rules::{RulesFlags, rule};
use crate::call::dialect_of;
use crate::refusal::SyntaxRefusal;
use crate::seed::Seed;
use crate::span::Span;
use crate::status::Status;
use sf_use::CacheRules;
use sf_value::Dialect;
use std::alloc::Global;

/// Chooses the field that a cache obeys (RFC 9213 section 2.2), among the fields of its target list
/// in order. The text of each is a span of `texts`, which is empty if the field is absent. Returns
/// `Answered` and sets `index` and `policy` to those of the first field that is not ignored;
/// `Empty` if each is ignored, since its text spells no Dictionary or one without members;
/// `BadCall` if the span of a field is not within `texts`, and the fields before it are ignored; or
/// `OutOfMemory`. The fields are read by RFC 9651.
#[unsafe(no_mangle)]
pub extern "C" fn sf_select(
    alloc: Global,
    seed: &Seed,
    texts: &[u8],
    fields: &[Span],
    index: &mut usize,
    policy: &mut PolicyFlags,
) -> u32
    // The first field that is not ignored, or why there is none.
    ensures { ChecksDialect (Some Rfc9651) (status_at result)
        (λ old new. Selects HasPolicy old new texts.now fields.now)
        (record { index = index.old; answer = policy.old })
        (record { index = index.new; answer = policy.new }) }
{
    select_policy(alloc, seed, texts, fields, index, policy).code()
}

/// Chooses the field that a cache obeys, as [`sf_select`] does, where the fields are those of a
/// dialect. Sets `rules` to its directives, for [`sf_decide`]. Returns `BadCall` also for a number
/// that is no dialect.
///
/// [`sf_decide`]: crate::sf_decide
#[unsafe(no_mangle)]
pub extern "C" fn sf_select_rules(
    alloc: Global,
    seed: &Seed,
    dialect: u32,
    texts: &[u8],
    fields: &[Span],
    index: &mut usize,
    rules: &mut RulesFlags,
) -> u32
    // The first field that is not ignored, or why there is none; BadCall if the number is no
    // dialect.
    ensures { ChecksDialect (dialect_at dialect) (status_at result)
        (λ old new. Selects HasRules old new texts.now fields.now)
        (record { index = index.old; answer = rules.old })
        (record { index = index.new; answer = rules.new }) }
{
    let Some(dialect) = dialect_of(dialect) else {
        return Status::BadCall.code();
    };
    select(alloc, seed, dialect, texts, fields, index, rules).code()
}

/// As [`sf_select`].
#[tactic(auto, using(crate::proofs::Selecting::policy_selected))]
fn select_policy(
    alloc: Global,
    seed: &Seed,
    texts: &[u8],
    fields: &[Span],
    index: &mut usize,
    policy: &mut PolicyFlags,
) -> Status
    ensures { Selects HasPolicy (record { index = index.old; answer = policy.old })
        (record { index = index.new; answer = policy.new }) texts.now fields.now Rfc9651 result }
{
    let mut rules = RulesFlags::of(CacheRules::default());
    match select(
        alloc,
        seed,
        Dialect::Rfc9651,
        texts,
        fields,
        index,
        &mut rules,
    ) {
        Status::Answered => {
            *policy = rules.policy;
            Status::Answered
        }
        Status::Empty => Status::Empty,
        Status::BadCall => Status::BadCall,
        Status::OutOfMemory => Status::OutOfMemory,
        _ => unreachable!(),
    }
}

/// As [`sf_select_rules`], in a dialect.
fn select(
    alloc: Global,
    seed: &Seed,
    dialect: Dialect,
    texts: &[u8],
    fields: &[Span],
    index: &mut usize,
    rules: &mut RulesFlags,
) -> Status
    // The first field that is not ignored, or why there is none.
    ensures { Selects HasRules (record { index = index.old; answer = rules.old })
        (record { index = index.new; answer = rules.new }) texts.now fields.now dialect result }
{
    for (place, field) in fields.iter().enumerate() {
        match consider(alloc, seed, dialect, texts, field, rules) {
            Status::Answered => {
                *index = place;
                return Status::Answered;
            }
            Status::Empty => {}
            Status::BadCall => return Status::BadCall,
            Status::OutOfMemory => return Status::OutOfMemory,
            _ => unreachable!(),
        }
    }
    Status::Empty
}

/// Returns `Answered` and the directives of one field, or `Empty` if it is ignored.
fn consider(
    alloc: Global,
    seed: &Seed,
    dialect: Dialect,
    texts: &[u8],
    field: &Span,
    rules: &mut RulesFlags,
) -> Status
    // The directives of a field that is not ignored.
    ensures { Considers dialect texts.now field.now rules.old rules.new result }
{
    let Some(text) = field.of(texts) else {
        return Status::BadCall;
    };
    let mut refusal = SyntaxRefusal::of(0, None, 0, false);
    match rule(alloc, seed, dialect, text, rules, &mut refusal) {
        Status::Answered => Status::Answered,
        Status::Empty => Status::Empty,
        // A malformed field is ignored, too.
        Status::Refused => Status::Empty,
        Status::OutOfMemory => Status::OutOfMemory,
        _ => unreachable!(),
    }
}
