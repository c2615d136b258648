//! Parameters (RFC 9651 section 4.1.1.2).
ghost use Rattle.sf_value.specs.declared.dialect.Dialect.TheVariants.{Rfc9651};
ghost use Rattle.sf_value.specs.Grammar.Valid.{ValidBare, ValidParams};
ghost use Rattle.sf_value.specs.Grammar.Canonical.{canon_params, canon_value};
ghost use Rattle.sf_write.specs.Writing.{Follows};

use crate::bare::put_bare;
use crate::flag::is_true;
use crate::sending::{Sent, put};
use sf_value::{Bare, Entries, Sink};

/// Writes what follows a key: nothing for Boolean true, otherwise `=` and the bare item.
pub(crate) fn put_value<W: Sink>(value: &Bare, before: Sent, out: &mut W) -> Sent
    ensures text { Follows W.state W.send_gives out.old out.new before result
        (canon_value value.now) }
    ensures valid { ValidBare Rfc9651 value.now }
{
    if is_true(value) {
        return before;
    }
    let sent = put(b"=", before, out);
    put_bare(value, sent, out)
}

/// Writes parameters: for each a `;`, its key and its value. Without parameters it costs no call.
#[inline(always)]
pub(crate) fn put_params<W: Sink>(params: &Entries<Bare>, before: Sent, out: &mut W) -> Sent
    ensures text { Follows W.state W.send_gives out.old out.new before result
        (canon_params params.now) }
    ensures valid { ValidParams Rfc9651 params.now }
{
    // The clauses of `len` state that each key is valid and that none occurs twice.
    if params.len() == 0 {
        return before;
    }
    put_each_param(params, before, out)
}

/// As [`put_params`].
#[inline(never)]
fn put_each_param<W: Sink>(params: &Entries<Bare>, before: Sent, out: &mut W) -> Sent
    ensures text { Follows W.state W.send_gives out.old out.new before result
        (canon_params params.now) }
    ensures valid { ValidParams Rfc9651 params.now }
{
    // The clauses of `len` state that each key is valid and that none occurs twice.
    let _ = params.len();
    let mut sent = before;
    for (key, value) in params {
        sent = put(b";", sent, out);
        sent = put(key, sent, out);
        sent = put_value(value, sent, out);
    }
    sent
}
