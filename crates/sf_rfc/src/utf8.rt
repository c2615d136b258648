//! Laws of UTF-8 (RFC 3629), each as a clause of one function that does nothing.
ghost use Rattle.sf_rfc.specs.Utf8Laws.{ScalarsEncode, DecodingInverts, AbnfDecodes};

/// Unicode scalar values, and nothing else, are encoded as UTF-8 (section 3). Characters are
/// encoded as octets exactly if the octets are decoded as these characters. Octets are decoded
/// exactly if they keep to the ABNF (section 4).
pub fn decoding_inverts()
    ensures scalars { ScalarsEncode }
    ensures inverts { DecodingInverts }
    ensures abnf { AbnfDecodes }
{}
