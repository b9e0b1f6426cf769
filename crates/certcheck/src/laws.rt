//! Laws of certificates and their texts. Each is the contract of a call that does nothing.
ghost use Rattle.certcheck.specs.Laws.{FirstBadIsTold, NoneBeginsAnother, ReadsWhatIsSpelled};
ghost use Rattle.certcheck.specs.Laws.{SpelledIsRead};
ghost use Rattle.certcheck.specs.Examples.{ExampleOfCertificate};

/// A certificate has one spelling: exactly the texts that `write_certificate` gives are read, each
/// as its certificate. And none of them begins another.
pub fn certificates_are_spelled()
    ensures read { ReadsWhatIsSpelled }
    ensures spelled { SpelledIsRead }
    ensures apart { NoneBeginsAnother }
{}

/// The text of a certificate by example, byte by byte: the words of its lines, and which column is
/// the number and which is y or z.
pub fn certificate_by_example()
    ensures { ExampleOfCertificate }
{}

/// A text that is no certificate is refused with its first bad line: up to the line before it the
/// text begins as some certificate does, and up to and with that line as none, newlines counted in.
/// So that line is wrong, out of place, without its newline, or missing.
pub fn first_bad_line_is_told()
    ensures { FirstBadIsTold }
{}
