//! Laws of the spellings of certificates.
ghost use Rattle.cert_format.specs.Laws.{SpellingLaws};

/// The certificates of docs/FORMATS.md, "Certificates", and their bytes: bytes spell one
/// certificate at the most, in one version, and they spell one exactly where no rule is broken.
pub fn spellings_are_unique()
    ensures { SpellingLaws }
{}
