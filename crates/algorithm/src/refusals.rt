// Why a call is refused, and the number of docs/PROTOCOL.md's table that comes back for it.
ghost use Rattle.std.specs.Prelude.{◌≡◌};
ghost use Rattle.algorithm.specs.Answers.{number_of, number};

#[derive(Clone, Copy, Debug, PartialEq, Eq)]
pub enum Refusal {
    // The tag differs.
    TagDiffers,
    // The number names no hash.
    UnknownHash,
    // Key, salt or PRK over the limit.
    KeyTooLong,
    // Hashed bytes over the limit.
    MessageTooLong,
    // Tag length outside its range.
    TagLengthOutOfRange,
    // A presented tag, or an output of fixed size, is not of that size; or the slices of sites are of unequal length.
    WrongSize,
    // PRK shorter than a digest.
    PrkTooShort,
    // Info over its limit.
    InfoTooLong,
    // Output over 255 digests.
    OutputTooLong,
    // The state is not sound.
    StateNotSound,
    // The report is too short, or its count is not its length less four.
    WrongReportLength,
    // The report's version is not 1.
    UnknownVersion,
    // The report has too many sites.
    TooManySites,
    // A label's length is out of range.
    LabelLengthOutOfRange,
    // A site runs into the tag, or bytes are left between; or labels do not have as many bytes as their lengths add up to.
    SitesMisplaced,
    // The sum of live bytes is over 2^64 - 1.
    SumTooLarge,
    // There is no site at that place.
    NoSuchSite,
    // The buffer is too short for the report.
    BufferTooShort,
    // The ledger has no free record.
    LedgerFull,
    // The sum of the ledger's live bytes would be over 2^64 - 1.
    TotalTooLarge,
    // A report's key under 16 bytes.
    KeyTooShort,
}

impl From<Refusal> for u32 {
    ghost from_gives = { λ e n. n ≡ number_of e };

    fn from(refusal: Refusal) -> u32 {
        match refusal {
            Refusal::TagDiffers => 1,
            Refusal::UnknownHash => 2,
            Refusal::KeyTooLong => 3,
            Refusal::MessageTooLong => 4,
            Refusal::TagLengthOutOfRange => 5,
            Refusal::WrongSize => 6,
            Refusal::PrkTooShort => 7,
            Refusal::InfoTooLong => 8,
            Refusal::OutputTooLong => 9,
            Refusal::StateNotSound => 10,
            Refusal::WrongReportLength => 11,
            Refusal::UnknownVersion => 12,
            Refusal::TooManySites => 13,
            Refusal::LabelLengthOutOfRange => 14,
            Refusal::SitesMisplaced => 15,
            Refusal::SumTooLarge => 16,
            Refusal::NoSuchSite => 17,
            Refusal::BufferTooShort => 18,
            Refusal::LedgerFull => 19,
            Refusal::TotalTooLarge => 20,
            Refusal::KeyTooShort => 21,
        }
    }
}

// The number that comes back for an answer: 0 where the call is done, or the tag matches, and else that of the refusal.
pub fn number<T: Copy>(answer: Result<T, Refusal>) -> u32
    ensures { result ≡ number answer }
{
    match answer {
        Ok(_) => 0,
        Err(refusal) => refusal.into(),
    }
}
