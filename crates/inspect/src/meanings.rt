// What an answer means, in words (docs/PROTOCOL.md's table).
use algorithm::Refusal;

// The number of a refusal and its words. A tag that matches needs no number. The words are there for every refusal, although no report
// leads to some of them.
pub(crate) fn words(answer: Result<(), Refusal>) -> &'static str {
    match answer {
        Ok(()) => "tag matches",
        Err(Refusal::TagDiffers) => "1 tag differs",
        Err(Refusal::UnknownHash) => "2 no hash has the number that it names",
        Err(Refusal::KeyTooLong) => "3 key, salt or PRK over 2^61 - 1 bytes",
        Err(Refusal::MessageTooLong) => "4 over 2^61 - 1 bytes hashed in all",
        Err(Refusal::TagLengthOutOfRange) => "5 tag length out of range",
        Err(Refusal::WrongSize) => "6 tag or output size, or unequal slices",
        Err(Refusal::PrkTooShort) => "7 PRK shorter than a digest of its hash",
        Err(Refusal::InfoTooLong) => "8 info over 1,024 bytes",
        Err(Refusal::OutputTooLong) => "9 output over 255 digests",
        Err(Refusal::StateNotSound) => "10 state or ledger not sound",
        Err(Refusal::WrongReportLength) => "11 too short, or count not length less four",
        Err(Refusal::UnknownVersion) => "12 version is not 1",
        Err(Refusal::TooManySites) => "13 more than 64 sites",
        Err(Refusal::LabelLengthOutOfRange) => "14 label length 0 or over 48",
        Err(Refusal::SitesMisplaced) => "15 sites do not end where the tag starts",
        Err(Refusal::SumTooLarge) => "16 live bytes add up to over 2^64 - 1",
        Err(Refusal::NoSuchSite) => "17 no site at that place",
        Err(Refusal::BufferTooShort) => "18 buffer too short for the report",
        Err(Refusal::LedgerFull) => "19 no record of the ledger is free",
        Err(Refusal::TotalTooLarge) => "20 ledger's sum would pass 2^64 - 1",
        Err(Refusal::KeyTooShort) => "21 report's key under 16 bytes",
    }
}
