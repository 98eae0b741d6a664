// What is submitted.

// A report, and the tag key and the fingerprint key of its machine.
#[derive(Clone, Copy)]
pub struct Submission<'a> {
    pub report: &'a [u8],
    pub tag_key: &'a [u8],
    pub fingerprint_key: &'a [u8],
}
