// One record of a ledger: its layout, and what is asked of one or two of them alone. They are lent for that, since a copy would be made
// byte by byte.
ghost use Rattle.std.specs.Prelude.{◌≡◌};
ghost use Rattle.octets.specs.Same.{equal};
ghost use Rattle.ledger.specs.Records.{used, is_zero};
ghost use Rattle.ledger.specs.Inside.{first_word};

// A record as C lays it out: 48 bytes and no padding. It is used where `in_use` is 1 and free otherwise.
#[repr(C)]
#[derive(Clone, Copy)]
pub struct Record {
    pub fingerprint: [u8; 32],
    pub live: u64,
    pub in_use: u64,
}

pub(crate) fn is_used(record: &Record) -> bool
    ensures { result ≡ used «record».now }
{
    record.in_use == 1
}

pub(crate) fn is_zero(record: &Record) -> bool
    ensures { result ≡ is_zero «record».now }
{
    record.in_use == 0 && record.live == 0 && octets::all_zero(&record.fingerprint)
}

// The first eight bytes of a fingerprint as a number; the compiler makes one load of it.
fn first_word(fingerprint: [u8; 32]) -> u64
    ensures { result ≡ first_word fingerprint }
{
    let [a, b, c, d, e, f, g, h, ..] = fingerprint;
    u64::from_be_bytes([a, b, c, d, e, f, g, h])
}

// Whether two records have one fingerprint. Most pairs of different ones differ in the first word, which costs one comparison.
pub(crate) fn same_fingerprint(a: &Record, b: &Record) -> bool
    ensures { result ≡ equal a.now.fingerprint b.now.fingerprint }
{
    first_word(a.fingerprint) == first_word(b.fingerprint)
        && octets::same(&a.fingerprint, &b.fingerprint)
}
