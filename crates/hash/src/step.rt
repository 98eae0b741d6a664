// The block step (FIPS 180-4, sections 4.1 and 6), over words of either width, and the words after a run of blocks.
ghost use Rattle.std.specs.Prelude.{◌≡◌, ◌+◌, ◌-◌, ◌<◌, ◌≤◌, length, map};
ghost use mathlib.Core.List.{foldl};
ghost use Rattle.hash.specs.Blocks.{whole_blocks};
ghost use Rattle.hash.specs.Ring.{round_at, rounds_over, slide, advance, advanced, progress_at, sliding_rounds};
ghost use Rattle.hash.specs.Sha2 as sha;

use crate::table::Table;
use crate::words::Word;

// How far the rounds of a block have come: the eight working variables, a to h in the standard, and the ring, which holds the words
// of the schedule for the next sixteen rounds, the nearest first.
#[derive(Clone, Copy)]
struct Progress<W> {
    variables: [W; 8],
    ring: [W; 16],
}

fn t1<W: Word>(e: W, f: W, g: W, h: W, k: W, w: W) -> W
    ensures { W.value result ≡ sha.t1 W.core (W.value e) (W.value f) (W.value g) (W.value h) (W.value k) (W.value w) }
{
    h.add(W::big1(e)).add(W::ch(e, f, g)).add(k).add(w)
}

fn t2<W: Word>(a: W, b: W, c: W) -> W
    ensures { W.value result ≡ sha.t2 W.core (W.value a) (W.value b) (W.value c) }
{
    W::big0(a).add(W::maj(a, b, c))
}

fn round<W: Word>(s: [W; 8], k: W, w: W) -> [W; 8]
    ensures { map W.value result ≡ sha.round W.core (map W.value s) (W.value k) (W.value w) }
{
    let [a, b, c, d, e, f, g, h] = s;
    let x = t1(e, f, g, h, k, w);
    [x.add(t2(a, b, c)), a, b, c, d.add(x), e, f, g]
}

fn mix<W: Word>(w2: W, w7: W, w15: W, w16: W) -> W
    ensures { W.value result ≡ sha.mix W.core (W.value w2) (W.value w7) (W.value w15) (W.value w16) }
{
    W::small1(w2).add(w7).add(W::small0(w15)).add(w16)
}

// The round t, with its word of the schedule; `k` is the table.
fn round_at<W: Word>(v: [W; 8], k: &Table, t: usize, w: W) -> [W; 8]
    requires { t < W.core.rounds }
    ensures { map W.value result ≡ round_at W.core (map W.value v) t (W.value w) }
{
    round(v, W::constant(k, t), w)
}

// The ring one word on.
fn slide<W: Word>(ring: [W; 16]) -> [W; 16]
    ensures { map W.value result ≡ slide W.core (map W.value ring) }
{
    let next = mix(ring[14], ring[9], ring[1], ring[0]);
    [
        ring[1], ring[2], ring[3], ring[4], ring[5], ring[6], ring[7], ring[8], ring[9], ring[10],
        ring[11], ring[12], ring[13], ring[14], ring[15], next,
    ]
}

// The round t with the ring's first word, and the ring one word on.
fn advance<W: Word>(progress: Progress<W>, k: &Table, t: usize) -> Progress<W>
    requires { t < W.core.rounds }
    ensures { (map W.value result.variables, map W.value result.ring) ≡ advance W.core t (map W.value progress.variables, map W.value progress.ring) }
{
    Progress {
        variables: round_at(progress.variables, k, t, progress.ring[0]),
        ring: slide(progress.ring),
    }
}

// The eight rounds from t on, each with the ring's first word.
fn advance_eight<W: Word>(progress: Progress<W>, k: &Table, t: usize) -> Progress<W>
    requires { t + 8 ≤ W.core.rounds }
    ensures { (map W.value result.variables, map W.value result.ring) ≡ advanced W.core t (map W.value progress.variables, map W.value progress.ring) 8 }
{
    let p1 = advance(progress, k, t);
    let p2 = advance(p1, k, t + 1);
    let p3 = advance(p2, k, t + 2);
    let p4 = advance(p3, k, t + 3);
    let p5 = advance(p4, k, t + 4);
    let p6 = advance(p5, k, t + 5);
    let p7 = advance(p6, k, t + 6);
    advance(p7, k, t + 7)
}

// The last sixteen rounds, whose words are all in the ring.
fn last_rounds<W: Word>(progress: Progress<W>, k: &Table) -> [W; 8]
    ensures { map W.value result ≡ rounds_over W.core (sliding_rounds W.core) (map W.value progress.ring) (map W.value progress.variables) 16 }
{
    let Progress { variables, ring } = progress;
    let t = W::ROUNDS - 16;
    let v1 = round_at(variables, k, t, ring[0]);
    let v2 = round_at(v1, k, t + 1, ring[1]);
    let v3 = round_at(v2, k, t + 2, ring[2]);
    let v4 = round_at(v3, k, t + 3, ring[3]);
    let v5 = round_at(v4, k, t + 4, ring[4]);
    let v6 = round_at(v5, k, t + 5, ring[5]);
    let v7 = round_at(v6, k, t + 6, ring[6]);
    let v8 = round_at(v7, k, t + 7, ring[7]);
    let v9 = round_at(v8, k, t + 8, ring[8]);
    let v10 = round_at(v9, k, t + 9, ring[9]);
    let v11 = round_at(v10, k, t + 10, ring[10]);
    let v12 = round_at(v11, k, t + 11, ring[11]);
    let v13 = round_at(v12, k, t + 12, ring[12]);
    let v14 = round_at(v13, k, t + 13, ring[13]);
    let v15 = round_at(v14, k, t + 14, ring[14]);
    round_at(v15, k, t + 15, ring[15])
}

// The word t of the block that starts the bytes.
fn word_at<W: Word>(b: &[u8], t: usize) -> W
    requires { (t < 16) × (sha.block_size W.core ≤ length b.now) }
    ensures { W.value result ≡ sha.word W.core b.now t }
{
    W::read(b, W::BYTES * t)
}

// The sixteen words of the block that starts the bytes. They are written out, since a loop would keep them in an array beside the
// ring.
fn block_words<W: Word>(b: &[u8]) -> [W; 16]
    requires { sha.block_size W.core ≤ length b.now }
    ensures { map W.value result ≡ sha.words W.core b.now 16 }
{
    [
        word_at(b, 0),
        word_at(b, 1),
        word_at(b, 2),
        word_at(b, 3),
        word_at(b, 4),
        word_at(b, 5),
        word_at(b, 6),
        word_at(b, 7),
        word_at(b, 8),
        word_at(b, 9),
        word_at(b, 10),
        word_at(b, 11),
        word_at(b, 12),
        word_at(b, 13),
        word_at(b, 14),
        word_at(b, 15),
    ]
}

// All rounds but the last sixteen: each also makes the word that comes sixteen rounds later.
fn sliding_rounds<W: Word>(s: [W; 8], b: &[u8], k: &Table) -> Progress<W>
    requires { sha.block_size W.core ≤ length b.now }
    ensures { (map W.value result.variables, map W.value result.ring) ≡ progress_at W.core (map W.value s) b.now (sliding_rounds W.core) }
{
    let mut progress = Progress {
        variables: s,
        ring: block_words(b),
    };
    for i in 0..(W::ROUNDS - 16) / 8 {
        progress = advance_eight(progress, k, 8 * i);
    }
    progress
}

fn rounds<W: Word>(s: [W; 8], b: &[u8], k: &Table) -> [W; 8]
    requires { sha.block_size W.core ≤ length b.now }
    ensures { map W.value result ≡ sha.rounds W.core (sha.schedule W.core b.now (sliding_rounds W.core)) (map W.value s) W.core.rounds }
{
    last_rounds(sliding_rounds(s, b, k), k)
}

fn sums<W: Word>(s: [W; 8], v: [W; 8]) -> [W; 8]
    ensures { map W.value result ≡ sha.sums W.core (map W.value s) (map W.value v) }
{
    [
        s[0].add(v[0]),
        s[1].add(v[1]),
        s[2].add(v[2]),
        s[3].add(v[3]),
        s[4].add(v[4]),
        s[5].add(v[5]),
        s[6].add(v[6]),
        s[7].add(v[7]),
    ]
}

// The chaining words after the block that starts the bytes.
fn step<W: Word>(s: [W; 8], b: &[u8], k: &Table) -> [W; 8]
    requires { sha.block_size W.core ≤ length b.now }
    ensures { map W.value result ≡ sha.step W.core (map W.value s) b.now }
{
    sums(s, rounds(s, b, k))
}

// The chaining words after every whole block of the bytes, each read where it stands; `k` is the table, lent by the caller.
pub(crate) fn after_run<W: Word>(words: [W; 8], run: &[u8], k: &Table) -> [W; 8]
    ensures { map W.value result ≡ foldl (sha.step W.core) (map W.value words) (whole_blocks (sha.block_size W.core) run.now) }
{
    let mut v = words;
    for block in run.chunks_exact(16 * W::BYTES) {
        v = step(v, block, k);
    }
    v
}
